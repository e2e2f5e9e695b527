//! Laws of contents, each the contract of a function that does nothing.
ghost use Rattle.box_contents.specs.Laws.{HeldIsMember, WithKeepsRising, WithoutKeepsRising, HeldWith, HeldWithout};
ghost use Rattle.box_contents.specs.Laws.{RisingIsSettled};

/// A list holds an entry exactly where it is a member.
pub fn held_is_member()
    ensures { HeldIsMember }
{}

/// A rising list still rises with an entry more.
pub fn with_keeps_rising()
    ensures { WithKeepsRising }
{}

/// A rising list still rises without an entry.
pub fn without_keeps_rising()
    ensures { WithoutKeepsRising }
{}

/// With an entry a list holds that entry and what it held before, and nothing else.
pub fn held_with()
    ensures { HeldWith }
{}

/// Without an entry a list holds what it held before but that entry.
pub fn held_without()
    ensures { HeldWithout }
{}

/// Two rising lists that hold the same entries are one list.
pub fn rising_is_settled()
    ensures { RisingIsSettled }
{}
