// Walks that were worked out by hand, each the contract of a function that does nothing.
ghost use Rattle.fix_examples.specs.ByHand.{WalkByHand, WalkReturnsByHand};

/// Along a line of three edges a walk comes from one end to the other.
pub fn walk_by_hand()
    ensures { WalkByHand }
{}

/// Round a ring of three edges a walk comes back by its last step, which is bad.
pub fn walk_returns_by_hand()
    ensures { WalkReturnsByHand }
{}
