use tree_rules::Rule;

/// Why a tree is no network.
#[derive(Clone, Copy, PartialEq, Eq, Debug)]
pub enum CheckRefusal {
    /// The item is the first of which a rule holds with the items before it, and the rule is the first that holds of
    /// it. Items are counted from 0. Where no rule holds of any item and none is a field, the number is that of all
    /// items, and the rule is `NoField`.
    At { item: u32, rule: Rule },
    /// Memory ran out.
    NoMemory,
}
