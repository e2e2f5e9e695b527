use amdl_tree::{Class, Item, List};
use box_handlers::Act;
use declared_names::Declared;
use tree_plan::Tables;

/// A class with the items before it, and what is made of them once for all rules: the tables of the names that it may
/// use, and the blocks of its handlers by numbers, where each name in them stands for something.
#[derive(Clone, Copy)]
pub(crate) struct ReadClass<'a> {
    pub(crate) before: &'a [Item],
    pub(crate) class: &'a Class,
    pub(crate) declared: &'a Declared,
    pub(crate) tables: &'a Tables<'a>,
    pub(crate) bodies: &'a Option<List<List<Act>>>,
}
