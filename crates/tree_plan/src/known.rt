use crate::kinds::Kinds;
use crate::numbered::Numbered;
use amdl_tree::Name;

/// What the handlers of a class may name: the types with their values, and the names of the fields, of the relations
/// of the class and of its ports, each numbered by its place.
#[derive(Clone, Copy)]
pub struct Tables<'a> {
    pub kinds: &'a Kinds,
    pub fields: &'a [Name],
    pub relations: &'a Numbered,
    pub ports: &'a Numbered,
}
