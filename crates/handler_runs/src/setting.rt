use amdl_tree::List;

/// What is read from while a handler runs.
#[derive(Clone, Copy)]
pub(crate) struct Setting<'a> {
    // how many values each field has
    pub(crate) sizes: &'a [u32],
    // how many values each argument of each relation has
    pub(crate) relations: &'a [List<u32>],
    // the value of each field of the packet, as it was received
    pub(crate) fields: &'a [u32],
}
