use crate::put::Put;
use amdl_tree::List;
use box_handlers::Act;
use box_masks::Write;

/// What stands behind a block, with how many picks are open there.
#[derive(Clone, Copy)]
pub(crate) struct Frame<'a> {
    pub(crate) acts: &'a [Act],
    pub(crate) depth: usize,
}

/// Where a walk stands within its trail: how many picks are open, how many frames stand behind its block, how much was
/// written and put out, and what the contents answer now.
#[derive(Clone, Copy, PartialEq, Eq, Debug)]
pub(crate) struct Spot {
    pub(crate) depth: usize,
    pub(crate) top: usize,
    pub(crate) writes: usize,
    pub(crate) puts: usize,
    pub(crate) mask: u16,
}

/// What a walk has on its way, in lists that keep their length.
#[derive(Drop)]
pub(crate) struct Trail<'a> {
    pub(crate) frames: List<Frame<'a>>,
    pub(crate) slots: List<u32>,
    pub(crate) writes: List<Write>,
    pub(crate) puts: List<Put>,
}
