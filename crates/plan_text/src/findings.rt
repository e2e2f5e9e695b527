use amdl_tree::List;
use net_plan::Fact;

/// What an analysis found: how many facts there are of each kind, how many of all are bad, and the first 1,000 bad
/// ones in file order.
#[derive(Debug, Drop)]
pub struct Findings {
    pub outs: u32,
    pub states: u32,
    pub aborts: u32,
    pub bad: u32,
    pub listed: List<Fact>,
}
