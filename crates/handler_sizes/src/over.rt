ghost use Rattle.std.specs.Prelude.{◌≡◌, nat_lt};
ghost use Rattle.std.specs.List.{list_any};
ghost use Rattle.box_handlers.specs.Body.{body_of};
ghost use Rattle.box_handlers.specs.Size.{statements_of_all, literals_of_all, paths_of};
ghost use Rattle.handler_sizes.specs.Capped.{capped};

use crate::measure::block_size;
use amdl_tree::List;
use box_handlers::Act;

/// Whether the handlers have more statements than this, all of them counted together. Linear in the handlers.
pub fn over_statements(handlers: &[List<Act>], limit: u32) -> bool
    ensures { result ≡ nat_lt limit (statements_of_all handlers.now) }
{
    u64::from(limit) < all_statements(handlers)
}

#[tactic(auto, using(crate::proofs::SizeLemmas::statements_more, crate::proofs::SizeLemmas::statements_done))]
fn all_statements(handlers: &[List<Act>]) -> u64
    ensures { result ≡ capped (statements_of_all handlers.now) }
{
    let mut total = 0u64;
    for acts in handlers {
        total = total.saturating_add(block_size(acts.as_slice()).statements);
    }
    total
}

/// Whether the guards of the handlers have more literals than this, all of them counted together. Linear in the handlers.
pub fn over_literals(handlers: &[List<Act>], limit: u32) -> bool
    ensures { result ≡ nat_lt limit (literals_of_all handlers.now) }
{
    u64::from(limit) < all_literals(handlers)
}

#[tactic(auto, using(crate::proofs::SizeLemmas::literals_more, crate::proofs::SizeLemmas::literals_done))]
fn all_literals(handlers: &[List<Act>]) -> u64
    ensures { result ≡ capped (literals_of_all handlers.now) }
{
    let mut total = 0u64;
    for acts in handlers {
        total = total.saturating_add(block_size(acts.as_slice()).literals);
    }
    total
}

/// Whether some handler has more paths than this. Linear in the handlers, however many paths there are.
pub fn any_over_paths(handlers: &[List<Act>], limit: u32) -> bool
    ensures { result ≡ list_any (λ acts. nat_lt limit (paths_of (body_of acts))) handlers.now }
{
    handlers
        .iter()
        .any(|acts| over_paths(acts.as_slice(), limit))
}

fn over_paths(acts: &[Act], limit: u32) -> bool
    ensures { result ≡ nat_lt limit (paths_of (body_of acts.now)) }
{
    u64::from(limit) < block_size(acts).paths
}
