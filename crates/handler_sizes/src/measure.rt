ghost use Rattle.std.specs.Prelude.{◌≡◌, ◌∷◌, []};
ghost use Rattle.box_handlers.specs.Body.{Fork, Each, Stop, OneBranch, NoBranch, body_of, branches_of, formula_of};
ghost use Rattle.handler_sizes.specs.Capped.{size_of, size_of_branches};

use crate::guards::test_literals;
use crate::size::Size;
use box_handlers::{Act, Branch};

/// The size of a block. Linear in the block, its picks as they stand.
#[tactic(auto, using(crate::proofs::SizeLemmas::block_more, crate::proofs::SizeLemmas::block_done))]
#[cycle(acts)]
pub(crate) fn block_size(acts: &[Act]) -> Size
    ensures { result ≡ size_of (body_of acts.now) }
{
    let mut size = Size {
        statements: 0,
        literals: 0,
        paths: 1,
    };
    for act in acts {
        size = size.then(act_size(act));
    }
    size
}

#[tactic(auto, using(crate::proofs::SizeLemmas::insert_size, crate::proofs::SizeLemmas::remove_size, crate::proofs::SizeLemmas::output_size, crate::proofs::SizeLemmas::abort_size, crate::proofs::SizeLemmas::choose_size, crate::proofs::SizeLemmas::pick_size))]
#[cycle(acts)]
fn act_size(act: &Act) -> Size
    ensures { result ≡ size_of (body_of (act.now ∷ [])) }
{
    match act {
        Act::Insert(_) => simple_size(),
        Act::Remove(_) => simple_size(),
        Act::Output(_, _) => simple_size(),
        Act::Abort => simple_size(),
        Act::Choose(branches) => choice_size(branches.as_slice()),
        Act::Pick(values, body) => pick_size(*values, body.as_slice()),
    }
}

// The size of a statement without parts.
fn simple_size() -> Size
    ensures { result ≡ record { statements = 1; literals = 0; paths = 1 } }
{
    Size {
        statements: 1,
        literals: 0,
        paths: 1,
    }
}

#[cycle(acts)]
fn choice_size(branches: &[Branch]) -> Size
    ensures { result ≡ size_of (Fork (branches_of branches.now) Stop) }
{
    let branched = branches_size(branches);
    Size {
        statements: branched.statements.saturating_add(1),
        literals: branched.literals,
        paths: branched.paths.saturating_add(1),
    }
}

#[tactic(auto, using(crate::proofs::SizeLemmas::picked_size))]
#[cycle(acts)]
fn pick_size(values: u32, body: &[Act]) -> Size
    ensures { result ≡ size_of (Each values (body_of body.now) Stop) }
{
    let block = block_size(body);
    Size {
        statements: block.statements.saturating_add(1),
        literals: block.literals,
        paths: block.paths.saturating_mul(u64::from(values)),
    }
}

#[tactic(auto, using(crate::proofs::SizeLemmas::branches_more, crate::proofs::SizeLemmas::branches_done))]
#[cycle(acts)]
fn branches_size(branches: &[Branch]) -> Size
    ensures { result ≡ size_of_branches (branches_of branches.now) }
{
    let mut size = Size {
        statements: 0,
        literals: 0,
        paths: 0,
    };
    for branch in branches {
        size = size.beside(branch_size(branch));
    }
    size
}

#[cycle(acts)]
fn branch_size(branch: &Branch) -> Size
    ensures { result ≡ size_of_branches (OneBranch (formula_of branch.now.guard) (body_of branch.now.body) NoBranch) }
{
    let block = block_size(branch.body.as_slice());
    let asked = test_literals(&branch.guard);
    Size {
        statements: block.statements,
        literals: asked.saturating_add(block.literals),
        paths: block.paths,
    }
}
