ghost use Rattle.std.specs.Prelude.{◌≡◌, nat_lt, length, IfOk};
ghost use Rattle.std.specs.List.{list_any};
ghost use Rattle.amdl_tree.specs.declared.tree.Item.TheVariants.{Class as OfClass};
ghost use Rattle.box_handlers.specs.Body.{body_of};
ghost use Rattle.box_handlers.specs.Queries.{queries_of};
ghost use Rattle.box_handlers.specs.Size.{paths_of};
ghost use Rattle.tree_plan.specs.Handlers.{handlers_of};
ghost use Rattle.tree_plan.specs.Tables.{known_by};
ghost use Rattle.tree_rules.specs.Rules.{passes, too_many_paths, too_many_queries};
ghost use Rattle.class_rules.specs.Reads.{IsRead};

use crate::read::ReadClass;
use amdl_tree::{Handler, List, NoMemory};
use box_handlers::Act;
use handler_sizes::any_over_paths;
use std::alloc::Global;
use tree_plan::{Tables, handlers_of, more_queries};

/// Whether a handler of a class has more paths than it may. Linear in the handlers.
#[tactic(auto, using(crate::proofs::ReadLemmas::paths_are))]
pub(crate) fn too_many_paths(read: &ReadClass<'_>) -> bool
    requires { IsRead read.now }
    ensures { result ≡ too_many_paths read.now.before.now (OfClass read.now.class.now) }
{
    paths_over(read.bodies)
}

fn paths_over(bodies: &Option<List<List<Act>>>) -> bool
    ensures { result ≡ passes (list_any (λ acts. nat_lt 1024 (paths_of (body_of acts)))) bodies.now }
{
    match bodies {
        Some(found) => any_over_paths(found.as_slice(), 1024),
        None => false,
    }
}

/// Whether a class has more queries than it may. Expands the picks of its handlers, so that their paths should have
/// been counted.
#[tactic(auto, using(crate::proofs::ReadLemmas::queries_are))]
pub(crate) fn too_many_queries(alloc: Global, read: &ReadClass<'_>) -> Result<bool, NoMemory>
    requires { IsRead read.now }
    ensures { IfOk result (λ found. found ≡ too_many_queries read.now.before.now (OfClass read.now.class.now)) }
{
    queries_over(alloc, read.tables, read.class.handlers.as_slice())
}

fn queries_over(alloc: Global, tables: &Tables<'_>, handlers: &[Handler]) -> Result<bool, NoMemory>
    ensures { IfOk result (λ found. found ≡ passes (λ handlers. nat_lt 12 (length (queries_of handlers)))
        (handlers_of (known_by tables.now) handlers.now)) }
{
    match handlers_of(alloc, tables, handlers)? {
        Some(numbered) => more_queries(alloc, numbered.as_slice(), 12),
        None => Ok(false),
    }
}
