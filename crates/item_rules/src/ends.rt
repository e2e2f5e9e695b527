ghost use Rattle.std.specs.Prelude.{◌≡◌, is_none};
ghost use Rattle.std.specs.List.{list_any, find};
ghost use Rattle.std.specs.Option.{option_map};
ghost use Rattle.amdl_tree.specs.Items.{box_items};
ghost use Rattle.amdl_tree.specs.declared.tree.End.TheVariants as at;
ghost use Rattle.name_tables.specs.Names.{same_name, is_among};
ghost use Rattle.tree_plan.specs.Net.{class_named, place_of};
ghost use Rattle.tree_rules.specs.Rules.{passes};
ghost use Rattle.item_rules.specs.Found.{class_has_port, box_has_port};

use crate::lookups::{box_class, class_named};
use crate::names::is_host;
use amdl_tree::{Class, End, Item, Name};

/// Whether an end is no host, or no port of a box. Linear in the items before and the ports.
pub(crate) fn end_unknown(before: &[Item], end: &End) -> bool
    ensures { result ≡ is_none (place_of before.now end.now) }
{
    match end {
        End::Host(host) => host_unknown(before, *host),
        End::Port(name, port) => port_unknown(before, *name, *port),
    }
}

#[tactic(auto, using(crate::proofs::EndLemmas::host_placed))]
fn host_unknown(before: &[Item], host: Name) -> bool
    ensures { result ≡ is_none (place_of before.now (at.Host host)) }
{
    !is_host(before, host)
}

#[tactic(auto, using(crate::proofs::EndLemmas::port_placed))]
fn port_unknown(before: &[Item], name: Name, port: Name) -> bool
    ensures { result ≡ is_none (place_of before.now (at.Port name port)) }
{
    !box_has_port(before, name, port)
}

fn box_has_port(before: &[Item], name: Name, port: Name) -> bool
    ensures { result ≡ box_has_port before.now name port }
{
    match box_class(before, name) {
        Some(class) => class_has_port(before, class, port),
        None => false,
    }
}

fn class_has_port(before: &[Item], name: Name, port: Name) -> bool
    ensures { result ≡ class_has_port before.now port name }
{
    match class_named(before, name) {
        Some(class) => has_port(class, port),
        None => false,
    }
}

fn has_port(class: &Class, port: Name) -> bool
    ensures { result ≡ is_among class.now.ports port }
{
    class.ports.as_slice().iter().any(|other| port == *other)
}
