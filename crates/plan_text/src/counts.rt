ghost use Rattle.std.specs.Prelude.{◌≡◌, ◌∷◌, ◌++◌, OnOk, OnErr};
ghost use Rattle.amdl_tree.specs.Appends.{AppendsPart};
ghost use Rattle.amdl_tree.specs.Layout.{line};
ghost use Rattle.plan_text.specs.Text.{counts_of, items_line, cells_line};

use crate::digits::Digits;
use crate::lines::put_network_line;
use amdl_tree::{NoMemory, put_all};
use net_plan::Network;

/// Appends what a network has a number of: the network line, then types, fields, classes and links, and then ends and
/// cells.
pub fn put_counts(network: &Network, out: &mut Vec<u8>) -> Result<(), NoMemory>
    ensures ok { OnOk result (out.new.items ≡ out.old.items ++ counts_of network.now) }
    ensures err { OnErr result (AppendsPart out.old.items out.new.items (counts_of network.now)) }
{
    put_network_line(network, out)?;
    put_other_counts(network, out)
}

// Appends the end of the network line and the lines behind it.
fn put_other_counts(network: &Network, out: &mut Vec<u8>) -> Result<(), NoMemory>
    ensures ok { OnOk result
        (out.new.items ≡ out.old.items ++ (10 ∷ (line (items_line network.now) ++ line (cells_line network.now)))) }
    ensures err { OnErr result (AppendsPart out.old.items out.new.items
        (10 ∷ (line (items_line network.now) ++ line (cells_line network.now)))) }
{
    let types = Digits::of(network.types() as u64);
    let fields = Digits::of(network.headers().fields() as u64);
    let classes = Digits::of(network.classes() as u64);
    let links = Digits::of(network.links() as u64);
    let ends = Digits::of(network.ends() as u64);
    let cells = Digits::of(network.cells() as u64);
    put_all(
        out,
        &[
            b"\ntypes ",
            types.bytes(),
            b" fields ",
            fields.bytes(),
            b" classes ",
            classes.bytes(),
            b" links ",
            links.bytes(),
            b"\nends ",
            ends.bytes(),
            b" cells ",
            cells.bytes(),
            b"\n",
        ],
    )
}
