//! The verb `format`.
ghost use Rattle.std.specs.Prelude.{◌≡◌, ◌≤◌, length, IfOk};
ghost use Rattle.amdl_tree.specs.Layout.{layout_of_tree};
ghost use Rattle.amdl_tree.specs.WellBuilt.{IsShaped};
ghost use Rattle.amdl_app.specs.Answer.{IsCommandReply};
ghost use Rattle.amdl_app.specs.Answered.{reply_of};
ghost use Rattle.amdl_app.specs.Command.{Format};
ghost use Rattle.amdl_app.specs.Formatting.{IsFormatting};
ghost use Rattle.amdl_app.specs.Loaded.{MayCome};
ghost use Rattle.amdl_app.specs.Reply.{says};
ghost use Rattle.amdl_app.specs.Seen.{files_seen};

use crate::answer::{Answer, refusal_answer};
use crate::load::{Loaded, load_network, stop_answer};
use crate::spelling::network_refusal;
use amdl_tree::{NoMemory, Tree};
use network_file::{read, write};
use outside::Files;
use std::alloc::Global;

/// Loads the file of a network and writes the network in its canonical layout.
pub fn format<F: Files>(alloc: Global, network: &str, files: &mut F) -> Result<Answer, NoMemory>
    ensures kept { F.told files.new ≡ F.told files.old }
    ensures later { F.faults files.old ≤ F.faults files.new }
    ensures reply { IfOk result (λ answer. IsCommandReply
        (MayCome (files_seen F.told F.faults files.old) (files_seen F.told F.faults files.new))
        (Format network.now) (reply_of answer)) }
{
    let loaded = load_network(alloc, network, files)?;
    match loaded {
        Loaded::Found(text) => format_text(alloc, text.as_slice()),
        Loaded::Stopped(stop) => stop_answer(alloc, network, stop),
    }
}

// Writes the network that a text within the limit spells.
fn format_text(alloc: Global, text: &[u8]) -> Result<Answer, NoMemory>
    requires { length text.now ≤ 4194304 }
    ensures { IfOk result (λ answer. IsFormatting text.now (reply_of answer)) }
{
    let reading = read(alloc, text)?;
    match reading {
        Ok(tree) => layout_answer(alloc, &tree),
        Err(refusal) => refusal_answer(alloc, network_refusal(refusal)),
    }
}

// The canonical layout of a tree, status 0.
fn layout_answer(alloc: Global, tree: &Tree) -> Result<Answer, NoMemory>
    requires { IsShaped tree.now }
    ensures { IfOk result (λ answer. reply_of answer ≡ says 0 (layout_of_tree tree.now)) }
{
    let mut text = Vec::new(alloc);
    write(tree, &mut text)?;
    Ok(Answer { status: 0, text })
}
