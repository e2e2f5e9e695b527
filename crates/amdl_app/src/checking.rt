//! The verb `check`.
ghost use Rattle.std.specs.Prelude.{◌≡◌, ◌≤◌, length, IfOk};
ghost use Rattle.plan_text.specs.Text.{counts_of};
ghost use Rattle.amdl_app.specs.Answer.{IsCommandReply};
ghost use Rattle.amdl_app.specs.Answered.{reply_of};
ghost use Rattle.amdl_app.specs.Command.{Check};
ghost use Rattle.amdl_app.specs.Counts.{IsCheck};
ghost use Rattle.amdl_app.specs.Loaded.{MayCome};
ghost use Rattle.amdl_app.specs.Reply.{says};
ghost use Rattle.amdl_app.specs.Seen.{files_seen};

use crate::answer::{Answer, refusal_answer};
use crate::load::{Loaded, load_network, stop_answer};
use crate::spelling::network_of;
use amdl_tree::NoMemory;
use net_plan::Network;
use outside::Files;
use plan_text::put_counts;
use std::alloc::Global;

/// Loads the file of a network and checks it.
pub fn check_file<F: Files>(alloc: Global, network: &str, files: &mut F) -> Result<Answer, NoMemory>
    ensures kept { F.told files.new ≡ F.told files.old }
    ensures later { F.faults files.old ≤ F.faults files.new }
    ensures reply { IfOk result (λ answer. IsCommandReply
        (MayCome (files_seen F.told F.faults files.old) (files_seen F.told F.faults files.new))
        (Check network.now) (reply_of answer)) }
{
    let loaded = load_network(alloc, network, files)?;
    match loaded {
        Loaded::Found(text) => check_text(alloc, text.as_slice()),
        Loaded::Stopped(stop) => stop_answer(alloc, network, stop),
    }
}

// Checks the network that a text within the limit spells.
fn check_text(alloc: Global, text: &[u8]) -> Result<Answer, NoMemory>
    requires { length text.now ≤ 4194304 }
    ensures { IfOk result (λ answer. IsCheck text.now (reply_of answer)) }
{
    let found = network_of(alloc, text)?;
    match found {
        Ok(network) => counts_answer(alloc, &network),
        Err(refusal) => refusal_answer(alloc, refusal),
    }
}

// The counts of a network, status 0.
fn counts_answer(alloc: Global, network: &Network) -> Result<Answer, NoMemory>
    ensures { IfOk result (λ answer. reply_of answer ≡ says 0 (counts_of network.now)) }
{
    let mut text = Vec::new(alloc);
    put_counts(network, &mut text)?;
    Ok(Answer { status: 0, text })
}
