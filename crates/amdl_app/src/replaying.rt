//! The verbs `replay` and `replay-ordered`.
ghost use Rattle.std.specs.Prelude.{◌≡◌, ◌≤◌, length, IfOk};
ghost use Rattle.amdl_app.specs.Answer.{IsCommandReply};
ghost use Rattle.amdl_app.specs.Answered.{reply_of};
ghost use Rattle.amdl_app.specs.Command.{Replay};
ghost use Rattle.amdl_app.specs.Loaded.{MayCome};
ghost use Rattle.amdl_app.specs.Replaying.{AfterSchedule, IsReplay, IsReplayed, WithSchedule};
ghost use Rattle.amdl_app.specs.Seen.{files_seen};

use crate::answer::{Answer, refusal_answer};
use crate::load::{Loaded, load_network, load_schedule, schedule_stop_answer, stop_answer};
use crate::simulated::{Simulated, simulated_of};
use amdl_tree::NoMemory;
use net_runs::Mode;
use outside::Files;
use schedule_file::told_of;
use std::alloc::Global;

/// Loads the files of a network and of a schedule, and replays the schedule. The second is loaded only where the first
/// gives a network.
pub fn replay_files<F: Files>(
    alloc: Global,
    mode: Mode,
    network: &str,
    schedule: &str,
    files: &mut F,
) -> Result<Answer, NoMemory>
    ensures kept { F.told files.new ≡ F.told files.old }
    ensures later { F.faults files.old ≤ F.faults files.new }
    ensures reply { IfOk result (λ answer. IsCommandReply
        (MayCome (files_seen F.told F.faults files.old) (files_seen F.told F.faults files.new))
        (Replay mode network.now schedule.now) (reply_of answer)) }
{
    let loaded = load_network(alloc, network, files)?;
    match loaded {
        Loaded::Found(text) => replay_on_text(alloc, mode, text.as_slice(), schedule, files),
        Loaded::Stopped(stop) => stop_answer(alloc, network, stop),
    }
}

// Replays the schedule of a file on the network that a text within the limit spells.
fn replay_on_text<F: Files>(
    alloc: Global,
    mode: Mode,
    text: &[u8],
    schedule: &str,
    files: &mut F,
) -> Result<Answer, NoMemory>
    requires { length text.now ≤ 4194304 }
    ensures kept { F.told files.new ≡ F.told files.old }
    ensures later { F.faults files.old ≤ F.faults files.new }
    ensures reply { IfOk result (λ answer. WithSchedule
        (MayCome (files_seen F.told F.faults files.old) (files_seen F.told F.faults files.new))
        schedule.now (λ others. IsReplay mode schedule.now text.now others (reply_of answer))) }
{
    let found = simulated_of(alloc, text)?;
    match found {
        Ok(simulated) => replay_on(alloc, mode, &simulated, schedule, files),
        Err(refusal) => refusal_answer(alloc, refusal),
    }
}

// Replays the schedule of a file on a network.
fn replay_on<F: Files>(
    alloc: Global,
    mode: Mode,
    simulated: &Simulated,
    schedule: &str,
    files: &mut F,
) -> Result<Answer, NoMemory>
    ensures kept { F.told files.new ≡ F.told files.old }
    ensures later { F.faults files.old ≤ F.faults files.new }
    ensures reply { IfOk result (λ answer. WithSchedule
        (MayCome (files_seen F.told F.faults files.old) (files_seen F.told F.faults files.new))
        schedule.now
        (λ others. AfterSchedule schedule.now (IsReplayed simulated.now mode) others (reply_of answer))) }
{
    let loaded = load_schedule(alloc, schedule, files)?;
    match loaded {
        Loaded::Found(text) => replay_text(alloc, mode, simulated, text.as_slice()),
        Loaded::Stopped(stop) => schedule_stop_answer(alloc, schedule, stop),
    }
}

// Replays the schedule that a text within the limit spells on a network.
fn replay_text(
    alloc: Global,
    mode: Mode,
    simulated: &Simulated,
    text: &[u8],
) -> Result<Answer, NoMemory>
    requires { length text.now ≤ 4194304 }
    ensures { IfOk result (λ answer. IsReplayed simulated.now mode text.now (reply_of answer)) }
{
    let told = told_of(
        alloc,
        simulated.network(),
        simulated.arguments(),
        mode,
        text,
    )?;
    Ok(Answer {
        status: told.status,
        text: told.text,
    })
}
