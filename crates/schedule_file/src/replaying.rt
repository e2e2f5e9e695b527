ghost use Rattle.std.specs.Prelude.{◌≡◌, ◌≤◌, ◌++◌, length, IfOk};
ghost use Rattle.concrete_net.specs.Sizes.{argument_sizes};
ghost use Rattle.schedule_file.specs.Messages.{refused_schedule, refused_step};
ghost use Rattle.schedule_file.specs.Replaying.{IsRunTold, IsToldOf, status_of};

use crate::messages::{put_refused, put_refused_step};
use crate::reading::read;
use crate::refusal::FileRefusal;
use amdl_tree::NoMemory;
use concrete_net::{Arguments, StepRefusal};
use net_plan::Network;
use net_runs::{Mode, Step};
use schedule::{ReplayRefusal, replay};
use std::alloc::Global;

/// What is told of the text of a schedule.
#[derive(Drop)]
pub struct Told {
    /// 0: the steps are a run without a bad event; 1: they are one with some; 3: the text or a step is refused.
    pub status: u8,
    /// A line on each step and a last one on all; or the refusal of the text; or the lines on the steps before the one
    /// that is refused, and its refusal.
    pub text: Vec<u8>,
}

/// Reads a text of at most 4,194,304 bytes as a schedule of a network, and replays it from the first state on. The
/// arguments are those of the plan of the network. It takes the time of reading and of the steps.
pub fn told_of(
    alloc: Global,
    net: &Network,
    arguments: &Arguments,
    mode: Mode,
    text: &[u8],
) -> Result<Told, NoMemory>
    requires short { length text.now ≤ 4194304 }
    requires arguments { arguments.now ≡ argument_sizes net.now }
    ensures { IfOk result (λ told. IsToldOf net.now mode text.now told.status told.text.items) }
{
    let reading = read(alloc, net, text)?;
    match reading {
        Ok(steps) => replayed(alloc, net, arguments, mode, steps.as_slice()),
        Err(refusal) => refused(alloc, refusal),
    }
}

fn replayed(
    alloc: Global,
    net: &Network,
    arguments: &Arguments,
    mode: Mode,
    steps: &[Step],
) -> Result<Told, NoMemory>
    requires few { length steps.now ≤ 1000000 }
    requires arguments { arguments.now ≡ argument_sizes net.now }
    ensures { IfOk result (λ told. IsRunTold net.now mode steps.now told.status told.text.items) }
{
    let mut text = Vec::new(alloc);
    match replay(alloc, net, arguments, steps, mode, &mut text) {
        Ok(run) => Ok(Told {
            status: run_status(run.bad),
            text,
        }),
        Err(ReplayRefusal::Refused(k, why)) => stopped(k, why, text),
        Err(ReplayRefusal::NoMemory) => Err(NoMemory),
    }
}

// The status of a run with so many bad events.
fn run_status(bad: u32) -> u8
    ensures { result ≡ status_of bad }
{
    match bad {
        0 => 0,
        _ => 1,
    }
}

// Behind the lines on the steps before it step k is refused.
fn stopped(k: u32, why: StepRefusal, lines: Vec<u8>) -> Result<Told, NoMemory>
    ensures { IfOk result (λ told. (told.status ≡ 3) × (told.text.items ≡ lines.items ++ refused_step k why)) }
{
    let mut text = lines;
    put_refused_step(k, why, &mut text)?;
    Ok(Told { status: 3, text })
}

// The text is refused.
fn refused(alloc: Global, refusal: FileRefusal) -> Result<Told, NoMemory>
    ensures { IfOk result (λ told. (told.status ≡ 3) × (told.text.items ≡ refused_schedule refusal)) }
{
    let mut text = Vec::new(alloc);
    put_refused(refusal, &mut text)?;
    Ok(Told { status: 3, text })
}
