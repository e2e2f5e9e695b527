//! Loading the texts of a network and of a schedule.
ghost use Rattle.std.specs.Prelude.{◌≡◌, ◌≤◌, ◌∷◌, [], IfOk};
ghost use Rattle.amdl_app.specs.Answer.{AfterNetwork};
ghost use Rattle.amdl_app.specs.Answered.{reply_of};
ghost use Rattle.amdl_app.specs.Asked.{came_to, stopped_by};
ghost use Rattle.amdl_app.specs.Command.{network_input, schedule_input, text_input};
ghost use Rattle.amdl_app.specs.Loaded.{MayCome};
ghost use Rattle.amdl_app.specs.Replaying.{AfterSchedule};
ghost use Rattle.amdl_app.specs.Seen.{files_seen};

use crate::answer::{
    Answer, load_fault_answer, missing_answer, refusal_answer, schedule_refusal_answer,
};
use amdl_tree::NoMemory;
use outside::{Files, LoadFault};
use plan_text::NetworkRefusal;
use schedule_file::FileRefusal;
use std::alloc::Global;

/// The most bytes of the text of a network or of a schedule.
const TEXT_LIMIT: usize = 4_194_304;

/// Why there is no text to read.
#[derive(Clone, Copy)]
pub enum Stop {
    /// The file is longer than its text may be.
    TooLong,
    /// There is no such file.
    Missing,
    /// The outside failed.
    Failed,
}

/// What loading a text came to.
#[derive(Drop)]
pub enum Loaded {
    /// The whole text.
    Found(Vec<u8>),
    /// There is none to read.
    Stopped(Stop),
}

/// Loads the text of a network.
pub fn load_network<F: Files>(alloc: Global, name: &str, files: &mut F) -> Result<Loaded, NoMemory>
    ensures kept { F.told files.new ≡ F.told files.old }
    ensures later { F.faults files.old ≤ F.faults files.new }
    ensures came { IfOk result (λ loaded.
        MayCome (files_seen F.told F.faults files.old) (files_seen F.told F.faults files.new)
        (network_input name.now) (came_to loaded)) }
{
    load_text(alloc, name, files)
}

/// Loads the text of a schedule.
pub fn load_schedule<F: Files>(alloc: Global, name: &str, files: &mut F) -> Result<Loaded, NoMemory>
    ensures kept { F.told files.new ≡ F.told files.old }
    ensures later { F.faults files.old ≤ F.faults files.new }
    ensures came { IfOk result (λ loaded.
        MayCome (files_seen F.told F.faults files.old) (files_seen F.told F.faults files.new)
        (schedule_input name.now) (came_to loaded)) }
{
    load_text(alloc, name, files)
}

// Loads a text.
fn load_text<F: Files>(alloc: Global, name: &str, files: &mut F) -> Result<Loaded, NoMemory>
    ensures kept { F.told files.new ≡ F.told files.old }
    ensures later { F.faults files.old ≤ F.faults files.new }
    ensures came { IfOk result (λ loaded.
        MayCome (files_seen F.told F.faults files.old) (files_seen F.told F.faults files.new)
        (text_input name.now) (came_to loaded)) }
{
    let mut text = Vec::new(alloc);
    match files.load(alloc, name, TEXT_LIMIT, &mut text) {
        Ok(()) => Ok(Loaded::Found(text)),
        Err(LoadFault::TooLong) => Ok(Loaded::Stopped(Stop::TooLong)),
        Err(LoadFault::Missing) => Ok(Loaded::Stopped(Stop::Missing)),
        Err(LoadFault::Failed) => Ok(Loaded::Stopped(Stop::Failed)),
        Err(LoadFault::NoMemory) => Err(NoMemory),
    }
}

/// The answer where the file of this name gave no text of a network.
pub fn stop_answer(alloc: Global, name: &str, stop: Stop) -> Result<Answer, NoMemory>
    ensures { IfOk result (λ answer.
        AfterNetwork name.now (λ text others reply. ⊥) (stopped_by stop ∷ []) (reply_of answer)) }
{
    match stop {
        Stop::TooLong => refusal_answer(alloc, NetworkRefusal::TooLong),
        Stop::Missing => missing_answer(alloc, name),
        Stop::Failed => load_fault_answer(alloc, name),
    }
}

/// The answer where the file of this name gave no text of a schedule.
pub fn schedule_stop_answer(alloc: Global, name: &str, stop: Stop) -> Result<Answer, NoMemory>
    ensures { IfOk result (λ answer.
        AfterSchedule name.now (λ text reply. ⊥) (stopped_by stop ∷ []) (reply_of answer)) }
{
    match stop {
        Stop::TooLong => schedule_refusal_answer(alloc, FileRefusal::TooLong),
        Stop::Missing => missing_answer(alloc, name),
        Stop::Failed => load_fault_answer(alloc, name),
    }
}
