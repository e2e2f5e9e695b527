//! The answer of a call before it is put out.
ghost use Rattle.std.specs.Prelude.{◌≡◌, ◌∷◌, [], ℕ, ◌≤◌, OnOk, IfOk, IfNone, length, All};
ghost use Rattle.amdl_app.specs.Reply.{says, refuses, refuses_schedule};
ghost use Rattle.plan_text.specs.Messages.{usage_text, missing_text, fault_load_text};
ghost use Rattle.amdl_app.specs.Answered.{reply_of};

use amdl_tree::NoMemory;
use plan_text::{NetworkRefusal, put_fault_load, put_missing, put_refused, usage};
use schedule_file::FileRefusal;
use std::alloc::Global;

/// A status and a text.
#[derive(Drop)]
pub struct Answer {
    pub status: u8,
    pub text: Vec<u8>,
}

/// The usage, status 2.
pub fn usage_answer(alloc: Global) -> Result<Answer, NoMemory>
    ensures { IfOk result (λ answer. reply_of answer ≡ says 2 usage_text) }
{
    let mut text = Vec::new(alloc);
    usage(&mut text)?;
    Ok(Answer { status: 2, text })
}

/// A refusal of the network text, status 3.
pub fn refusal_answer(alloc: Global, refusal: NetworkRefusal) -> Result<Answer, NoMemory>
    ensures { IfOk result (λ answer. reply_of answer ≡ refuses refusal) }
{
    let mut text = Vec::new(alloc);
    put_refused(refusal, &mut text)?;
    Ok(Answer { status: 3, text })
}

/// A refusal of the text of a schedule, status 3.
pub fn schedule_refusal_answer(alloc: Global, refusal: FileRefusal) -> Result<Answer, NoMemory>
    ensures { IfOk result (λ answer. reply_of answer ≡ refuses_schedule refusal) }
{
    let mut text = Vec::new(alloc);
    schedule_file::put_refused(refusal, &mut text)?;
    Ok(Answer { status: 3, text })
}

/// That there is no file of this name, status 4.
pub fn missing_answer(alloc: Global, name: &str) -> Result<Answer, NoMemory>
    ensures { IfOk result (λ answer. reply_of answer ≡ says 4 (missing_text name.now)) }
{
    let mut text = Vec::new(alloc);
    put_missing(name.as_bytes(), &mut text)?;
    Ok(Answer { status: 4, text })
}

/// That loading the file of this name failed, status 4.
pub fn load_fault_answer(alloc: Global, name: &str) -> Result<Answer, NoMemory>
    ensures { IfOk result (λ answer. reply_of answer ≡ says 4 (fault_load_text name.now)) }
{
    let mut text = Vec::new(alloc);
    put_fault_load(name.as_bytes(), &mut text)?;
    Ok(Answer { status: 4, text })
}
