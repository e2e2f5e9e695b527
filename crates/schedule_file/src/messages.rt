ghost use Rattle.std.specs.Prelude.{◌≡◌, ◌++◌, codes, decimal, OnOk, OnErr};
ghost use Rattle.amdl_tree.specs.Appends.{AppendsPart};
ghost use Rattle.amdl_tree.specs.Layout.{line};
ghost use Rattle.concrete_net.specs.declared.refusal.StepRefusal.{StepRefusal};
ghost use Rattle.schedule_file.specs.Messages.{refused_schedule, refused_step};

use crate::refusal::FileRefusal;
use amdl_tree::{NoMemory, put_all};
use concrete_net::StepRefusal;
use plan_text::Digits;

/// Appends the refusal of the text of a schedule.
pub fn put_refused(refusal: FileRefusal, out: &mut Vec<u8>) -> Result<(), NoMemory>
    ensures ok { OnOk result (out.new.items ≡ out.old.items ++ refused_schedule refusal) }
    ensures err { OnErr result (AppendsPart out.old.items out.new.items (refused_schedule refusal)) }
{
    match refusal {
        FileRefusal::TooLong => put_reason(b"TooLong", out),
        FileRefusal::BadByte(at) => put_placed(b"byte ", at, b" BadByte", out),
        FileRefusal::WordTooLong(at) => put_placed(b"byte ", at, b" WordTooLong", out),
        FileRefusal::TooManyTokens => put_reason(b"TooManyTokens", out),
        FileRefusal::Syntax(at) => put_placed(b"token ", at, b" Syntax", out),
        FileRefusal::UnknownName(step) => put_placed(b"step ", step, b" UnknownName", out),
        FileRefusal::OutOfRange(step) => put_placed(b"step ", step, b" OutOfRange", out),
    }
}

/// Appends that the step of this number isn't made, and why.
pub fn put_refused_step(step: u32, why: StepRefusal, out: &mut Vec<u8>) -> Result<(), NoMemory>
    ensures ok { OnOk result (out.new.items ≡ out.old.items ++ refused_step step why) }
    ensures err { OnErr result (AppendsPart out.old.items out.new.items (refused_step step why)) }
{
    match why {
        StepRefusal::NoSuch => put_placed(b"step ", step, b" NoSuch", out),
        StepRefusal::NotSent => put_placed(b"step ", step, b" NotSent", out),
        StepRefusal::NoCopy => put_placed(b"step ", step, b" NoCopy", out),
        StepRefusal::NotHead => put_placed(b"step ", step, b" NotHead", out),
        StepRefusal::BadChoice(choice) => put_bad_choice(step, choice, out),
        StepRefusal::NoMemory => put_placed(b"step ", step, b" NoMemory", out),
    }
}

// Appends a refusal for this reason.
fn put_reason(reason: &[u8], out: &mut Vec<u8>) -> Result<(), NoMemory>
    ensures ok { OnOk result (out.new.items ≡ out.old.items ++ line (codes "refused schedule " ++ reason.now)) }
    ensures err { OnErr result
        (AppendsPart out.old.items out.new.items (line (codes "refused schedule " ++ reason.now))) }
{
    put_all(out, &[b"refused schedule ", reason, b"\n"])
}

// Appends a refusal for a fault at a place, with what stands before the place and behind it.
fn put_placed(before: &[u8], at: u32, fault: &[u8], out: &mut Vec<u8>) -> Result<(), NoMemory>
    ensures ok { OnOk result (out.new.items
        ≡ out.old.items ++ line (codes "refused schedule " ++ (before.now ++ decimal at ++ fault.now))) }
    ensures err { OnErr result (AppendsPart out.old.items out.new.items
        (line (codes "refused schedule " ++ (before.now ++ decimal at ++ fault.now)))) }
{
    let place = Digits::of(at as u64);
    put_all(
        out,
        &[b"refused schedule ", before, place.bytes(), fault, b"\n"],
    )
}

// Appends that the choice of this number isn't made in a step.
fn put_bad_choice(step: u32, choice: usize, out: &mut Vec<u8>) -> Result<(), NoMemory>
    ensures ok { OnOk result (out.new.items ≡ out.old.items ++ refused_step step (StepRefusal.BadChoice choice)) }
    ensures err { OnErr result
        (AppendsPart out.old.items out.new.items (refused_step step (StepRefusal.BadChoice choice))) }
{
    let place = Digits::of(step as u64);
    let number = Digits::of(choice as u64);
    put_all(
        out,
        &[
            b"refused schedule ",
            b"step ",
            place.bytes(),
            b" BadChoice ",
            number.bytes(),
            b"\n",
        ],
    )
}
