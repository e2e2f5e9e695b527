//! Runs of whole handlers.
ghost use Rattle.std.specs.Prelude.{◌≡◌, ℕ, ◌<◌, ◌≤◌, ◌-◌, ◌⊎◌, length, map, IfOk, MatchResult};
ghost use Rattle.std.specs.List.{range_with_len};
ghost use Rattle.header_set.specs.Headers.{product, field_of};
ghost use Rattle.box_handlers.specs.Body.{body_of};
ghost use Rattle.box_executions.specs.Environment.{fields_of};
ghost use Rattle.box_executions.specs.Execution.{Outcome, Executes};
ghost use Rattle.handler_runs.specs.Code.{standing, course_is};
ghost use Rattle.handler_runs.specs.Reading.{scene_of};
ghost use Rattle.handler_runs.specs.Run.{run};
ghost use Rattle.handler_runs.specs.Executing.{environment, IsExecutable, outcome_of, IsFirstBad, IsRefused, start};
ghost use Rattle.handler_runs.specs.Executing.{answer_at_end, IsBadEnd};

use crate::acts::block_runs;
use crate::progress::{Course, Emission, Progress};
use crate::setting::Setting;
use amdl_tree::{List, NoMemory};
use box_contents::{Contents, held_is_member, with_keeps_rising, without_keeps_rising};
use box_handlers::Act;
use header_set::Headers;
use header_set::laws::{fields_are_below_sizes, fields_are_free, fields_determine_packet};
use std::alloc::Global;

/// How an execution ends.
#[derive(Debug, Drop)]
pub enum Ending {
    /// The contents that it leaves, and what it puts out, in order.
    Done {
        contents: Contents,
        outputs: List<Emission>,
    },
    /// It aborted.
    Aborted,
}

/// Why choices come to no execution.
#[derive(Clone, Copy, PartialEq, Eq, Debug)]
pub enum ExecuteRefusal {
    /// The choice of this number is the first that no execution makes, counted from 0; or there are only so many
    /// choices, and an execution that begins with them wants more.
    BadChoice(usize),
    /// There is no memory for it.
    NoMemory,
}

/// Executes a handler on a packet and the contents of a box, by choices that are used in their order.
///
/// A choice among branches of which one has a true guard uses the number of such a branch, a pick the number of a
/// value, and nothing else uses any. The contents stay as they are. It takes time linear in the statements that run,
/// each with a search of the contents, and a copy of the contents, of the packet's fields and of each pick's values.
pub fn execute(
    alloc: Global,
    headers: &Headers,
    relations: &[List<u32>],
    handler: &[Act],
    contents: &Contents,
    packet: u32,
    choices: &[u32],
) -> Result<Ending, ExecuteRefusal>
    requires { IsExecutable (environment headers.now relations.now packet) handler.now contents.now }
    ensures answer { MatchResult result
        (λ ending. Executes (environment headers.now relations.now packet) handler.now contents.now choices.now
        (outcome_of ending))
        (IsRefused (environment headers.now relations.now packet) handler.now contents.now choices.now) }
    ensures executes { (outcome : Outcome) →
        Executes (environment headers.now relations.now packet) handler.now contents.now choices.now outcome →
        MatchResult result (λ ending. outcome_of ending ≡ outcome)
        (λ refusal. refusal ≡ ExecuteRefusal.NoMemory) }
    ensures bad_choice { (k : ℕ) →
        IsFirstBad (environment headers.now relations.now packet) handler.now contents.now choices.now k →
        MatchResult result (λ _. ⊥)
        (λ refusal. (refusal ≡ ExecuteRefusal.BadChoice k) ⊎ (refusal ≡ ExecuteRefusal.NoMemory)) }
{
    fields_determine_packet();
    executed(
        alloc, headers, relations, handler, contents, packet, choices,
    )
}

fn executed(
    alloc: Global,
    headers: &Headers,
    relations: &[List<u32>],
    handler: &[Act],
    contents: &Contents,
    packet: u32,
    choices: &[u32],
) -> Result<Ending, ExecuteRefusal>
    requires { IsExecutable (environment headers.now relations.now packet) handler.now contents.now }
    ensures { MatchResult result
        (λ ending. Executes (environment headers.now relations.now packet) handler.now contents.now choices.now
        (outcome_of ending))
        (IsRefused (environment headers.now relations.now packet) handler.now contents.now choices.now) }
{
    fields_are_below_sizes();
    fields_determine_packet();
    fields_are_free();
    held_is_member();
    with_keeps_rising();
    without_keeps_rising();
    match whole_run(
        alloc, headers, relations, handler, contents, packet, choices,
    ) {
        Ok(end) => ending_of(end, choices.len()),
        Err(_) => Err(ExecuteRefusal::NoMemory),
    }
}

/// A run that came to its end.
#[derive(Drop)]
struct RunEnd<'a> {
    course: Course,
    progress: Progress<'a>,
}

fn whole_run<'a>(
    alloc: Global,
    headers: &Headers,
    relations: &[List<u32>],
    handler: &[Act],
    contents: &Contents,
    packet: u32,
    choices: &'a [u32],
) -> Result<RunEnd<'a>, NoMemory>
    requires { packet < product headers.now }
    ensures { IfOk result (λ end.
        run (body_of handler.now) (scene_of (environment headers.now relations.now packet))
        (start contents.now choices.now)
        ≡ course_is end.course (standing end.progress)) }
{
    let sizes = sizes_of(alloc, headers)?;
    let fields = fields_of(alloc, headers, packet)?;
    let setting = Setting {
        sizes: sizes.as_slice(),
        relations,
        fields: fields.as_slice(),
    };
    let mut progress = Progress {
        contents: contents.copy()?,
        outputs: List::new(alloc),
        left: choices,
    };
    let course = block_runs(alloc, &setting, &[], handler, &mut progress)?;
    Ok(RunEnd { course, progress })
}

// The ending of a run that used all of so many choices.
fn ending_of(end: RunEnd<'_>, many: usize) -> Result<Ending, ExecuteRefusal>
    requires { length end.progress.left.now ≤ many }
    ensures { MatchResult result
        (λ ending. course_is end.entry.course (standing end.entry.progress) ≡ answer_at_end (outcome_of ending))
        (λ refusal. (refusal ≡ ExecuteRefusal.BadChoice (many - length end.entry.progress.left.now))
        × IsBadEnd (course_is end.entry.course (standing end.entry.progress))) }
{
    let RunEnd { course, progress } = end;
    let used = many - progress.left.len();
    if !progress.left.is_empty() {
        return Err(ExecuteRefusal::BadChoice(used));
    }
    match course {
        Course::Goes => Ok(Ending::Done {
            contents: progress.contents,
            outputs: progress.outputs,
        }),
        Course::Aborts => Ok(Ending::Aborted),
        Course::Stuck => Err(ExecuteRefusal::BadChoice(used)),
    }
}

// How many values each field has.
fn sizes_of(alloc: Global, headers: &Headers) -> Result<List<u32>, NoMemory>
    ensures { IfOk result (λ sizes. sizes ≡ headers.now) }
{
    let mut sizes = List::new(alloc);
    for k in 0..headers.fields() {
        sizes.push(headers.size(k))?;
    }
    Ok(sizes)
}

// The values of the fields of a packet.
fn fields_of(alloc: Global, headers: &Headers, packet: u32) -> Result<List<u32>, NoMemory>
    requires { packet < product headers.now }
    ensures { IfOk result (λ fields. fields ≡ fields_of headers.now packet) }
{
    let mut fields = List::new(alloc);
    for k in 0..headers.fields() {
        fields.push(headers.field(packet, k))?;
    }
    Ok(fields)
}
