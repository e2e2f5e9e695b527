//! The one call.
ghost use Rattle.std.specs.Prelude.{◌≡◌, [], ℕ, ◌≤◌, IfOk};
ghost use Rattle.amdl_app.specs.Answer.{IsCommandReply, IsReply};
ghost use Rattle.amdl_app.specs.Answered.{reply_of};
ghost use Rattle.amdl_app.specs.Asked.{asked_for};
ghost use Rattle.amdl_app.specs.Command.{inputs_of, UseNoFile};
ghost use Rattle.amdl_app.specs.Loaded.{MayCome};
ghost use Rattle.amdl_app.specs.Outcome.{IsCall, IsPutOut};
ghost use Rattle.amdl_app.specs.Promises.{spelled, AnswersUpToThree, AnswersUnhindered, UnusedIsQuiet, UsageIsRight};
ghost use Rattle.amdl_app.specs.Promises.{RefusalIsRight, FileFaultIsRight, SinkFaultIsRight, CutsAreFronts, SafeOnly};
ghost use Rattle.amdl_app.specs.Promises.{SafeIf, CountsOnly, CountsIf};
ghost use Rattle.amdl_app.specs.ReplayPromises.{ReplayOnly, ReplayIf};
ghost use Rattle.amdl_app.specs.Seen.{both_seen, files_seen, sink_seen};

use crate::analyse::analyse;
use crate::answer::{Answer, usage_answer};
use crate::checking::check_file;
use crate::command::{Command, command_of};
use crate::formatting::format;
use crate::laws::answer_is_unique;
use crate::output::put_text;
use crate::replaying::replay_files;
use amdl_tree::NoMemory;
use network_file::one_reading;
use outside::{Files, Sink, SinkFault};
use packet_state::laws::safe_network_runs_safely;
use plan_text::laws::{messages_are_not_safe, safe_is_told};
use schedule_file::laws::status_is_right;
use std::alloc::Global;
use tree_rules::one_answer;

/// Does all that the program does for the words after its name, and answers its exit status.
///
/// Status 0: SAFE, replayed without a bad event, or done; 1: ALARM, or replayed with a bad event; 2: the words are no
/// row of the table; 3: a text that was loaded is refused, or a step of a schedule; 4: a file is missing or loading it
/// failed; 5: putting the text out failed; 6: want of memory. With the statuses 0 to 4 the whole text was appended to
/// the sink, with 5 and 6 a front of it. It takes time linear in the text of the network; each verb but `format` also
/// takes what checking its tree takes, `analyse` what finding the derivable facts takes, and a replay the time of its
/// steps.
pub fn run<F: Files, S: Sink>(alloc: Global, words: &[String], files: &mut F, out: &mut S) -> u8
    ensures status { result ≤ 6 }

    // What stays: the files as they were, and no count falls.
    ensures files_kept { F.told files.new ≡ F.told files.old }
    ensures files_later { F.faults files.old ≤ F.faults files.new }
    ensures sink_later { S.faults out.old ≤ S.faults out.new }
    ensures quiet { UnusedIsQuiet (spelled words.now)
        (both_seen (files_seen F.told F.faults files.old) (sink_seen S.written S.faults out.old))
        (both_seen (files_seen F.told F.faults files.new) (sink_seen S.written S.faults out.new)) }

    // What the call came to, also where files and sink tell nothing: one reply, and how it was put out.
    ensures call { IsCall (spelled words.now)
        (both_seen (files_seen F.told F.faults files.old) (sink_seen S.written S.faults out.old))
        (both_seen (files_seen F.told F.faults files.new) (sink_seen S.written S.faults out.new)) result }

    // Where the files are told, the answer.
    ensures answers { AnswersUpToThree (spelled words.now)
        (both_seen (files_seen F.told F.faults files.old) (sink_seen S.written S.faults out.old))
        (both_seen (files_seen F.told F.faults files.new) (sink_seen S.written S.faults out.new)) result }
    ensures unhindered { AnswersUnhindered (spelled words.now)
        (both_seen (files_seen F.told F.faults files.old) (sink_seen S.written S.faults out.old))
        (both_seen (files_seen F.told F.faults files.new) (sink_seen S.written S.faults out.new)) result }

    // The cause of each other status.
    ensures usage { UsageIsRight (spelled words.now)
        (both_seen (files_seen F.told F.faults files.old) (sink_seen S.written S.faults out.old))
        (both_seen (files_seen F.told F.faults files.new) (sink_seen S.written S.faults out.new)) result }
    ensures refusal { RefusalIsRight (spelled words.now)
        (both_seen (files_seen F.told F.faults files.old) (sink_seen S.written S.faults out.old)) result }
    ensures file_fault { FileFaultIsRight (spelled words.now)
        (both_seen (files_seen F.told F.faults files.old) (sink_seen S.written S.faults out.old))
        (both_seen (files_seen F.told F.faults files.new) (sink_seen S.written S.faults out.new)) result }
    ensures sink_fault { SinkFaultIsRight
        (both_seen (files_seen F.told F.faults files.old) (sink_seen S.written S.faults out.old))
        (both_seen (files_seen F.told F.faults files.new) (sink_seen S.written S.faults out.new)) result }
    ensures cut { CutsAreFronts (spelled words.now)
        (both_seen (files_seen F.told F.faults files.old) (sink_seen S.written S.faults out.old))
        (both_seen (files_seen F.told F.faults files.new) (sink_seen S.written S.faults out.new)) result }

    // What SAFE and ALARM say.
    ensures safe_only { SafeOnly (spelled words.now)
        (both_seen (files_seen F.told F.faults files.old) (sink_seen S.written S.faults out.old))
        (both_seen (files_seen F.told F.faults files.new) (sink_seen S.written S.faults out.new)) result }
    ensures safe_if { SafeIf (spelled words.now)
        (both_seen (files_seen F.told F.faults files.old) (sink_seen S.written S.faults out.old))
        (both_seen (files_seen F.told F.faults files.new) (sink_seen S.written S.faults out.new)) result }

    // What the counts of a network say.
    ensures counts_only { CountsOnly (spelled words.now)
        (both_seen (files_seen F.told F.faults files.old) (sink_seen S.written S.faults out.old))
        (both_seen (files_seen F.told F.faults files.new) (sink_seen S.written S.faults out.new)) result }
    ensures counts_if { CountsIf (spelled words.now)
        (both_seen (files_seen F.told F.faults files.old) (sink_seen S.written S.faults out.old))
        (both_seen (files_seen F.told F.faults files.new) (sink_seen S.written S.faults out.new)) result }

    // What a replay says.
    ensures replay_only { ReplayOnly (spelled words.now)
        (both_seen (files_seen F.told F.faults files.old) (sink_seen S.written S.faults out.old))
        (both_seen (files_seen F.told F.faults files.new) (sink_seen S.written S.faults out.new)) result }
    ensures replay_if { ReplayIf (spelled words.now)
        (both_seen (files_seen F.told F.faults files.old) (sink_seen S.written S.faults out.old))
        (both_seen (files_seen F.told F.faults files.new) (sink_seen S.written S.faults out.new)) result }
{
    answer_is_unique();
    one_reading();
    one_answer();
    safe_is_told();
    messages_are_not_safe();
    safe_network_runs_safely();
    status_is_right();
    perform(alloc, words, files, out)
}

// Finds the answer and puts it out.
fn perform<F: Files, S: Sink>(alloc: Global, words: &[String], files: &mut F, out: &mut S) -> u8
    ensures files_kept { F.told files.new ≡ F.told files.old }
    ensures files_later { F.faults files.old ≤ F.faults files.new }
    ensures sink_later { S.faults out.old ≤ S.faults out.new }
    ensures quiet { UseNoFile (spelled words.now) → F.faults files.new ≡ F.faults files.old }
    ensures call { IsCall (spelled words.now)
        (both_seen (files_seen F.told F.faults files.old) (sink_seen S.written S.faults out.old))
        (both_seen (files_seen F.told F.faults files.new) (sink_seen S.written S.faults out.new)) result }
{
    match answer_to(alloc, words, files) {
        Ok(answer) => put_answer(alloc, &answer, out),
        Err(NoMemory) => 6,
    }
}

// What the words and the files come to.
fn answer_to<F: Files>(alloc: Global, words: &[String], files: &mut F) -> Result<Answer, NoMemory>
    ensures kept { F.told files.new ≡ F.told files.old }
    ensures later { F.faults files.old ≤ F.faults files.new }
    ensures quiet { UseNoFile (spelled words.now) → F.faults files.new ≡ F.faults files.old }
    ensures reply { IfOk result (λ answer. IsReply
        (MayCome (files_seen F.told F.faults files.old) (files_seen F.told F.faults files.new))
        (spelled words.now) (reply_of answer)) }
{
    match command_of(words) {
        Some(command) => reply_to(alloc, command, files),
        None => usage_answer(alloc),
    }
}

// What a command comes to, one case a verb.
fn reply_to<F: Files>(
    alloc: Global,
    command: Command<'_>,
    files: &mut F,
) -> Result<Answer, NoMemory>
    ensures kept { F.told files.new ≡ F.told files.old }
    ensures later { F.faults files.old ≤ F.faults files.new }
    ensures quiet { inputs_of (asked_for command.entry) ≡ [] → F.faults files.new ≡ F.faults files.old }
    ensures reply { IfOk result (λ answer. IsCommandReply
        (MayCome (files_seen F.told F.faults files.old) (files_seen F.told F.faults files.new))
        (asked_for command.entry) (reply_of answer)) }
{
    match command {
        Command::Analyse(network) => analyse(alloc, network, files),
        Command::Check(network) => check_file(alloc, network, files),
        Command::Format(network) => format(alloc, network, files),
        Command::Replay(mode, network, schedule) => {
            replay_files(alloc, mode, network, schedule, files)
        }
    }
}

// Puts an answer out, and answers its status where that succeeds.
fn put_answer<S: Sink>(alloc: Global, answer: &Answer, out: &mut S) -> u8
    ensures later { S.faults out.old ≤ S.faults out.new }
    ensures put_out { IsPutOut (reply_of answer.now)
        (sink_seen S.written S.faults out.old) (sink_seen S.written S.faults out.new) result }
{
    match put_text(alloc, answer.text.as_slice(), out) {
        Ok(()) => answer.status,
        Err(SinkFault::Failed) => 5,
        Err(SinkFault::NoMemory) => 6,
    }
}
