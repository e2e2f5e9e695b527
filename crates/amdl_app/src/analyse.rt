//! The verb `analyse`.
ghost use Rattle.std.specs.Prelude.{◌≡◌, ◌≤◌, length, IfOk};
ghost use Rattle.amdl_app.specs.Answer.{IsCommandReply};
ghost use Rattle.amdl_app.specs.Answered.{reply_of};
ghost use Rattle.amdl_app.specs.Command.{Analyse};
ghost use Rattle.amdl_app.specs.Loaded.{MayCome};
ghost use Rattle.amdl_app.specs.Report.{IsAnalysis, IsReport, verdict_of};
ghost use Rattle.amdl_app.specs.Seen.{files_seen};

use crate::answer::{Answer, refusal_answer};
use crate::load::{Loaded, load_network, stop_answer};
use crate::spelling::network_of;
use amdl_tree::NoMemory;
use derived_facts::derived_findings;
use net_plan::Network;
use outside::Files;
use plan_text::laws::findings_are_reported;
use plan_text::{Findings, put_report};
use std::alloc::Global;

/// Loads the file of a network and analyses it.
pub fn analyse<F: Files>(alloc: Global, network: &str, files: &mut F) -> Result<Answer, NoMemory>
    ensures kept { F.told files.new ≡ F.told files.old }
    ensures later { F.faults files.old ≤ F.faults files.new }
    ensures reply { IfOk result (λ answer. IsCommandReply
        (MayCome (files_seen F.told F.faults files.old) (files_seen F.told F.faults files.new))
        (Analyse network.now) (reply_of answer)) }
{
    let loaded = load_network(alloc, network, files)?;
    match loaded {
        Loaded::Found(text) => analyse_text(alloc, text.as_slice()),
        Loaded::Stopped(stop) => stop_answer(alloc, network, stop),
    }
}

// Analyses the network that a text within the limit spells.
fn analyse_text(alloc: Global, text: &[u8]) -> Result<Answer, NoMemory>
    requires { length text.now ≤ 4194304 }
    ensures { IfOk result (λ answer. IsAnalysis text.now (reply_of answer)) }
{
    let found = network_of(alloc, text)?;
    match found {
        Ok(network) => analyse_network(alloc, &network),
        Err(refusal) => refusal_answer(alloc, refusal),
    }
}

// Analyses a network: status 0 where no derivable fact is bad, and else 1.
fn analyse_network(alloc: Global, network: &Network) -> Result<Answer, NoMemory>
    ensures { IfOk result (λ answer. IsReport network.now (reply_of answer)) }
{
    findings_are_reported();
    let findings = derived_findings(alloc, network)?;
    let mut text = Vec::new(alloc);
    put_report(network, &findings, &mut text)?;
    Ok(Answer {
        status: verdict(&findings),
        text,
    })
}

// The status of a report of these findings.
fn verdict(findings: &Findings) -> u8
    ensures { result ≡ verdict_of findings.now.bad }
{
    if findings.bad == 0 { 0 } else { 1 }
}
