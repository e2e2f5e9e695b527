ghost use Rattle.std.specs.Prelude.{◌≡◌, ◌<◌, ◌++◌, All, length, OnOk, OnErr};
ghost use Rattle.std.specs.List.{flat_map};
ghost use Rattle.net_plan.specs.Plan.{boxes_of, box_at};
ghost use Rattle.net_plan.specs.Ends.{ends_of};
ghost use Rattle.plan_text.specs.Text.{text_of_end};
ghost use Rattle.net_runs.specs.declared.world.Step.{Step};
ghost use Rattle.schedule_text.specs.Fronts.{KeepsFronts};
ghost use Rattle.schedule_text.specs.Written.{IsWritable, further_text, text_of_choices, text_behind_end, line_of_step};
ghost use Rattle.schedule_text.specs.Written.{text_of_steps};

use amdl_tree::NoMemory;
use net_plan::Network;
use net_runs::Step;
use plan_text::Digits;

/// Appends the text of steps of a network, one step per line, with names for numbers. Linear in the bytes of the text.
///
/// What `out` held stays. Want of memory is the one refusal, and then nothing is appended.
pub fn write_schedule(net: &Network, steps: &[Step], out: &mut Vec<u8>) -> Result<(), NoMemory>
    requires { All (IsWritable net.now) steps.now }
    ensures ok { OnOk result (out.new.items ≡ out.old.items ++ text_of_steps net.now steps.now) }
    ensures err { OnErr result (out.new.items ≡ out.old.items) }
{
    let start = out.len();
    match put_steps(net, steps, out) {
        Ok(()) => Ok(()),
        Err(NoMemory) => {
            // What was appended is taken back.
            out.truncate(start);
            Err(NoMemory)
        }
    }
}

fn put_steps(net: &Network, steps: &[Step], out: &mut Vec<u8>) -> Result<(), NoMemory>
    requires { All (IsWritable net.now) steps.now }
    ensures ok { OnOk result (out.new.items ≡ out.old.items ++ text_of_steps net.now steps.now) }
    ensures kept { KeepsFronts out.old.items out.new.items }
{
    for step in steps {
        put_step(net, step, out)?;
    }
    Ok(())
}

fn put_step(net: &Network, step: &Step, out: &mut Vec<u8>) -> Result<(), NoMemory>
    requires { IsWritable net.now step.now }
    ensures ok { OnOk result (out.new.items ≡ out.old.items ++ line_of_step net.now step.now) }
    ensures kept { KeepsFronts out.old.items out.new.items }
{
    match step {
        Step::Send(host, packet) => put_send(net, *host, *packet, out),
        Step::Deliver(end, packet, choices) => put_delivery(
            net,
            *end,
            *packet,
            choices.as_slice(),
            out,
        ),
        Step::Revert(number) => put_revert(net, *number, out),
    }
}

fn put_send(net: &Network, host: u32, packet: u32, out: &mut Vec<u8>) -> Result<(), NoMemory>
    requires { host < length net.now.hosts }
    ensures ok { OnOk result (out.new.items ≡ out.old.items ++ line_of_step net.now (Step.Send host packet)) }
    ensures kept { KeepsFronts out.old.items out.new.items }
{
    let name = net.host_name(host);
    let digits = Digits::of(packet as u64);
    put(out, &[b"send ", name.bytes(), b" ", digits.bytes(), b";\n"])
}

fn put_delivery(
    net: &Network,
    end: u32,
    packet: u32,
    choices: &[u32],
    out: &mut Vec<u8>,
) -> Result<(), NoMemory>
    requires { end < ends_of net.now }
    ensures ok { OnOk result
        (out.new.items ≡ out.old.items ++ line_of_step net.now (Step.Deliver end packet choices.now)) }
    ensures kept { KeepsFronts out.old.items out.new.items }
{
    put(out, &[b"deliver "])?;
    put_end(net, end, out)?;
    put_behind_end(packet, choices, out)
}

fn put_revert(net: &Network, number: u32, out: &mut Vec<u8>) -> Result<(), NoMemory>
    requires { number < boxes_of net.now }
    ensures ok { OnOk result (out.new.items ≡ out.old.items ++ line_of_step net.now (Step.Revert number)) }
    ensures kept { KeepsFronts out.old.items out.new.items }
{
    let name = net.box_name(number);
    put(out, &[b"revert ", name.bytes(), b";\n"])
}

#[tactic(auto, using(crate::proofs::FrontLemmas::front_of_either))]
fn put_end(net: &Network, end: u32, out: &mut Vec<u8>) -> Result<(), NoMemory>
    requires { end < ends_of net.now }
    ensures ok { OnOk result (out.new.items ≡ out.old.items ++ text_of_end net.now end) }
    ensures kept { KeepsFronts out.old.items out.new.items }
{
    plan_text::put_end(net, end, out)
}

fn put_behind_end(packet: u32, choices: &[u32], out: &mut Vec<u8>) -> Result<(), NoMemory>
    ensures ok { OnOk result (out.new.items ≡ out.old.items ++ text_behind_end packet choices.now) }
    ensures kept { KeepsFronts out.old.items out.new.items }
{
    let digits = Digits::of(packet as u64);
    put(out, &[b" ", digits.bytes()])?;
    put_choices(choices, out)?;
    put(out, &[b";\n"])
}

fn put_choices(choices: &[u32], out: &mut Vec<u8>) -> Result<(), NoMemory>
    ensures ok { OnOk result (out.new.items ≡ out.old.items ++ text_of_choices choices.now) }
    ensures kept { KeepsFronts out.old.items out.new.items }
{
    let [first, others @ ..] = choices else {
        return Ok(());
    };
    let digits = Digits::of(*first as u64);
    put(out, &[b" [", digits.bytes()])?;
    put_further(others, out)?;
    put(out, &[b"]"])
}

fn put_further(choices: &[u32], out: &mut Vec<u8>) -> Result<(), NoMemory>
    ensures ok { OnOk result (out.new.items ≡ out.old.items ++ flat_map further_text choices.now) }
    ensures kept { KeepsFronts out.old.items out.new.items }
{
    for choice in choices {
        put_one_more(*choice, out)?;
    }
    Ok(())
}

fn put_one_more(choice: u32, out: &mut Vec<u8>) -> Result<(), NoMemory>
    ensures ok { OnOk result (out.new.items ≡ out.old.items ++ further_text choice) }
    ensures kept { KeepsFronts out.old.items out.new.items }
{
    let digits = Digits::of(choice as u64);
    put(out, &[b", ", digits.bytes()])
}

// The pieces in turn.
fn put(out: &mut Vec<u8>, pieces: &[&[u8]]) -> Result<(), NoMemory>
    ensures ok { OnOk result (out.new.items ≡ out.old.items ++ flat_map (λ piece. piece.now) pieces.now) }
    ensures kept { KeepsFronts out.old.items out.new.items }
{
    amdl_tree::put_all(out, pieces)
}
