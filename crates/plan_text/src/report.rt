ghost use Rattle.std.specs.Prelude.{◌≡◌, ◌++◌, ℕ, ◌<◌, All, OnOk, OnErr, length};
ghost use Rattle.std.specs.List.{flat_map};
ghost use Rattle.amdl_tree.specs.Layout.{line};
ghost use Rattle.net_plan.specs.Plan.{packets_of, boxes_of};
ghost use Rattle.net_plan.specs.Ends.{ends_of, IsEndAt};
ghost use Rattle.amdl_tree.specs.Appends.{AppendsPart};
ghost use Rattle.plan_text.specs.Text.{bad_line, delivery_line, delivery_start, deliver_line, abort_start, abort_line};
ghost use Rattle.plan_text.specs.Text.{host_across, more_text, IsToHost, HasLine};
ghost use Rattle.plan_text.specs.Found.{report_by, verdict_by};

use crate::digits::Digits;
use crate::findings::Findings;
use crate::lines::{put_end, put_facts_line, put_network_line, put_packet};
use amdl_tree::{NoMemory, put_all};
use net_plan::laws::{host_ends, partner_is_unique};
use net_plan::{Fact, Network, Place};

/// The most bad facts that a report lists.
const MOST_LISTED: usize = 1000;

/// Appends the report of a network of which an analysis found this. It takes time in the fields for each bad fact that
/// is listed.
pub fn put_report(network: &Network, findings: &Findings, out: &mut Vec<u8>) -> Result<(), NoMemory>
    requires { All (HasLine network.now) findings.now.listed }
    ensures ok { OnOk result (out.new.items ≡ out.old.items ++ report_by network.now findings.now) }
    ensures err { OnErr result (AppendsPart out.old.items out.new.items (report_by network.now findings.now)) }
{
    put_network_line(network, out)?;
    put_all(out, &[b"\n"])?;
    put_facts_line(findings.outs, findings.states, findings.aborts, out)?;
    put_all(out, &[b"\n"])?;
    put_verdict(network, findings, out)
}

// Appends the verdict of findings.
fn put_verdict(network: &Network, findings: &Findings, out: &mut Vec<u8>) -> Result<(), NoMemory>
    requires { All (HasLine network.now) findings.now.listed }
    ensures ok { OnOk result
        (out.new.items ≡ out.old.items ++ verdict_by network.now findings.now.bad findings.now.listed) }
    ensures err { OnErr result
        (AppendsPart out.old.items out.new.items (verdict_by network.now findings.now.bad findings.now.listed)) }
{
    if findings.bad == 0 {
        return put_all(out, &[b"SAFE\n"]);
    }
    let count = Digits::of(findings.bad as u64);
    put_all(out, &[b"ALARM ", count.bytes(), b"\n"])?;
    put_bad_lines(network, findings.listed.as_slice(), out)?;
    put_more(findings.bad as usize, out)
}

// Appends a line for each of the facts.
fn put_bad_lines(network: &Network, bad: &[Fact], out: &mut Vec<u8>) -> Result<(), NoMemory>
    requires { All (HasLine network.now) bad.now }
    ensures ok { OnOk result
        (out.new.items ≡ out.old.items ++ flat_map (λ fact. line (bad_line network.now fact)) bad.now) }
    ensures err { OnErr result
        (AppendsPart out.old.items out.new.items (flat_map (λ fact. line (bad_line network.now fact)) bad.now)) }
{
    for fact in bad {
        put_bad_line(network, *fact, out)?;
        put_all(out, &[b"\n"])?;
    }
    Ok(())
}

// Appends how many bad facts are not listed, where there are such.
fn put_more(count: usize, out: &mut Vec<u8>) -> Result<(), NoMemory>
    ensures ok { OnOk result (out.new.items ≡ out.old.items ++ more_text count) }
    ensures err { OnErr result (AppendsPart out.old.items out.new.items (more_text count)) }
{
    if count <= MOST_LISTED {
        return Ok(());
    }
    let others = Digits::of((count - MOST_LISTED) as u64);
    put_all(out, &[b"more ", others.bytes(), b"\n"])
}

/// Appends the line of a bad fact, without its end. Linear in the fields.
pub fn put_bad_line(network: &Network, fact: Fact, out: &mut Vec<u8>) -> Result<(), NoMemory>
    requires { HasLine network.now fact }
    ensures ok { OnOk result (out.new.items ≡ out.old.items ++ bad_line network.now fact) }
    ensures err { OnErr result (AppendsPart out.old.items out.new.items (bad_line network.now fact)) }
{
    match fact {
        Fact::Out(end, packet) => put_out(network, end, packet, out),
        Fact::State(..) => unreachable!(),
        Fact::Abort(b, packet) => put_abort(network, b, packet, out),
    }
}

// Appends that a packet is delivered from an end to the host at the other end of its link.
fn put_out(network: &Network, end: u32, packet: u32, out: &mut Vec<u8>) -> Result<(), NoMemory>
    requires end { end < ends_of network.now }
    requires packet { packet < packets_of network.now }
    requires linked { IsToHost network.now end }
    ensures ok { OnOk result
        (out.new.items ≡ out.old.items ++ delivery_line network.now (host_across network.now end) packet end) }
    ensures err { OnErr result
        (AppendsPart out.old.items out.new.items (delivery_line network.now (host_across network.now end) packet end)) }
{
    let host = host_over(network, end);
    put_delivery(network, host, end, packet, out)
}

// Appends that a packet is delivered from an end to a host.
fn put_delivery(
    network: &Network,
    host: u32,
    end: u32,
    packet: u32,
    out: &mut Vec<u8>,
) -> Result<(), NoMemory>
    requires host { host < length network.now.hosts }
    requires end { end < ends_of network.now }
    requires packet { packet < packets_of network.now }
    ensures ok { OnOk result (out.new.items ≡ out.old.items ++ deliver_line network.now host packet end) }
    ensures err { OnErr result (AppendsPart out.old.items out.new.items (deliver_line network.now host packet end)) }
{
    put_delivery_start(network, host, packet, out)?;
    put_end(network, end, out)?;
    put_all(out, &[b" : "])?;
    put_packet(network, packet, out)
}

// Appends a delivery up to the end at which the packet was put out.
fn put_delivery_start(
    network: &Network,
    host: u32,
    packet: u32,
    out: &mut Vec<u8>,
) -> Result<(), NoMemory>
    requires { host < length network.now.hosts }
    ensures ok { OnOk result (out.new.items ≡ out.old.items ++ delivery_start network.now host packet) }
    ensures err { OnErr result (AppendsPart out.old.items out.new.items (delivery_start network.now host packet)) }
{
    let name = network.host_name(host);
    let number = Digits::of(packet as u64);
    put_all(
        out,
        &[b"deliver ", name.bytes(), b" ", number.bytes(), b" from "],
    )
}

// Appends that a box aborts at a packet.
fn put_abort(network: &Network, b: u32, packet: u32, out: &mut Vec<u8>) -> Result<(), NoMemory>
    requires boxed { b < boxes_of network.now }
    requires packet { packet < packets_of network.now }
    ensures ok { OnOk result (out.new.items ≡ out.old.items ++ abort_line network.now b packet) }
    ensures err { OnErr result (AppendsPart out.old.items out.new.items (abort_line network.now b packet)) }
{
    put_abort_start(network, b, packet, out)?;
    put_packet(network, packet, out)
}

// Appends an abort up to the fields of its packet.
fn put_abort_start(
    network: &Network,
    b: u32,
    packet: u32,
    out: &mut Vec<u8>,
) -> Result<(), NoMemory>
    requires { b < boxes_of network.now }
    ensures ok { OnOk result (out.new.items ≡ out.old.items ++ abort_start network.now b packet) }
    ensures err { OnErr result (AppendsPart out.old.items out.new.items (abort_start network.now b packet)) }
{
    let name = network.box_name(b);
    let number = Digits::of(packet as u64);
    put_all(
        out,
        &[b"abort ", name.bytes(), b" ", number.bytes(), b" : "],
    )
}

// The host at the other end of the link of an end.
fn host_over(network: &Network, end: u32) -> u32
    requires end { end < ends_of network.now }
    requires linked { IsToHost network.now end }
    ensures host { host_across network.now end ≡ Some result }
    ensures in_range { result < length network.now.hosts }
{
    network.sound();
    host_ends();
    partner_is_unique();
    match network.partner(end) {
        Some(other) => host_of_end(network, other),
        None => unreachable!(),
    }
}

// The host of an end that is a host's.
fn host_of_end(network: &Network, end: u32) -> u32
    requires end { end < ends_of network.now }
    requires at_host { (host : ℕ) × IsEndAt network.now end (Place.Host host) }
    ensures { IsEndAt network.now end (Place.Host result) }
{
    match network.place(end) {
        Place::Host(host) => host,
        Place::Port(..) => unreachable!(),
    }
}
