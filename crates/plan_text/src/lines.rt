ghost use Rattle.std.specs.Prelude.{◌≡◌, ◌<◌, ◌++◌, length, OnOk, OnErr};
ghost use Rattle.amdl_tree.specs.Appends.{AppendsPart};
ghost use Rattle.net_plan.specs.Plan.{packets_of, boxes_of, box_at, ports_of};
ghost use Rattle.net_plan.specs.Ends.{ends_of};
ghost use Rattle.plan_text.specs.Text.{network_line, numbers_line};
ghost use Rattle.plan_text.specs.Text.{text_of_place, text_of_end, text_of_field, text_of_packet};

use crate::digits::Digits;
use amdl_tree::{NoMemory, put_all};
use net_plan::laws::{host_ends, port_ends};
use net_plan::{Network, Place};

/// Appends the network line, without its end.
pub fn put_network_line(network: &Network, out: &mut Vec<u8>) -> Result<(), NoMemory>
    ensures ok { OnOk result (out.new.items ≡ out.old.items ++ network_line network.now) }
    ensures err { OnErr result (AppendsPart out.old.items out.new.items (network_line network.now)) }
{
    let name = network.name();
    let hosts = Digits::of(network.hosts() as u64);
    let boxes = Digits::of(network.boxes() as u64);
    let packets = Digits::of(network.headers().count() as u64);
    put_all(
        out,
        &[
            b"network ",
            name.bytes(),
            b" hosts ",
            hosts.bytes(),
            b" boxes ",
            boxes.bytes(),
            b" packets ",
            packets.bytes(),
        ],
    )
}

/// Appends the facts line of these numbers of facts by kind, without its end.
pub fn put_facts_line(
    outs: u32,
    states: u32,
    aborts: u32,
    out: &mut Vec<u8>,
) -> Result<(), NoMemory>
    ensures ok { OnOk result (out.new.items ≡ out.old.items ++ numbers_line outs states aborts) }
    ensures err { OnErr result (AppendsPart out.old.items out.new.items (numbers_line outs states aborts)) }
{
    let outs = Digits::of(outs as u64);
    let states = Digits::of(states as u64);
    let aborts = Digits::of(aborts as u64);
    put_all(
        out,
        &[
            b"facts out ",
            outs.bytes(),
            b" state ",
            states.bytes(),
            b" abort ",
            aborts.bytes(),
        ],
    )
}

/// Appends the name of an end.
pub fn put_end(network: &Network, end: u32, out: &mut Vec<u8>) -> Result<(), NoMemory>
    requires { end < ends_of network.now }
    ensures ok { OnOk result (out.new.items ≡ out.old.items ++ text_of_end network.now end) }
    ensures err { OnErr result (AppendsPart out.old.items out.new.items (text_of_end network.now end)) }
{
    host_ends();
    port_ends();
    match network.place(end) {
        Place::Host(host) => put_host(network, host, out),
        Place::Port(b, port) => put_port(network, b, port, out),
    }
}

fn put_host(network: &Network, host: u32, out: &mut Vec<u8>) -> Result<(), NoMemory>
    requires { host < length network.now.hosts }
    ensures ok { OnOk result (out.new.items ≡ out.old.items ++ text_of_place network.now (Place.Host host)) }
    ensures err { OnErr result (AppendsPart out.old.items out.new.items (text_of_place network.now (Place.Host host))) }
{
    let name = network.host_name(host);
    put_all(out, &[name.bytes()])
}

fn put_port(network: &Network, b: u32, port: u32, out: &mut Vec<u8>) -> Result<(), NoMemory>
    requires boxed { b < boxes_of network.now }
    requires port { port < ports_of network.now (box_at network.now b) }
    ensures ok { OnOk result (out.new.items ≡ out.old.items ++ text_of_place network.now (Place.Port b port)) }
    ensures err { OnErr result
        (AppendsPart out.old.items out.new.items (text_of_place network.now (Place.Port b port))) }
{
    let name = network.box_name(b);
    let port_name = network.port_name(b, port);
    put_all(out, &[name.bytes(), b".", port_name.bytes()])
}

/// Appends each field of a packet with its value. Linear in the fields, each of which takes time in their number.
pub fn put_packet(network: &Network, packet: u32, out: &mut Vec<u8>) -> Result<(), NoMemory>
    requires { packet < packets_of network.now }
    ensures ok { OnOk result (out.new.items ≡ out.old.items ++ text_of_packet network.now packet) }
    ensures err { OnErr result (AppendsPart out.old.items out.new.items (text_of_packet network.now packet)) }
{
    let fields = network.headers().fields() as u32;
    put_field(network, packet, 0, out)?;
    for k in 1..fields {
        put_all(out, &[b", "])?;
        put_field(network, packet, k, out)?;
    }
    Ok(())
}

fn put_field(network: &Network, packet: u32, k: u32, out: &mut Vec<u8>) -> Result<(), NoMemory>
    requires packet { packet < packets_of network.now }
    requires in_range { k < length network.now.fields }
    ensures ok { OnOk result (out.new.items ≡ out.old.items ++ text_of_field network.now packet k) }
    ensures err { OnErr result (AppendsPart out.old.items out.new.items (text_of_field network.now packet k)) }
{
    let name = network.field_name(k);
    let kind = network.kind_of_field(k);
    let value = network.value_name(kind, network.headers().field(packet, k as usize));
    put_all(out, &[name.bytes(), b" = ", value.bytes()])
}
