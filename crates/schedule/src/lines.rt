ghost use Rattle.std.specs.Prelude.{◌≡◌, ◌++◌, ◌<◌, length, OnOk, OnErr};
ghost use Rattle.amdl_tree.specs.Appends.{AppendsPart};
ghost use Rattle.net_plan.specs.Plan.{packets_of, boxes_of};
ghost use Rattle.schedule.specs.Texts.{is_forbidden, is_bad, IsEventInRange, line_of_event, end_line, forbidden_text};

use amdl_tree::{NoMemory, put_all};
use net_plan::Network;
use net_runs::Event;
use plan_text::Digits;

/// Whether an event is bad: an abort, or a delivery to a host which forbids the packet. Linear in the patterns of that
/// host.
pub fn is_bad_event(net: &Network, event: Event) -> bool
    requires { IsEventInRange net.now event }
    ensures { result ≡ is_bad net.now event }
{
    match event {
        Event::Moved => false,
        Event::Delivered(host, packet) => forbids(net, host, packet),
        Event::Aborted(..) => true,
    }
}

fn forbids(net: &Network, host: u32, packet: u32) -> bool
    requires host { host < length net.now.hosts }
    requires packet { packet < packets_of net.now }
    ensures { result ≡ is_forbidden net.now host packet }
{
    net.forbidden(host, packet)
}

/// Appends the line on the step of this number, counted from 0, by what it did. Linear in the patterns of the host.
pub fn put_event_line(
    net: &Network,
    k: u32,
    event: Event,
    out: &mut Vec<u8>,
) -> Result<(), NoMemory>
    requires { IsEventInRange net.now event }
    ensures ok { OnOk result (out.new.items ≡ out.old.items ++ line_of_event net.now k event) }
    ensures err { OnErr result (AppendsPart out.old.items out.new.items (line_of_event net.now k event)) }
{
    match event {
        Event::Moved => put_moved(net, k, out),
        Event::Delivered(host, packet) => put_delivered(net, k, host, packet, out),
        Event::Aborted(b, packet) => put_aborted(net, k, b, packet, out),
    }
}

fn put_moved(net: &Network, k: u32, out: &mut Vec<u8>) -> Result<(), NoMemory>
    ensures ok { OnOk result (out.new.items ≡ out.old.items ++ line_of_event net.now k Event.Moved) }
    ensures err { OnErr result (AppendsPart out.old.items out.new.items (line_of_event net.now k Event.Moved)) }
{
    let number = Digits::of(k as u64);
    put_all(out, &[number.bytes(), b" moved", b"\n"])
}

fn put_delivered(
    net: &Network,
    k: u32,
    host: u32,
    packet: u32,
    out: &mut Vec<u8>,
) -> Result<(), NoMemory>
    requires host { host < length net.now.hosts }
    requires packet { packet < packets_of net.now }
    ensures ok { OnOk result
        (out.new.items ≡ out.old.items ++ line_of_event net.now k (Event.Delivered host packet)) }
    ensures err { OnErr result
        (AppendsPart out.old.items out.new.items (line_of_event net.now k (Event.Delivered host packet))) }
{
    let number = Digits::of(k as u64);
    let name = net.host_name(host);
    let digits = Digits::of(packet as u64);
    let word = forbidden_word(forbids(net, host, packet));
    put_all(
        out,
        &[
            number.bytes(),
            b" delivered ",
            name.bytes(),
            b" ",
            digits.bytes(),
            word,
            b"\n",
        ],
    )
}

// What is told of a delivery that is forbidden.
fn forbidden_word(forbidden: bool) -> &'static [u8]
    ensures { result.now ≡ forbidden_text forbidden }
{
    if forbidden { b" forbidden" } else { b"" }
}

fn put_aborted(
    net: &Network,
    k: u32,
    b: u32,
    packet: u32,
    out: &mut Vec<u8>,
) -> Result<(), NoMemory>
    requires { b < boxes_of net.now }
    ensures ok { OnOk result (out.new.items ≡ out.old.items ++ line_of_event net.now k (Event.Aborted b packet)) }
    ensures err { OnErr result
        (AppendsPart out.old.items out.new.items (line_of_event net.now k (Event.Aborted b packet))) }
{
    let number = Digits::of(k as u64);
    let name = net.box_name(b);
    let digits = Digits::of(packet as u64);
    put_all(
        out,
        &[
            number.bytes(),
            b" aborted ",
            name.bytes(),
            b" ",
            digits.bytes(),
            b"\n",
        ],
    )
}

/// Appends the last line: how many steps there were, and how many bad events.
pub fn put_end_line(steps: u32, bad: u32, out: &mut Vec<u8>) -> Result<(), NoMemory>
    ensures ok { OnOk result (out.new.items ≡ out.old.items ++ end_line steps bad) }
    ensures err { OnErr result (AppendsPart out.old.items out.new.items (end_line steps bad)) }
{
    let all = Digits::of(steps as u64);
    let some = Digits::of(bad as u64);
    put_all(
        out,
        &[b"end steps ", all.bytes(), b" bad ", some.bytes(), b"\n"],
    )
}
