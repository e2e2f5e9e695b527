//! Schedules, with the place of the first token that fits none, and as they are written.
ghost use Rattle.std.specs.Prelude.{◌<◌, length};
ghost use Rattle.net_plan.specs.Ends.{ends_of};
ghost use Rattle.net_plan.specs.Plan.{packets_of};

use amdl_check::check;
use amdl_lexer::{LexRefusal, lex};
use amdl_tree::{List, NoMemory};
use net_plan::Network;
use net_runs::Step;
use network_file::read as read_network;
use schedule_text::{ScheduleSyntax, parse_schedule, write_schedule};
use std::alloc::Global;

// Whether the text is a schedule, and then the number of its steps, or the place of the first token that fits none.
fn read(alloc: Global, bytes: &[u8]) -> Result<(bool, u32), LexRefusal> {
    if bytes.len() > 4_194_304 {
        return Err(LexRefusal::NoMemory);
    }
    let tokens = lex(alloc, bytes)?;
    if tokens.as_slice().len() > 1_000_000 {
        return Err(LexRefusal::TooManyTokens);
    }
    match parse_schedule(alloc, tokens.as_slice()) {
        Ok(steps) => Ok((true, steps.as_slice().len() as u32)),
        Err(ScheduleSyntax::Syntax(place)) => Ok((false, place)),
        Err(ScheduleSyntax::NoMemory) => Err(LexRefusal::NoMemory),
    }
}

#[test]
fn schedules_are_read(rt: HostRuntime) -> Result<(), LexRefusal> {
    assert!(rt; read(rt.alloc(), b"")? == (true, 0));
    assert!(rt; read(rt.alloc(), b"send h 1; deliver g.i 1 [0]; revert g;")? == (true, 3));
    assert!(rt;
        read(
            rt.alloc(),
            b"send send 0; deliver deliver 0; revert revert;"
        )? == (true, 3)
    );
    assert!(rt; read(rt.alloc(), b"deliver g.i 000000001 [0, 1, 2];")? == (true, 1));
    Ok(())
}

#[test]
fn schedules_are_refused(rt: HostRuntime) -> Result<(), LexRefusal> {
    assert!(rt; read(rt.alloc(), b"send host 0;")? == (false, 1));
    assert!(rt; read(rt.alloc(), b"send h 1")? == (false, 3));
    assert!(rt; read(rt.alloc(), b"send h h;")? == (false, 2));
    assert!(rt; read(rt.alloc(), b"send h 1; expire g;")? == (false, 4));
    assert!(rt; read(rt.alloc(), b"deliver g 1 [];")? == (false, 4));
    assert!(rt; read(rt.alloc(), b"deliver g.i 1 [0,];")? == (false, 8));
    assert!(rt; read(rt.alloc(), b"deliver g.i 1 [0] [1];")? == (false, 8));
    assert!(rt; read(rt.alloc(), b"revert g.i;")? == (false, 2));
    Ok(())
}

const WIRE: &[u8] =
    b"network wire; type Addr = {a, b}; field src : Addr; field dst : Addr; host p; host q; link p -- q;";

// The network of two hosts on a wire.
fn wire(alloc: Global) -> Result<Option<Network>, NoMemory> {
    if WIRE.len() > 4_194_304 {
        return Ok(None);
    }
    let reading = read_network(alloc, WIRE)?;
    match reading {
        Ok(tree) => Ok(check(alloc, &tree).ok()),
        Err(_) => Ok(None),
    }
}

// Two sends of the first host, and their deliveries at the second end in the other order, as text.
fn written(alloc: Global, net: &Network) -> Result<Vec<u8>, NoMemory>
    requires host { 0 < length net.now.hosts }
    requires end { 1 < ends_of net.now }
    requires packet { 1 < packets_of net.now }
{
    let steps = [
        Step::Send(0, 0),
        Step::Send(0, 1),
        Step::Deliver(1, 1, List::new(alloc)),
        Step::Deliver(1, 0, List::new(alloc)),
    ];
    let mut out = Vec::new(alloc);
    write_schedule(net, &steps, &mut out)?;
    Ok(out)
}

#[test]
fn steps_are_written(rt: HostRuntime) -> Result<(), NoMemory> {
    let text = match wire(rt.alloc())? {
        Some(net) if net.hosts() == 2 && net.ends() == 2 && net.headers().count() == 4 => {
            written(rt.alloc(), &net)?
        }
        _ => Vec::new(rt.alloc()),
    };
    let four = b"send p 0;\nsend p 1;\ndeliver q 1;\ndeliver q 0;\n".as_slice();
    assert!(rt; text.as_slice() == four);
    Ok(())
}
