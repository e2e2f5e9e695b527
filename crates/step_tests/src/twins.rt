//! The step of a box that asks twice, worked out by hand: one tuple answers both queries at a packet whose fields are
//! alike.
ghost use Rattle.std.specs.Prelude.{◌≡◌, ◌<◌, IsTrue};
ghost use Rattle.net_plan.specs.Plan.{packets_of, boxes_of, box_at, ports_of, masks_of};

use crate::texts::network_of;
use abstract_step::{Fired, Paths, Put};
use amdl_tree::NoMemory;
use box_masks::{Write, agree, patch};
use net_plan::{Entry, Network};
use std::alloc::Global;
use std::marker::Brand;
use std::sync::ledger::{Blank, Ledger};
use step_count::Steps;

const TWINS: &str = "network twins;
type Addr = {a, b};
field src : Addr;
field dst : Addr;
middlebox m {
  port i, o;
  relation r(Addr);
  on i : {
    if has r(src) and has r(dst) -> {
      output o;
    } fi
    insert r(src);
  }
}
host h;
host k;
box n : m;
link h -- n.i;
link k -- n.o;
sends h : src = a, dst = a;
";

// That r(a) is put in.
const ADDED: Write = Write {
    entry: Entry {
        relation: 0,
        tuple: 0,
    },
    add: true,
};

// Whether the box has the ports, packets and masks that the tests speak of.
fn has_all(net: &Network) -> bool
    ensures boxed { IsTrue result → 0 < boxes_of net.now }
    ensures port { IsTrue result → 0 < ports_of net.now (box_at net.now 0) }
    ensures packets { IsTrue result → packets_of net.now ≡ 4 }
    ensures masks { IsTrue result → masks_of net.now (box_at net.now 0) ≡ 4 }
{
    net.sound();
    net.boxes() == 1 && net.ports(0) == 2 && net.headers().count() == 4 && masks(net) == 4
}

// How many masks the first box has.
fn masks(net: &Network) -> u32
    requires { 0 < boxes_of net.now }
    ensures { result ≡ masks_of net.now (box_at net.now 0) }
{
    net.sound();
    2u32.pow(net.queries(0).len() as u32)
}

// Whether some contents answer with 3 at packet 0 and 1 at packet 1, which asks for r(a) and r(b); none with 1 at
// packet 0, which asks for r(a) twice, nor with 3 there and 1 at packet 2, which asks for r(b) and r(a).
fn agrees(net: &Network) -> bool
    requires boxed { 0 < boxes_of net.now }
    requires packets { packets_of net.now ≡ 4 }
    requires masks { masks_of net.now (box_at net.now 0) ≡ 4 }
{
    let twice = agree(net, 0, 0, 1, 0, 1);
    let both = agree(net, 0, 0, 3, 1, 1);
    let turned = agree(net, 0, 0, 3, 2, 1);
    !twice && both && !turned
}

// Whether the write shows at the query that asks for r(a), and at no other.
fn patches(net: &Network) -> bool
    requires boxed { 0 < boxes_of net.now }
    requires packets { packets_of net.now ≡ 4 }
    requires masks { masks_of net.now (box_at net.now 0) ≡ 4 }
{
    let first = patch(net, 0, &[ADDED], 1, 0);
    let second = patch(net, 0, &[ADDED], 2, 0);
    let none = patch(net, 0, &[ADDED], 3, 0);
    first == 1 && second == 2 && none == 0
}

// Whether there is one result, which puts r(a) in and puts out just these.
fn is_only_result(fired: &Fired, puts: &[Put]) -> bool {
    fired.len() == 1
        && !fired.aborted(0)
        && fired.update(0) == [ADDED].as_slice()
        && fired.outs(0) == puts
}

// Whether there is such a result alone on packet 0, from contents that answer with the mask at it.
fn fires_only<L: Ledger>(
    net: &Network,
    mask: u16,
    puts: &[Put],
    paths: &mut Paths<'_>,
    steps: &mut Steps<L>,
) -> bool
    requires made { paths.old ≡ net.now }
    requires boxed { 0 < boxes_of net.now }
    requires port { 0 < ports_of net.now (box_at net.now 0) }
    requires packets { packets_of net.now ≡ 4 }
    requires mask { mask < masks_of net.now (box_at net.now 0) }
    ensures { paths.new ≡ net.now }
{
    is_only_result(paths.fire(net, 0, 0, 0, mask, steps), puts)
}

// Whether packet 0 is put out at port 1 where the box holds r(a), stays in where it doesn't, and where one query says
// so and the other not there is no result.
fn fires<L: Ledger>(net: &Network, paths: &mut Paths<'_>, steps: &mut Steps<L>) -> bool
    requires made { paths.old ≡ net.now }
    requires boxed { 0 < boxes_of net.now }
    requires port { 0 < ports_of net.now (box_at net.now 0) }
    requires packets { packets_of net.now ≡ 4 }
    requires masks { masks_of net.now (box_at net.now 0) ≡ 4 }
{
    let stays = fires_only(net, 0, &[], paths, steps);
    let goes = fires_only(net, 3, &[Put { port: 1, packet: 0 }], paths, steps);
    stays && goes && paths.fire(net, 0, 0, 0, 1, steps).len() == 0
}

fn fires_so<L: Ledger>(alloc: Global, net: &Network, blank: Blank) -> Result<bool, NoMemory>
    requires name { blank.name ≡ L.name }
    requires parts { blank.parts ≡ L.parts }
    requires some { 0 < blank.parts }
    requires boxed { 0 < boxes_of net.now }
    requires port { 0 < ports_of net.now (box_at net.now 0) }
    requires packets { packets_of net.now ≡ 4 }
    requires masks { masks_of net.now (box_at net.now 0) ≡ 4 }
{
    let mut steps: Steps<L> = Steps::new(blank);
    let mut paths = Paths::new(alloc, net)?;
    Ok(fires(net, &mut paths, &mut steps))
}

// Whether the network is there, and its box answers and steps as it is to.
fn steps_so<L: Ledger>(alloc: Global, blank: Blank) -> Result<bool, NoMemory>
    requires name { blank.name ≡ L.name }
    requires parts { blank.parts ≡ L.parts }
    requires some { 0 < blank.parts }
{
    match network_of(alloc, TWINS)? {
        Some(net) if has_all(&net) => {
            let answers = agrees(&net) && patches(&net);
            Ok(fires_so::<L>(alloc, &net, blank)? && answers)
        }
        _ => Ok(false),
    }
}

#[test]
fn twins_step(rt: HostRuntime) {
    assert!(rt;
        steps_so::<Brand>(rt.alloc(), Blank::new(1)) == Ok(true),
        "the step of the box"
    );
}
