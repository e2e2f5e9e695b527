// The numbers of moves.
ghost use Rattle.std.specs.Prelude.{◌≡◌, ◌^◌, ◌<◌, ◌≤◌, ◌↔◌, IsTrue};
ghost use Rattle.net_plan.specs.Plan.{packets_of, boxes_of};
ghost use Rattle.box_moves.specs.Moves.{masks_at, moves_of, move_number, cells_of, IsKept};

use net_plan::Network;

/// Whether the moves of a box are kept: where packets times masks times masks, times the boxes of the network, are at
/// most 2^31. So all moves that are kept fit 256 MiB with a bit each.
pub fn is_kept(net: &Network, b: u32) -> bool
    requires { b < boxes_of net.now }
    ensures { IsTrue result ↔ IsKept net.now b }
{
    moves_of(net, b) * boxes_of(net) <= 1 << 31
}

// How many moves there can be in a box.
fn moves_of(net: &Network, b: u32) -> u64
    requires { b < boxes_of net.now }
    ensures moves { result ≡ moves_of net.now b }
    ensures few { result ≤ 2 ^ 40 }
{
    let masks = u64::from(masks_of(net, b));
    u64::from(packets_of(net)) * masks * masks
}

/// How many cells the set of a box has: one for each move, or none where the box isn't kept.
pub fn cells_of(net: &Network, b: u32) -> u32
    requires { b < boxes_of net.now }
    ensures { result ≡ cells_of net.now b }
{
    if is_kept(net, b) {
        kept_fits(net, b);
        moves_of(net, b) as u32
    } else {
        0
    }
}

/// How many masks a box has.
pub fn masks_of(net: &Network, b: u32) -> u32
    requires { b < boxes_of net.now }
    ensures masks { result ≡ masks_at net.now b }
    ensures few { result ≤ 4096 }
{
    2u32.pow(net.queries(b).len() as u32)
}

// How many boxes there are.
fn boxes_of(net: &Network) -> u64
    ensures boxes { result ≡ boxes_of net.now }
    ensures few { result ≤ 256 }
{
    net.sound();
    u64::from(net.boxes())
}

// A box that is kept has a bit for each of its moves in 32 bits.
fn kept_fits(net: &Network, b: u32)
    requires boxed { b < boxes_of net.now }
    requires kept { IsKept net.now b }
    ensures { moves_of net.now b ≤ 2 ^ 31 }
{
    let _net = net;
}

// How many packets there are.
fn packets_of(net: &Network) -> u32
    ensures packets { result ≡ packets_of net.now }
    ensures few { result ≤ 65536 }
{
    net.sound();
    net.headers().count()
}

/// The number of a move of a box.
pub fn number_of(net: &Network, b: u32, packet: u32, mask: u16, other: u16) -> u32
    requires boxed { b < boxes_of net.now }
    requires kept { IsKept net.now b }
    requires packet { packet < packets_of net.now }
    requires mask { mask < masks_at net.now b }
    requires other { other < masks_at net.now b }
    ensures number { result ≡ move_number (masks_at net.now b) packet mask other }
    ensures below { result < moves_of net.now b }
{
    kept_fits(net, b);
    let masks = masks_of(net, b);
    (packet * masks + u32::from(mask)) * masks + u32::from(other)
}
