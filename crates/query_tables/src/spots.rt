// The tuples that the queries of a box have at its packets.
ghost use Rattle.std.specs.Prelude.{◌≡◌, ℕ, ◌<◌, ◌≤◌, ◌^◌, ◌++◌, length, map, IfOk, OnOk};
ghost use Rattle.std.specs.List.Sorted.{IsNonDecreasingBy, IsPermutation};
ghost use Rattle.net_plan.specs.Plan.{packets_of, boxes_of};
ghost use Rattle.query_tables.specs.Spots.{AreSpots, IsSmall, spots_over, group_of, key_spotted};
ghost use Rattle.query_tables.specs.Tables.{all_tuples, key_of};

use crate::masks::bits_of;
use crate::table::{push, room_for, row_at};
use amdl_tree::NoMemory;
use box_contents::Entry;
use net_plan::Network;
use std::alloc::Global;

/// A tuple, the queries that have it at a packet, as bits, and the packet.
#[derive(Clone, Copy, PartialEq, Eq, Debug)]
pub struct Spot {
    pub entry: Entry,
    pub bits: u16,
    pub packet: u32,
}

/// The spots of a box in their order. Linear in the packets times the square of the queries, but for the sort.
pub fn spots_of(
    alloc: Global,
    net: &Network,
    b: u32,
    tuples: &[Entry],
) -> Result<Vec<Spot>, NoMemory>
    requires boxed { b < boxes_of net.now }
    requires tuples { tuples.now ≡ all_tuples net.now b }
    ensures spots { IfOk result (λ spots. AreSpots net.now b spots.items) }
    ensures few { IfOk result (λ spots. length spots.items < 2 ^ 32) }
{
    let packets = net.headers().count();
    let mut spots = room_for(alloc, packets as usize * net.queries(b).len())?;
    for p in 0..packets {
        let row = row_at(net, b, tuples, p);
        push_spots(row, row, p, &mut spots)?;
    }
    sort(&mut spots);
    Ok(spots)
}

/// What holds of every spot, for a caller that needs it.
pub fn fits(spot: Spot)
    ensures { IsSmall spot }
{}

/// The packets of the spots.
pub fn packets_of(alloc: Global, spots: &[Spot]) -> Result<Vec<u32>, NoMemory>
    ensures { IfOk result (λ packets. packets.items ≡ map (λ spot. spot.packet) spots.now) }
{
    let mut packets = room_for(alloc, spots.len())?;
    for spot in spots {
        push(&mut packets, spot.packet)?;
    }
    Ok(packets)
}

// Puts the spots of a packet with this row last, for the last tuples of the row: each tuple where it stands last.
fn push_spots(
    row: &[Entry],
    tuples: &[Entry],
    packet: u32,
    spots: &mut Vec<Spot>,
) -> Result<(), NoMemory>
    requires few { length row.now ≤ 12 }
    requires fewer { length tuples.now ≤ 12 }
    ensures { OnOk result (spots.new.items ≡ spots.old.items ++ spots_over row.now packet tuples.now) }
{
    match tuples.split_first() {
        None => Ok(()),
        Some((tuple, later)) => {
            if bits_of(*tuple, later) == 0 {
                let bits = bits_of(*tuple, row);
                push(
                    spots,
                    Spot {
                        entry: *tuple,
                        bits,
                        packet,
                    },
                )?;
            }
            push_spots(row, later, packet, spots)
        }
    }
}

// Brings the spots into their order.
fn sort(spots: &mut Vec<Spot>)
    ensures spots { IsPermutation spots.old.items spots.new.items }
    ensures rising { IsNonDecreasingBy key_spotted spots.new.items }
{
    spots.sort_unstable_by_key(|spot| {
        (group_of(spot.entry, spot.bits) << 32) + u128::from(spot.packet)
    });
}

/// The number by whose order tuples stand, and spots and sites of one tuple by their bits.
pub fn group_of(entry: Entry, bits: u16) -> u128
    ensures { result ≡ group_of entry bits }
{
    (u128::from(key_of(entry)) << 16) + u128::from(bits)
}

/// The number by whose order tuples stand.
pub fn key_of(entry: Entry) -> u64
    ensures { result ≡ key_of entry }
{
    (u64::from(entry.relation) << 32) + u64::from(entry.tuple)
}
