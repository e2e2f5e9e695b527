// The states of a network, of which the facts of the domain cover all that can be reached.
ghost use Rattle.packet_domain.specs.Covered.{first_is_covered, next_is_covered, bad_is_shown};
ghost use Rattle.packet_domain.specs.Worlds.{IsFirst, Leads, IsBadTransition, Covers, IsBadCell};

use crate::domain::PacketDomain;
use fix_engine::Abstraction;
use net_runs::{Mode, Step, World};

/// A step of a network, and how the channels hand packets on at it.
#[derive(Debug, Drop)]
pub struct Transition {
    pub mode: Mode,
    pub step: Step,
}

/// Worlds begin with the first state of a sound plan, a transition leads on by its step in its mode, and it is bad where its
/// event is. A set of cells covers a well shaped state where it has the facts of all packets that wait in channels, and
/// of the answers of each box at each packet.
impl<'a> Abstraction for PacketDomain<'a> {
    type World = World;

    type Step = Transition;

    ghost is_first = { IsFirst };

    ghost leads = { Leads };

    ghost is_bad = { IsBadTransition };

    ghost covers = { Covers };

    ghost is_bad_cell = { IsBadCell };

    ghost covers_first = { first_is_covered };

    ghost covers_next = { next_is_covered };

    ghost shows_bad = { bad_is_shown };
}
