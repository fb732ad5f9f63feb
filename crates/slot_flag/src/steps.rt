// The rule of a flag's table, and the kinds of step that keep it.
ghost use Rattle.slot_flag.specs.Seat.{first_seat, with_one_more_out, split_off, joined, spent};
ghost use Rattle.slot_flag.specs.Rule.{Kept, Raises, Looks, Learns};

use crate::SeatView;
use atomic_table::{Join, Play, Split, TableRule};

// The word is the greatest level raised, and the rest of `specs/Rule.antt`.
pub struct GreatestRaised;

impl TableRule<(), SeatView, ()> for GreatestRaised {
    ghost holds = { λ _ s. Kept s.words s.views };

    ghost first = { λ _. first_seat };
}

// One fetch_max.
pub struct Raise;

impl Play<(), SeatView> for Raise {
    ghost then = { Raises };
}

// One load that counts.
pub struct Look;

impl Play<(), SeatView> for Look {
    ghost then = { Looks };
}

// The load of a join, which doesn't count.
pub struct Learn;

impl Play<(), SeatView> for Learn {
    ghost then = { Learns };
}

// One seat becomes two, or two become one.
pub struct Part;

impl Split<SeatView> for Part {
    ghost left = { with_one_more_out };

    ghost right = { λ v. split_off v.seen };
}

impl Join<SeatView> for Part {
    ghost both = { joined };

    ghost spent = { spent };
}
