// How a joined seat is taken apart, and how a seat recalls what it is known to have answered.
ghost use Rattle.number_stock.specs.declared.hand.Hand.{Hand};

use crate::hand::Hand;
use atomic_table::{Play, Split};
use std::marker::{Brand, PhantomData};

/// What two seats were before they were joined. A call that takes them apart again is told it.
pub trait Joined {
    ghost first: { Hand };

    ghost second: { Hand };
}

impl Joined for Brand {
    ghost use Rattle.number_stock.specs.Rule.{spent};

    ghost first = { spent };

    ghost second = { spent };
}

pub struct Parts<N> {
    told: PhantomData<N>,
}

impl<N: Joined> Split<Hand> for Parts<N> {
    ghost use Rattle.number_stock.specs.Rule.{parted};

    ghost left = { parted N.first };

    ghost right = { parted N.second };
}

pub struct Owns;

impl Play<u8, Hand> for Owns {
    ghost use Rattle.number_stock.specs.Rule.{Owns};

    ghost then = { Owns };
}
