ghost use Rattle.std.specs.Prelude.{◌≡◌, ◌≤◌, ◌<◌, ◌++◌, ◌∷◌, [], length, None, OnOk, slice_get, slice_set};
ghost use Rattle.turn_list.specs.Turns.{waiting_in};

use crate::counts::{lower_counts, new_count, turn_at, waits};
use enq_base::{NoMemory, UnitKey};
use std::alloc::Global;
use std::marker::Model;

/// Turns in order, at each of which one unit waits or none. Beside them stands for each turn how many wait in the block
/// of turns that it ends, so that those that wait are counted and found without going through them.
#[derive(Drop)]
pub struct Turns {
    slots: Vec<Option<UnitKey>>,
    counts: Vec<u32>,
    waiting: u32,
}

impl Model for Turns {
    ghost use Rattle.std.specs.Prelude.{◌-◌, ◌≤◌, ◌≡◌, length, min, vec_len, vec_capacity};
    ghost use Rattle.turn_list.specs.Turns.{TurnsView, waiting_in};
    ghost use Rattle.turn_list.specs.Counts.{IsTurns};

    ghost Value = { TurnsView };

    ghost view = { λ t. record {
      turns = t.slots.items;
      room = min (vec_capacity t.slots - vec_len t.slots) (vec_capacity t.counts - vec_len t.counts);
    } };

    ghost invariant = { λ t. IsTurns t.slots.items t.counts.items t.waiting };
}

impl Turns {
    /// No turns. It takes no memory yet.
    pub fn new(alloc: Global) -> Turns
        ensures { result.turns ≡ [] }
    {
        Turns {
            slots: Vec::new(alloc),
            counts: Vec::new(alloc),
            waiting: 0,
        }
    }

    /// Takes the memory for one more turn.
    pub fn make_room(&mut self) -> Result<(), NoMemory>
        ensures turns { self.new.turns ≡ self.old.turns }
        ensures room { OnOk result (1 ≤ self.new.room) }
    {
        self.slots.reserve(1)?;
        self.counts.reserve(1)?;
        Ok(())
    }

    /// Takes the next turn, for which there is room.
    pub fn push(&mut self, unit: Option<UnitKey>)
        requires room { 1 ≤ self.old.room }
        requires few { length self.old.turns < 1048576 }
        ensures { self.new.turns ≡ self.old.turns ++ unit ∷ [] }
    {
        let count = new_count(self.slots.as_slice(), self.counts.as_slice(), &unit);
        self.waiting += waits(&unit);
        self.counts.push_reserved(count);
        self.slots.push_reserved(unit);
    }

    /// From now on no unit waits at this turn.
    pub fn clear(&mut self, turn: usize)
        ensures turns { self.new.turns ≡ slice_set self.old.turns turn None }
        ensures room { self.old.room ≤ self.new.room }
    {
        if let Some(Some(_)) = self.slots.get(turn) {
            lower_counts(self.slots.as_slice(), self.counts.as_mut_slice(), turn);
            self.slots[turn] = None;
            self.waiting -= 1;
        }
    }

    /// How many units wait.
    pub fn len(&self) -> u32
        ensures { result ≡ length (waiting_in self.now.turns) }
    {
        self.waiting
    }

    /// The unit that waits at a place, counted from 0, in the order of the turns.
    pub fn at(&self, place: u32) -> Option<UnitKey>
        ensures { result ≡ slice_get (waiting_in self.now.turns) place }
    {
        let turn = turn_at(self.slots.as_slice(), self.counts.as_slice(), place);
        *self.slots.get(turn)?
    }
}
