ghost use Rattle.std.specs.Prelude.{◌≡◌, ◌≤◌, length, OnOk};
ghost use Rattle.module_effects.specs.Spots.{with_spots};
ghost use Rattle.ledger_steps.specs.Steps.{after_step, intervals_in};
ghost use Rattle.posting.specs.BooksView.{MayTake};
ghost use Rattle.posting.specs.Mirrors.{business};

use crate::register::Register;
use business_rows::BusinessRows;
use enq_base::NoMemory;
use ledger_steps::Step;
use module_effects::Spot;
use std::marker::Model;

/// The ledger in memory, and beside it the business rows that its marks make.
#[derive(Drop)]
pub struct Mirror {
    register: Register,
    rows: BusinessRows,
}

impl Model for Mirror {
    ghost use Rattle.std.specs.Prelude.{◌≡◌};
    ghost use Rattle.posting.specs.Mirrors.{business, MirrorView};

    ghost Value = { MirrorView };

    ghost use Rattle.std.specs.Coded.{codes};
    ghost use Rattle.update_records.specs.Codes.{levels_code};

    ghost coded = { Prim.hlevel (codes, levels_code) };

    ghost view = { λ m. record {
      ledger = m.register.ledger;
      room = m.register.room;
      spare = m.register.spare;
      places = m.rows.room;
    } };

    ghost invariant = { λ m. m.rows.tables ≡ business m.register.ledger };
}

impl Mirror {
    pub fn new(register: Register, rows: BusinessRows) -> Mirror
        requires { rows.tables ≡ business register.ledger }
        ensures { result.ledger ≡ register.ledger }
    {
        Mirror { register, rows }
    }

    pub fn register(&self) -> &Register
        ensures { result.now.ledger ≡ self.now.ledger }
    {
        &self.register
    }

    pub fn rows(&self) -> &BusinessRows
        ensures { result.now.tables ≡ business self.now.ledger }
    {
        &self.rows
    }

    /// Takes the memory for one more unit, one more mark, so many more intervals and so many more business rows.
    pub fn make_room(&mut self, intervals: usize, rows: usize) -> Result<(), NoMemory>
        ensures ledger { self.new.ledger ≡ self.old.ledger }
        ensures room { OnOk result (1 ≤ self.new.room) }
        ensures spare { OnOk result (intervals ≤ self.new.spare) }
        ensures places { OnOk result (rows ≤ self.new.places) }
    {
        self.register.make_room(intervals)?;
        self.rows.make_room(rows)?;
        Ok(())
    }

    /// Takes a step with the business rows that it leaves. There is room for both.
    pub fn add(&mut self, step: Step, rows: Vec<Spot>)
        requires room { 1 ≤ self.old.room }
        requires spare { length (intervals_in step) ≤ self.old.spare }
        requires places { length rows.items ≤ self.old.places }
        requires step { MayTake self.old.ledger step }
        requires leaves { business (after_step self.old.ledger step)
            ≡ with_spots rows.items (business self.old.ledger) }
        ensures { self.new.ledger ≡ after_step self.old.ledger step }
    {
        self.register.add(step);
        self.rows.put_all(rows);
    }
}
