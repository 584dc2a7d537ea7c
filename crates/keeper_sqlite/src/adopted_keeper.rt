ghost use Rattle.std.specs.Prelude.{◌≡◌, ◌≤◌, true, false, IsTrue, is_some, IfOk, OnOk, OnErr, IfSome};
ghost use Rattle.enq_base.specs.Causes.{HasCause, one_more};
ghost use Rattle.keeper_api.specs.Keeping.{HasFaultCause, Stays, UnlessFailed, OnNoMemory, OnFailed, IsWithin};
ghost use Rattle.keeper_api.specs.Rows.{IsPage};
ghost use Rattle.keeper_api.specs.Batch.{IsBatch};

use crate::asks::{Ask, done_in, page_in, value_in};
use crate::calls::answer;
use crate::gate::Gate;
use enq_base::{Failed, NoMemory};
use keeper_api::{Bytes, Change, KeepFault, Keeper, Row};
use sqlite::{Alter, Connection};
use std::alloc::Global;
use std::marker::Model;

/// A keeper over a connection that was opened elsewhere. It can be opened once, and doesn't tell its rows.
pub struct AdoptedKeeper<S: Alter> {
    connection: Connection<S>,
    was_opened: bool,
    gate: Gate,
}

impl<S: Alter + Drop> Drop for AdoptedKeeper<S> {
    fn drop(self) {
        let AdoptedKeeper {
            connection: _,
            was_opened: _,
            gate: _,
        } = self;
    }
}

impl<S: Alter> Model for AdoptedKeeper<S> {
    ghost use Rattle.keeper_sqlite.specs.Views.{AdoptedView};

    ghost Value = { AdoptedView };

    ghost view = { λ k. record { was_opened = k.was_opened; is_open = k.gate.is_open; faults = k.gate.faults } };
}

impl<S: Alter> AdoptedKeeper<S> {
    /// A keeper over this connection. Nothing is read or written yet, and no memory is taken.
    pub fn new(connection: Connection<S>) -> AdoptedKeeper<S>
        ensures { result ≡ record { was_opened = false; is_open = false; faults = 0 } }
    {
        AdoptedKeeper {
            connection,
            was_opened: false,
            gate: Gate::new(),
        }
    }

    /// The connection, after a fault too.
    pub fn into_connection(self) -> Connection<S> {
        let AdoptedKeeper {
            connection,
            was_opened: _,
            gate: _,
        } = self;
        connection
    }
}

impl<S: Alter> Keeper for AdoptedKeeper<S> {
    ghost use Rattle.std.specs.Prelude.{None, IsTrue, ⊤};

    ghost held = { λ k. None };

    ghost may_leave = { λ k rows. ⊤ };

    ghost faults = { λ k. k.faults };

    ghost is_open = { λ k. IsTrue k.is_open };

    ghost has_room = { λ k batch. ⊤ };

    ghost settled = { λ k is_open. tt };

    ghost held_left = { λ k. tt };

    fn reopen(&mut self, _alloc: Global) -> Result<(), KeepFault>
        // As every keeper.
        ensures opened { OnOk result (IsTrue self.new.is_open) }
        ensures cause { HasFaultCause self.old.faults self.new.faults result }

        ensures once { IsTrue self.old.was_opened → result ≡ Err KeepFault.Failed }
        ensures done { OnOk result (self.new ≡ record self.old { was_opened = true; is_open = true }) }
        ensures failed { OnFailed result
            (self.new ≡ record { was_opened = true; is_open = false; faults = one_more self.old.faults }) }
        ensures wanting { OnNoMemory result (self.new ≡ record self.old { was_opened = true; is_open = false }) }
    {
        self.gate.is_open = false;
        if self.was_opened {
            return Err(self.gate.refused(KeepFault::Failed));
        }
        self.was_opened = true;
        match done_in(answer(&mut self.connection, &Ask::Begin)) {
            Ok(()) => {
                self.gate.is_open = true;
                Ok(())
            }
            Err(fault) => Err(self.gate.refused(fault)),
        }
    }

    fn get(&mut self, _alloc: Global, table: u8, key: &[u8]) -> Result<Option<Bytes>, KeepFault>
        requires { IsTrue self.old.is_open }
        // As every keeper.
        ensures cause { HasFaultCause self.old.faults self.new.faults result }

        ensures same { UnlessFailed result (self.new ≡ self.old) }
        ensures failed { OnFailed result
            (self.new ≡ record self.old { is_open = false; faults = one_more self.old.faults }) }
    {
        let told = answer(&mut self.connection, &Ask::Value { table, key });
        match value_in(told) {
            Ok(value) => Ok(value),
            Err(fault) => Err(self.gate.refused(fault)),
        }
    }

    fn page(
        &mut self,
        alloc: Global,
        table: u8,
        after: &[u8],
        n: u32,
    ) -> Result<Vec<Row>, KeepFault>
        requires opened { IsTrue self.old.is_open }
        requires some { 1 ≤ n }
        requires few { n ≤ 1000 }
        // As every keeper.
        ensures shape { IfOk result (λ page. IsPage after.now n page.items) }
        ensures cause { HasFaultCause self.old.faults self.new.faults result }

        ensures same { UnlessFailed result (self.new ≡ self.old) }
        ensures failed { OnFailed result
            (self.new ≡ record self.old { is_open = false; faults = one_more self.old.faults }) }
    {
        let ask = Ask::Rows {
            alloc,
            table,
            after,
            n,
        };
        match page_in(after, n, answer(&mut self.connection, &ask)) {
            Ok(page) => Ok(page),
            Err(fault) => Err(self.gate.refused(fault)),
        }
    }

    fn room(&mut self, _alloc: Global, _batch: &[Change]) -> Result<(), NoMemory>
        requires opened { IsTrue self.old.is_open }
        requires batch { IsBatch _batch.now }
        ensures same { self.new ≡ self.old }
    {
        Ok(())
    }

    fn commit(&mut self, batch: &[Change]) -> Result<(), Failed>
        requires { IsTrue self.old.is_open }
        // As every keeper.
        ensures cause { HasCause self.old.faults self.new.faults result }

        ensures done { OnOk result (self.new ≡ self.old) }
        ensures failed { OnErr result
            (self.new ≡ record self.old { is_open = false; faults = one_more self.old.faults }) }
    {
        let told = answer(&mut self.connection, &Ask::Write { batch });
        match done_in(told) {
            Ok(()) => Ok(()),
            Err(_) => Err(self.gate.fail()),
        }
    }
}
