ghost use Rattle.std.specs.Prelude.{◌≡◌, ◌≤◌, true, false, IsTrue, is_some, IfOk, OnOk, OnErr, IfSome};
ghost use Rattle.enq_base.specs.Causes.{HasCause, one_more};
ghost use Rattle.keeper_api.specs.Keeping.{HasFaultCause, Stays, UnlessFailed, OnNoMemory, OnFailed, IsWithin};
ghost use Rattle.keeper_api.specs.Rows.{IsPage};
ghost use Rattle.keeper_api.specs.Batch.{IsBatch};

use crate::asks::{Ask, done_in, page_in, value_in};
use crate::file_connection::{FileConnection, ask_at, connect};
use crate::gate::Gate;
use enq_base::{Failed, NoMemory, Short};
use keeper_api::{Bytes, Change, KeepFault, Keeper, Row};
use std::alloc::Global;
use std::marker::Model;

/// A keeper over a SQLite file, which `reopen` opens or makes. It doesn't tell its rows.
pub struct SqliteKeeper {
    rt: HostRuntime,
    path: Short,
    gate: Gate,
    connection: Option<FileConnection>,
}

impl Drop for SqliteKeeper {
    fn drop(self) {
        let SqliteKeeper {
            rt: _,
            path: _,
            gate: _,
            connection: _,
        } = self;
    }
}

impl Model for SqliteKeeper {
    ghost use Rattle.keeper_sqlite.specs.Views.{FileView};

    ghost Value = { FileView };

    ghost view = { λ k. record { path = k.path; is_open = k.gate.is_open; faults = k.gate.faults } };
}

impl SqliteKeeper {
    /// A keeper over the file of this path. Nothing is opened yet, and no memory is taken.
    pub fn new(rt: HostRuntime, path: Short) -> SqliteKeeper
        ensures { result ≡ record { path = path; is_open = false; faults = 0 } }
    {
        SqliteKeeper {
            rt,
            path,
            gate: Gate::new(),
            connection: None,
        }
    }
}

impl Keeper for SqliteKeeper {
    ghost use Rattle.std.specs.Prelude.{None, IsTrue, ⊤};

    ghost held = { λ k. None };

    ghost may_leave = { λ k rows. ⊤ };

    ghost faults = { λ k. k.faults };

    ghost is_open = { λ k. IsTrue k.is_open };

    ghost has_room = { λ k batch. ⊤ };

    ghost settled = { λ k is_open. tt };

    ghost held_left = { λ k. tt };

    fn reopen(&mut self, _alloc: Global) -> Result<(), KeepFault>
        // As every keeper.
        ensures opened { OnOk result (IsTrue self.new.is_open) }
        ensures cause { HasFaultCause self.old.faults self.new.faults result }

        ensures done { OnOk result (self.new ≡ record self.old { is_open = true }) }
        ensures failed { OnFailed result
            (self.new ≡ record self.old { is_open = false; faults = one_more self.old.faults }) }
        ensures wanting { OnNoMemory result (self.new ≡ record self.old { is_open = false }) }
    {
        // The old connection holds the lock of the file.
        self.connection = None;
        self.gate.is_open = false;
        match connect(&self.rt, &self.path) {
            Ok(connection) => {
                self.connection = Some(connection);
                self.gate.is_open = true;
                Ok(())
            }
            Err(fault) => Err(self.gate.refused(fault)),
        }
    }

    fn get(&mut self, _alloc: Global, table: u8, key: &[u8]) -> Result<Option<Bytes>, KeepFault>
        requires { IsTrue self.old.is_open }
        // As every keeper.
        ensures cause { HasFaultCause self.old.faults self.new.faults result }

        ensures same { UnlessFailed result (self.new ≡ self.old) }
        ensures failed { OnFailed result
            (self.new ≡ record self.old { is_open = false; faults = one_more self.old.faults }) }
    {
        let told = ask_at(&mut self.connection, &Ask::Value { table, key });
        match value_in(told) {
            Ok(value) => Ok(value),
            Err(fault) => Err(self.gate.refused(fault)),
        }
    }

    fn page(
        &mut self,
        alloc: Global,
        table: u8,
        after: &[u8],
        n: u32,
    ) -> Result<Vec<Row>, KeepFault>
        requires opened { IsTrue self.old.is_open }
        requires some { 1 ≤ n }
        requires few { n ≤ 1000 }
        // As every keeper.
        ensures shape { IfOk result (λ page. IsPage after.now n page.items) }
        ensures cause { HasFaultCause self.old.faults self.new.faults result }

        ensures same { UnlessFailed result (self.new ≡ self.old) }
        ensures failed { OnFailed result
            (self.new ≡ record self.old { is_open = false; faults = one_more self.old.faults }) }
    {
        let ask = Ask::Rows {
            alloc,
            table,
            after,
            n,
        };
        match page_in(after, n, ask_at(&mut self.connection, &ask)) {
            Ok(page) => Ok(page),
            Err(fault) => Err(self.gate.refused(fault)),
        }
    }

    fn room(&mut self, _alloc: Global, _batch: &[Change]) -> Result<(), NoMemory>
        requires opened { IsTrue self.old.is_open }
        requires batch { IsBatch _batch.now }
        ensures same { self.new ≡ self.old }
    {
        Ok(())
    }

    fn commit(&mut self, batch: &[Change]) -> Result<(), Failed>
        requires { IsTrue self.old.is_open }
        // As every keeper.
        ensures cause { HasCause self.old.faults self.new.faults result }

        ensures done { OnOk result (self.new ≡ self.old) }
        ensures failed { OnErr result
            (self.new ≡ record self.old { is_open = false; faults = one_more self.old.faults }) }
    {
        let told = ask_at(&mut self.connection, &Ask::Write { batch });
        match done_in(told) {
            Ok(()) => Ok(()),
            Err(_) => Err(self.gate.fail()),
        }
    }
}
