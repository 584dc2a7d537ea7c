ghost use Rattle.std.specs.Prelude.{◌≡◌, IfOk, OnOk, OnErr};
ghost use Rattle.std.specs.FinMap.{empty};
ghost use Rattle.keeper_api.specs.Batch.{changed};
ghost use Rattle.keeper_api.specs.Rows.{value_at, page_of, IsPage};

use crate::copies::{copy_batch, copy_bytes};
use crate::table::{page_behind, value_of};
use crate::tables::{make_all, make_room, rows_in};
use enq_base::NoMemory;
use keeper_api::{Bytes, Change, Row};
use std::alloc::Global;
use std::collections::VecDeque;
use std::marker::Model;

/// Rows in numbered tables, and a batch of changes that waits, with the memory to make them.
#[derive(Drop)]
pub struct SortedRows {
    tables: Vec<Vec<Row>>,
    waiting: VecDeque<Change>,
}

impl Model for SortedRows {
    ghost use Rattle.std.specs.Prelude.{length};
    ghost use Rattle.std.specs.Coded.{codes};
    ghost use Rattle.keeper_api.specs.Batch.{changed};
    ghost use Rattle.sorted_rows.specs.Places.{AreSorted};
    ghost use Rattle.sorted_rows.specs.Tables.{entries_from, rows_of, HasRoom};
    ghost use Rattle.sorted_rows.specs.Views.{RowsView, rows_code};

    ghost Value = { RowsView };

    ghost coded = { Prim.hlevel (codes, rows_code) };

    ghost view = { λ a. record {
      rows = rows_of a.tables.items;
      made = changed a.waiting.items (rows_of a.tables.items);
    } };

    ghost invariant = { λ a. AreSorted (entries_from 0 a.tables.items)
        × HasRoom (length a.waiting.items) a.waiting.items a.tables.items };
}

impl SortedRows {
    /// No rows, and a batch without changes. It takes no memory.
    pub fn new(alloc: Global) -> SortedRows
        ensures { result ≡ record { rows = empty; made = empty } }
    {
        SortedRows {
            tables: Vec::new(alloc),
            waiting: VecDeque::new(alloc),
        }
    }

    /// A copy of a row's value.
    pub fn get(&self, alloc: Global, table: u8, key: &[u8]) -> Result<Option<Bytes>, NoMemory>
        ensures { IfOk result (λ value. value ≡ value_at self.now.rows table key.now) }
    {
        match value_of(rows_in(self.tables.as_slice(), table), key) {
            Some(value) => Ok(Some(copy_bytes(alloc, value)?)),
            None => Ok(None),
        }
    }

    /// Copies of the first `n` rows of a table behind a key.
    pub fn page(&self, alloc: Global, table: u8, after: &[u8], n: u32) -> Result<Vec<Row>, NoMemory>
        ensures rows { IfOk result (λ page. page.items ≡ page_of self.now.rows table after.now n) }
        ensures shape { IfOk result (λ page. IsPage after.now n page.items) }
    {
        page_behind(alloc, rows_in(self.tables.as_slice(), table), after, n)
    }

    /// Lets a batch wait, in place of the one before, and takes the memory that it needs.
    pub fn room(&mut self, alloc: Global, batch: &[Change]) -> Result<(), NoMemory>
        ensures ok { OnOk result (self.new ≡ record self.old { made = changed batch.now self.old.rows }) }
        ensures err { OnErr result (self.new ≡ self.old) }
    {
        let waiting = copy_batch(alloc, batch)?;
        make_room(alloc, &mut self.tables, batch)?;
        self.waiting = waiting;
        Ok(())
    }

    /// Makes the changes of the batch that waits. It takes no memory.
    pub fn make(&mut self)
        ensures { self.new ≡ record self.old { rows = self.old.made } }
    {
        make_all(&mut self.tables, &mut self.waiting);
    }
}
