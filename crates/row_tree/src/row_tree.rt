ghost use Rattle.std.specs.Prelude.{◌≡◌, IfOk, OnOk};
ghost use Rattle.std.specs.FinMap.{empty};
ghost use Rattle.keeper_api.specs.Batch.{changed, IsBatch};
ghost use Rattle.keeper_api.specs.Rows.{value_at, page_of, IsPage};

use crate::places::{page_behind, value_of};
use crate::row_key::{RowKey, copy_bytes, key_of};
use crate::steps::{Step, drop_all, make_all, wait_for};
use enq_base::NoMemory;
use keeper_api::{Bytes, Change, Row};
use std::alloc::Global;
use std::collections::{BTreeMap, VecDeque};
use std::marker::Model;

/// Rows in numbered tables, and a batch of changes that waits, with a place for each row that it changes.
#[derive(Drop)]
pub struct RowTree {
    places: BTreeMap<RowKey, Option<Bytes>>,
    waiting: VecDeque<Step>,
}

impl Model for RowTree {
    ghost use Rattle.std.specs.Prelude.{map};
    ghost use Rattle.std.specs.Coded.{codes};
    ghost use Rattle.keeper_api.specs.Batch.{changed};
    ghost use Rattle.row_tree.specs.Places.{AreInOrder, rows_of};
    ghost use Rattle.row_tree.specs.Steps.{change_of, ArePlaced, AreApart};
    ghost use Rattle.sorted_rows.specs.Views.{RowsView, rows_code};

    ghost Value = { RowsView };

    ghost coded = { Prim.hlevel (codes, rows_code) };

    ghost view = { λ a. record {
      rows = rows_of a.places.entries;
      made = changed (map change_of a.waiting.items) (rows_of a.places.entries);
    } };

    ghost invariant = { λ a. AreInOrder a.places.entries × ArePlaced a.places.entries a.waiting.items
        × AreApart a.waiting.items };
}

impl RowTree {
    /// No rows, and a batch without changes. It takes no memory.
    pub fn new(alloc: Global) -> RowTree
        ensures { result ≡ record { rows = empty; made = empty } }
    {
        RowTree {
            places: BTreeMap::new(alloc),
            waiting: VecDeque::new(alloc),
        }
    }

    /// A copy of a row's value.
    pub fn get(&self, alloc: Global, table: u8, key: &[u8]) -> Result<Option<Bytes>, NoMemory>
        ensures { IfOk result (λ value. value ≡ value_at self.now.rows table key.now) }
    {
        match value_of(&self.places, &key_of(alloc, table, key)?) {
            Some(value) => Ok(Some(copy_bytes(alloc, value.as_slice())?)),
            None => Ok(None),
        }
    }

    /// Copies of the first `n` rows of a table behind a key.
    pub fn page(&self, alloc: Global, table: u8, after: &[u8], n: u32) -> Result<Vec<Row>, NoMemory>
        ensures rows { IfOk result (λ page. page.items ≡ page_of self.now.rows table after.now n) }
        ensures shape { IfOk result (λ page. IsPage after.now n page.items) }
    {
        page_behind(alloc, &self.places, table, after, n)
    }

    /// Lets a batch wait, in place of the one before, and takes the memory that it needs. Without it no batch with
    /// changes waits.
    pub fn room(&mut self, alloc: Global, batch: &[Change]) -> Result<(), NoMemory>
        requires { IsBatch batch.now }
        ensures rows { self.new.rows ≡ self.old.rows }
        ensures made { OnOk result (self.new.made ≡ changed batch.now self.old.rows) }
    {
        drop_all(&mut self.places, &mut self.waiting);
        match wait_for(alloc, &mut self.places, &mut self.waiting, batch) {
            Ok(()) => Ok(()),
            Err(fault) => {
                drop_all(&mut self.places, &mut self.waiting);
                Err(fault)
            }
        }
    }

    /// Makes the changes of the batch that waits. It takes no memory.
    pub fn make(&mut self)
        ensures { self.new ≡ record self.old { rows = self.old.made } }
    {
        make_all(&mut self.places, &mut self.waiting);
    }
}
