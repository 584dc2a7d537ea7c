ghost use Rattle.std.specs.Prelude.{◌≡◌};

use crate::changes::{free_one, replace};
use crate::finding::find_entry;
use crate::shelf::Shelf;
use crate::{asks, converts, lists, loads, owners, readmits};
use enq_base::{Name, NoMemory, Owner, UnitKey};
use lock_entry::{AskFault, Asked, Asker, Entry, LoadFault, LockName, LockStore, Request};
use std::alloc::Global;
use std::marker::Model;

/// A lock table whose entries are found by their tables, the literal bytes of their arguments, and their owners.
#[derive(Drop)]
pub struct IndexTable {
    limit: u32,
    shelf: Shelf,
}

impl Model for IndexTable {
    ghost use Rattle.lock_entry.specs.Table.{Table, IsTable};
    ghost use Rattle.lock_index.specs.Slots.{live};

    ghost Value = { Table };

    ghost view = { λ t. record { entries = live t.shelf; limit = t.limit } };

    ghost invariant = { λ t. IsTable (record { entries = live t.shelf; limit = t.limit }) };
}

impl LockStore for IndexTable {
    ghost table = { λ t. t };

    /// In constant time.
    fn empty(alloc: Global, limit: u32) -> Result<Self, NoMemory> {
        Ok(IndexTable {
            limit,
            shelf: Shelf::new(alloc),
        })
    }

    /// For each entry look-ups as those of `ask`.
    fn load(alloc: Global, limit: u32, entries: Vec<Entry>) -> Result<Self, LoadFault> {
        let shelf = loads::loaded(alloc, entries.as_slice())?;
        Ok(IndexTable { limit, shelf })
    }

    /// For each request it goes over the numbers of literal bytes that arguments of its table have, and over the
    /// entries with the same literal bytes; for a generic argument also over those with more literal bytes. The halves
    /// of one call are compared with one another. No other entry is looked at, but where most places are empty: the
    /// entries are then moved together, once for as many that went.
    fn ask(
        &mut self,
        alloc: Global,
        asker: &Asker,
        user: &Name,
        requests: &[Request],
    ) -> Result<(), AskFault> {
        match asks::first_bar(&self.shelf, asker, requests) {
            Some(entry) => return Err(AskFault::Foreign(*entry)),
            None => {}
        }
        asks::grant(alloc, self.limit, &mut self.shelf, asker, user, requests)
    }

    /// For each entry look-ups as those of `ask`, and as long as the owner's entries are many that go.
    fn readmit(&mut self, alloc: Global, asker: &Asker, entries: &[Entry]) -> Result<(), AskFault> {
        readmits::test(self.limit, &self.shelf, asker, entries)?;
        replace(alloc, &mut self.shelf, &asker.update, entries)?;
        Ok(())
    }

    /// It goes over the entries of the table with the same literal bytes.
    fn free_one(&mut self, owner: &Owner, asked: &Asked) -> bool {
        let name = LockName {
            owner: *owner,
            asked: *asked,
        };
        free_one(&mut self.shelf, &name)
    }

    /// It goes over the owner's entries.
    fn free_owner(&mut self, owner: &Owner) -> u32 {
        let count = owners::free_owner(&mut self.shelf, owner);
        count as u32
    }

    /// For each argument look-ups as those of `ask`, and as long as the entries of others are many that go, which are
    /// put in order.
    fn convert(
        &mut self,
        alloc: Global,
        asker: &Asker,
        asked: &[Asked],
    ) -> Result<Vec<Entry>, AskFault> {
        converts::test(&self.shelf, asker, asked)?;
        let removed = converts::convert(alloc, &mut self.shelf, asker, asked)?;
        Ok(removed)
    }

    /// It goes over the owner's entries.
    fn hand(&mut self, unit: &UnitKey) -> u32 {
        let count = owners::hand(&mut self.shelf, unit);
        count as u32
    }

    /// It goes over the entries of the table with the same literal bytes.
    fn find(&self, owner: &Owner, asked: &Asked) -> Option<Entry> {
        let name = LockName {
            owner: *owner,
            asked: *asked,
        };
        find_entry(&self.shelf, &name).copied()
    }

    /// It goes over all places.
    fn list(&self, alloc: Global) -> Result<Vec<Entry>, NoMemory> {
        lists::live_entries(alloc, self.shelf.slots())
    }

    /// It goes over the owner's entries, which are put in order.
    fn entries_of(&self, alloc: Global, owner: &Owner) -> Result<Vec<Entry>, NoMemory> {
        owners::entries_of(alloc, &self.shelf, owner)
    }

    /// It goes over the owner's entries.
    fn has_unhanded(&self, owner: &Owner) -> bool {
        owners::has_unhanded(&self.shelf, owner)
    }

    /// In constant time where no entry went since the entries were moved together; else it goes over the places up to
    /// that entry.
    fn at(&self, place: u32) -> Option<Entry> {
        lists::entry_at(&self.shelf, place)
    }

    /// In constant time.
    fn len(&self) -> u32 {
        self.shelf.len() as u32
    }
}
