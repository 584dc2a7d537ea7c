ghost use Rattle.std.specs.Prelude.{◌≡◌, ◌↔◌, ◌≤◌, ◌+◌, length, IsTrue, IfOk, OnOk, true};
ghost use Rattle.std.specs.FinMap.{empty, get, insert, remove};
ghost use Rattle.std.specs.List.{list_any};
ghost use Rattle.std.specs.Option.{option_copied};
ghost use Rattle.module_effects.specs.Rows.{RowName, row_of, with_row};
ghost use Rattle.module_effects.specs.Spots.{covers, is_at, row_at, with_spots, Agree};
ghost use Rattle.business_rows.specs.Keys.{name_of};
ghost use Rattle.business_rows.specs.Touched.{HasRowsOnce};

use crate::business_key::{BusinessKey, key_of};
use enq_base::{Effect, Key, Name, NoMemory, Text};
use module_effects::Spot;
use std::alloc::Global;
use std::collections::HashMap;
use std::marker::Model;

/// Business rows by their names.
#[derive(Drop)]
pub struct BusinessRows {
    texts: HashMap<BusinessKey, Text>,
}

impl Model for BusinessRows {
    ghost use Rattle.std.specs.HashMap.{spare};
    ghost use Rattle.business_rows.specs.Kept.{RowsView, tables_in};

    ghost Value = { RowsView };

    ghost use Rattle.std.specs.Coded.{codes};
    ghost use Rattle.business_rows.specs.Kept.{tables_code};

    ghost coded = { Prim.hlevel (codes, tables_code) };

    ghost view = { λ r. record { tables = tables_in r.texts; room = spare r.texts } };
}

impl BusinessRows {
    pub fn new(alloc: Global) -> BusinessRows
        ensures { result.tables ≡ empty }
    {
        BusinessRows {
            texts: HashMap::new(alloc),
        }
    }

    /// The text of a row, where there is such a row.
    pub fn text(&self, table: &Name, key: &Key) -> Option<&Text>
        ensures { option_copied result ≡ get self.now.tables (table.now, key.now) }
    {
        self.texts.get(&key_of(table, key))
    }

    /// Takes the memory for so many more rows.
    pub fn make_room(&mut self, rows: usize) -> Result<(), NoMemory>
        ensures tables { self.new.tables ≡ self.old.tables }
        ensures room { OnOk result (rows ≤ self.new.room) }
    {
        self.texts.reserve(rows)?;
        Ok(())
    }

    /// Puts a text into a row.
    pub fn insert(&mut self, table: &Name, key: &Key, text: Text) -> Result<(), NoMemory>
        ensures { OnOk result (self.new.tables ≡ insert self.old.tables (table.now, key.now) text) }
    {
        match self.texts.insert(key_of(table, key), text) {
            Ok(_) => Ok(()),
            Err(_) => Err(NoMemory),
        }
    }

    /// Leaves in each row what its spot has; where two are of one row, the first counts. It takes no memory.
    pub fn put_all(&mut self, spots: Vec<Spot>)
        requires { length spots.items ≤ self.old.room }
        ensures { self.new.tables ≡ with_spots spots.items self.old.tables }
    {
        let mut rest = spots;
        while let Some(spot) = rest.pop() {
            self.put(spot);
        }
    }

    fn put(&mut self, spot: Spot)
        requires { 1 ≤ self.old.room }
        ensures tables { self.new.tables ≡ with_row self.old.tables (row_at spot) spot.text }
        ensures room { self.old.room ≤ self.new.room + 1 }
    {
        let key = key_of(&spot.table, &spot.key);
        match spot.text {
            Some(text) => self.set(key, text),
            None => self.clear(&key),
        }
    }

    /// Puts a text into a row, for which there is room.
    fn set(&mut self, key: BusinessKey, text: Text)
        requires { 1 ≤ self.old.room }
        ensures tables { self.new.tables ≡ insert self.old.tables (name_of key) text }
        ensures room { self.old.room ≤ self.new.room + 1 }
    {
        let _ = self.texts.insert(key, text);
    }

    fn clear(&mut self, key: &BusinessKey)
        ensures tables { self.new.tables ≡ remove self.old.tables (name_of key.now) }
        ensures room { self.old.room ≤ self.new.room }
    {
        let _ = self.texts.remove(key);
    }

    /// Whether each spot has what its row has.
    pub fn has_all(&self, spots: &[Spot]) -> bool
        ensures { IsTrue result ↔ Agree spots.now self.now.tables }
    {
        for spot in spots {
            if !self.has(spot) {
                return false;
            }
        }
        true
    }

    fn has(&self, spot: &Spot) -> bool
        ensures { IsTrue result ↔ (get self.now.tables (row_at spot.now) ≡ spot.now.text) }
    {
        match (self.text(&spot.table, &spot.key), &spot.text) {
            (Some(text), Some(given)) => text.bytes() == given.bytes(),
            (None, None) => true,
            _ => false,
        }
    }

    /// The rows that effects touch, each once, with what they have.
    pub fn touched(&self, alloc: Global, effects: &[Effect]) -> Result<Vec<Spot>, NoMemory>
        ensures covers { IfOk result (λ spots. IsTrue (covers spots.items effects.now)) }
        ensures once { IfOk result (λ spots. HasRowsOnce spots.items) }
        ensures present { IfOk result (λ spots. Agree spots.items self.now.tables) }
    {
        let mut spots = Vec::new(alloc);
        for effect in effects {
            self.touch(alloc, &mut spots, effect)?;
        }
        Ok(spots)
    }

    /// The row of an effect goes last, unless it has a spot.
    fn touch(&self, alloc: Global, spots: &mut Vec<Spot>, effect: &Effect) -> Result<(), NoMemory>
        ensures covered { OnOk result (list_any (is_at (row_of effect.now)) spots.new.items ≡ true) }
        ensures kept { OnOk result ((row : RowName) → list_any (is_at row) spots.old.items ≡ true
            → list_any (is_at row) spots.new.items ≡ true) }
        ensures once { OnOk result (HasRowsOnce spots.old.items → HasRowsOnce spots.new.items) }
        ensures present { OnOk result (Agree spots.old.items self.now.tables → Agree spots.new.items self.now.tables) }
    {
        if is_touched(spots.as_slice(), effect) {
            return Ok(());
        }
        let spot = self.spot_of(alloc, effect)?;
        spots.push(spot)?;
        Ok(())
    }

    /// The row of an effect, with what it has.
    fn spot_of(&self, alloc: Global, effect: &Effect) -> Result<Spot, NoMemory>
        ensures { IfOk result (λ spot. spot ≡ record
            { table = effect.now.table; key = effect.now.key; text = get self.now.tables (row_of effect.now) }) }
    {
        let text = match self.text(&effect.table, &effect.key) {
            Some(text) => Some(text.copy(alloc)?),
            None => None,
        };
        Ok(Spot {
            table: effect.table,
            key: effect.key,
            text,
        })
    }
}

/// Whether the row of an effect has a spot.
fn is_touched(spots: &[Spot], effect: &Effect) -> bool
    ensures { result ≡ list_any (is_at (row_of effect.now)) spots.now }
{
    spots.iter().any(|spot| is_spot_of(spot, effect))
}

fn is_spot_of(spot: &Spot, effect: &Effect) -> bool
    ensures { result ≡ is_at (row_of effect.now) spot.now }
{
    spot.table.bytes() == effect.table.bytes() && spot.key.bytes() == effect.key.bytes()
}

/// Equal spots.
pub fn copy_spots(alloc: Global, spots: &[Spot]) -> Result<Vec<Spot>, NoMemory>
    ensures { IfOk result (λ copies. copies.items ≡ spots.now) }
{
    let mut copies = Vec::new(alloc);
    for spot in spots {
        copies.push(copy_spot(alloc, spot)?)?;
    }
    Ok(copies)
}

fn copy_spot(alloc: Global, spot: &Spot) -> Result<Spot, NoMemory>
    ensures { IfOk result (λ copy. copy ≡ spot.now) }
{
    Ok(Spot {
        table: spot.table,
        key: spot.key,
        text: copy_text(alloc, &spot.text)?,
    })
}

fn copy_text(alloc: Global, text: &Option<Text>) -> Result<Option<Text>, NoMemory>
    ensures { IfOk result (λ copy. copy ≡ text.now) }
{
    match text {
        Some(text) => Ok(Some(text.copy(alloc)?)),
        None => Ok(None),
    }
}
