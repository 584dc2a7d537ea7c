ghost use Rattle.std.specs.Prelude.{◌≡◌, ◌++◌, ◌∷◌, [], map, IsTrue, IfOk, OnOk, is_some};
ghost use Rattle.keeper_api.specs.Batch.{changed, changed_once};
ghost use Rattle.keeper_api.specs.Rows.{Spot};
ghost use Rattle.row_tree.specs.Keys.{spot};
ghost use Rattle.row_tree.specs.Places.{AreInOrder, place_at, rows_of};
ghost use Rattle.row_tree.specs.Steps.{change_of, HasPlace, ArePlaced, AreApart};

use crate::places::{Places, give_back, keep_place, put_row, remove_row};
use crate::row_key::{RowKey, copy_bytes, key_of};
use enq_base::NoMemory;
use keeper_api::{Bytes, Change};
use std::alloc::Global;
use std::collections::VecDeque;

/// The value that a change leaves in its row, or none where the row goes.
#[derive(Drop)]
pub struct Step {
    pub key: RowKey,
    pub value: Option<Bytes>,
}

fn step_of(alloc: Global, change: &Change) -> Result<Step, NoMemory>
    ensures { IfOk result (λ step. change_of step ≡ change.now) }
{
    match change {
        Change::Put { table, key, value } => Ok(Step {
            key: key_of(alloc, *table, key.as_slice())?,
            value: Some(copy_bytes(alloc, value.as_slice())?),
        }),
        Change::Del { table, key } => Ok(Step {
            key: key_of(alloc, *table, key.as_slice())?,
            value: None,
        }),
    }
}

/// Lets a change wait behind others, and keeps a place for its row.
fn wait_behind(
    alloc: Global,
    places: &mut Places,
    waiting: &mut VecDeque<Step>,
    change: &Change,
) -> Result<(), NoMemory>
    requires { AreInOrder places.old.entries }
    ensures order { AreInOrder places.new.entries }
    ensures rows { rows_of places.new.entries ≡ rows_of places.old.entries }
    ensures waits { OnOk result (map change_of waiting.new.items ≡ map change_of waiting.old.items ++ change.now ∷ []) }
    ensures placed { OnOk result (ArePlaced places.old.entries waiting.old.items
        → ArePlaced places.new.entries waiting.new.items) }
{
    let step = step_of(alloc, change)?;
    keep_place(
        places,
        key_of(alloc, step.key.table, step.key.key.as_slice())?,
    )?;
    waiting.push_back(step)?;
    Ok(())
}

/// Lets a batch wait, and keeps a place for each row that it changes.
pub fn wait_for(
    alloc: Global,
    places: &mut Places,
    waiting: &mut VecDeque<Step>,
    batch: &[Change],
) -> Result<(), NoMemory>
    requires order { AreInOrder places.old.entries }
    requires none { waiting.old.items ≡ [] }
    ensures order { AreInOrder places.new.entries }
    ensures rows { rows_of places.new.entries ≡ rows_of places.old.entries }
    ensures waits { OnOk result (map change_of waiting.new.items ≡ batch.now) }
    ensures placed { OnOk result (ArePlaced places.new.entries waiting.new.items) }
{
    let mut rest = batch;
    while let [first, after @ ..] = rest {
        wait_behind(alloc, places, waiting, first)?;
        rest = after;
    }
    Ok(())
}

/// Gives the places back that were kept for the batch that waits, which is forgotten.
pub fn drop_all(places: &mut Places, waiting: &mut VecDeque<Step>)
    requires { AreInOrder places.old.entries }
    ensures order { AreInOrder places.new.entries }
    ensures rows { rows_of places.new.entries ≡ rows_of places.old.entries }
    ensures none { waiting.new.items ≡ [] }
{
    while let Some(step) = waiting.pop_front() {
        give_back(places, &step.key);
    }
}

fn make_step(places: &mut Places, step: Step)
    requires order { AreInOrder places.old.entries }
    requires place { HasPlace places.old.entries step }
    ensures order { AreInOrder places.new.entries }
    ensures rows { rows_of places.new.entries ≡ changed_once (change_of step) (rows_of places.old.entries) }
    ensures others { (at : Spot) → (at ≡ spot step.key → ⊥) → IsTrue (is_some (place_at places.old.entries at))
        → IsTrue (is_some (place_at places.new.entries at)) }
{
    let Step { key, value } = step;
    match value {
        Some(value) => put_row(places, key, value),
        None => remove_row(places, &key),
    }
}

/// Makes the changes that wait. It takes no memory.
pub fn make_all(places: &mut Places, waiting: &mut VecDeque<Step>)
    requires order { AreInOrder places.old.entries }
    requires placed { ArePlaced places.old.entries waiting.old.items }
    requires apart { AreApart waiting.old.items }
    ensures order { AreInOrder places.new.entries }
    ensures rows { rows_of places.new.entries
        ≡ changed (map change_of waiting.old.items) (rows_of places.old.entries) }
    ensures none { waiting.new.items ≡ [] }
{
    while let Some(step) = waiting.pop_front() {
        make_step(places, step);
    }
}
