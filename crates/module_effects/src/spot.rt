ghost use Rattle.std.specs.Prelude.{◌≡◌, IfOk};
ghost use Rattle.std.specs.List.{position, list_any};
ghost use Rattle.module_effects.specs.Spots as rows;
ghost use Rattle.module_effects.specs.Rows.{row_of};

use enq_base::{Effect, Key, Name, NoMemory, Text};
use std::alloc::Global;

/// A business row and its present text, where there is such a row.
#[derive(Debug, Drop)]
pub struct Spot {
    pub table: Name,
    pub key: Key,
    pub text: Option<Text>,
}

/// Whether each row that the effects change has a spot.
pub fn covers(spots: &[Spot], effects: &[Effect]) -> bool
    ensures { result ≡ rows.covers spots.now effects.now }
{
    effects.iter().all(|effect| has_spot(spots, effect))
}

fn has_spot(spots: &[Spot], effect: &Effect) -> bool
    ensures { result ≡ list_any (rows.is_at (row_of effect.now)) spots.now }
{
    spots.iter().any(|spot| is_spot_of(spot, effect))
}

fn is_spot_of(spot: &Spot, effect: &Effect) -> bool
    ensures { result ≡ rows.is_at (row_of effect.now) spot.now }
{
    spot.table.bytes() == effect.table.bytes() && spot.key.bytes() == effect.key.bytes()
}

/// The first spot of the effect's row.
pub fn place_of(spots: &[Spot], effect: &Effect) -> Option<usize>
    ensures { result ≡ position (rows.is_at (row_of effect.now)) spots.now }
{
    spots.iter().position(|spot| is_spot_of(spot, effect))
}

pub fn copy_spots(alloc: Global, spots: &[Spot]) -> Result<Vec<Spot>, NoMemory>
    ensures { IfOk result (λ copies. copies.items ≡ spots.now) }
{
    let mut copies = Vec::with_capacity(alloc, spots.len())?;
    for spot in spots {
        copies.push(copy_spot(alloc, spot)?)?;
    }
    Ok(copies)
}

fn copy_spot(alloc: Global, spot: &Spot) -> Result<Spot, NoMemory>
    ensures { IfOk result (λ copy. copy ≡ spot.now) }
{
    Ok(Spot {
        table: spot.table,
        key: spot.key,
        text: copy_text(alloc, &spot.text)?,
    })
}

fn copy_text(alloc: Global, text: &Option<Text>) -> Result<Option<Text>, NoMemory>
    ensures { IfOk result (λ copy. copy ≡ text.now) }
{
    match text {
        None => Ok(None),
        Some(text) => Ok(Some(text.copy(alloc)?)),
    }
}
