ghost use Rattle.std.specs.Prelude.{◌≡◌, map, Ok, OnOk, IfOk, IfErr, true, if◌then◌else◌};
ghost use Rattle.std.specs.BTreeMap.{get};
ghost use Rattle.module_effects.specs.Effects.{applied, IsFaultOf};
ghost use Rattle.module_effects.specs.Rows.{RowName, Tables, row_of};
ghost use Rattle.module_effects.specs.Spots.{is_at, with_spots};
ghost use Rattle.store_reading.specs.Ids.{text_cmp, text_id};
ghost use Rattle.store_reading.specs.Posts.{is_done, is_refused};
ghost use Rattle.store_reading.specs.Posting.{spot_for, AreTexts};
ghost use Rattle.update_records.specs.Business.{posted};
ghost use Rattle.update_records.specs.RecordRows.{reason_number};

use crate::text_id::{TextId, text_id};
use enq_base::{Effect, NoMemory, Reason, Text};
use module_effects::{EffectFault, Spot, apply};
use std::alloc::Global;
use std::collections::BTreeMap;

/// The row of an effect, with what it has now.
fn spot_for(
    alloc: Global,
    texts: &BTreeMap<TextId, Text>,
    effect: &Effect,
) -> Result<Spot, NoMemory>
    ensures { IfOk result (λ spot. spot ≡ spot_for texts.now effect.now) }
{
    let text = match texts.get(&text_id(&effect.table, &effect.key)) {
        Some(text) => Some(text.copy(alloc)?),
        None => None,
    };
    Ok(Spot {
        table: effect.table,
        key: effect.key,
        text,
    })
}

fn spots_for(
    alloc: Global,
    texts: &BTreeMap<TextId, Text>,
    effects: &[Effect],
) -> Result<Vec<Spot>, NoMemory>
    ensures { IfOk result (λ spots. spots.items ≡ map (spot_for texts.now) effects.now) }
{
    let mut spots = Vec::new(alloc);
    for effect in effects {
        spots.push(spot_for(alloc, texts, effect)?)?;
    }
    Ok(spots)
}

/// Leaves in its row what a spot has.
fn put_text(alloc: Global, texts: &mut BTreeMap<TextId, Text>, spot: &Spot) -> Result<(), NoMemory>
    ensures { OnOk result ((name : RowName) → get text_cmp texts.new (text_id name)
        ≡ (if is_at name spot.now then spot.now.text else get text_cmp texts.old (text_id name))) }
{
    let id = text_id(&spot.table, &spot.key);
    match &spot.text {
        Some(text) => {
            texts.insert(id, text.copy(alloc)?)?;
        }
        None => {
            texts.remove(&id);
        }
    }
    Ok(())
}

/// Leaves in each row what its spot has; where two are of one row, the first counts.
fn put_texts(
    alloc: Global,
    texts: &mut BTreeMap<TextId, Text>,
    spots: &[Spot],
) -> Result<(), NoMemory>
    ensures { OnOk result
        ((tables : Tables) → AreTexts texts.old tables → AreTexts texts.new (with_spots spots.now tables)) }
{
    for done in 0..spots.len() {
        put_text(alloc, texts, &spots[spots.len() - 1 - done])?;
    }
    Ok(())
}

/// What a part gives: the rows that it leaves, or the effect at which it is refused.
fn outcome(
    alloc: Global,
    texts: &BTreeMap<TextId, Text>,
    effects: &[Effect],
) -> Result<Vec<Spot>, EffectFault>
    ensures done { IfOk result
        (λ after. (tables : Tables) → AreTexts texts.now tables
        → applied effects.now tables ≡ Ok (with_spots after.items tables)) }
    ensures refused { IfErr result
        (λ fault. (tables : Tables) → AreTexts texts.now tables → IsFaultOf (applied effects.now tables) fault) }
{
    let spots = spots_for(alloc, texts, effects)?;
    apply(alloc, spots.as_slice(), effects)
}

/// Posts a part, and answers whether it is done. Where it is refused, nothing is promised of the texts.
pub fn post(
    alloc: Global,
    texts: &mut BTreeMap<TextId, Text>,
    effects: &[Effect],
) -> Result<bool, NoMemory>
    ensures { (tables : Tables) → AreTexts texts.old tables
        → IfOk result (λ done. (done ≡ is_done (applied effects.now tables))
        × (done ≡ true → AreTexts texts.new (posted effects.now tables))) }
{
    match outcome(alloc, texts, effects) {
        Ok(after) => {
            put_texts(alloc, texts, after.as_slice())?;
            Ok(true)
        }
        Err(EffectFault::Refused { .. }) => Ok(false),
        Err(EffectFault::NoMemory) => Err(NoMemory),
    }
}

fn reason_number(reason: Reason) -> u8
    ensures { result ≡ reason_number reason }
{
    match reason {
        Reason::Duplicate => 1,
        Reason::Missing => 2,
        Reason::NotNumber => 3,
        Reason::Overflow => 4,
    }
}

/// Whether a part is refused at this effect, for this reason.
pub fn is_refused(
    alloc: Global,
    texts: &BTreeMap<TextId, Text>,
    effects: &[Effect],
    index: u32,
    reason: Reason,
) -> Result<bool, NoMemory>
    ensures { (tables : Tables) → AreTexts texts.now tables
        → IfOk result (λ refused. refused ≡ is_refused index reason (applied effects.now tables)) }
{
    match outcome(alloc, texts, effects) {
        Ok(_) => Ok(false),
        Err(
            EffectFault::Refused {
                index: at,
                reason: why,
            },
        ) => Ok(index == at && reason_number(reason) == reason_number(why)),
        Err(EffectFault::NoMemory) => Err(NoMemory),
    }
}
