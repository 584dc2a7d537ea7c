ghost use Rattle.std.specs.Prelude.{◌≡◌, ◌++◌, ◌∷◌, [], List, true, None, IfOk};
ghost use Rattle.std.specs.FinMap.{empty};
ghost use Rattle.module_effects.specs.Rows.{Tables};
ghost use Rattle.store_reading.specs.First.{first_wrong};
ghost use Rattle.store_reading.specs.Posts.{difference_from, is_business, is_right_post, post_fault};
ghost use Rattle.store_reading.specs.Posts.{rows_for, tables_by};
ghost use Rattle.store_reading.specs.Posting.{text_row, AreParts, AreTexts};
ghost use Rattle.update_records.specs.declared.stored.Record.{Record};

use crate::part_id::PartId;
use crate::parts::{effects_for, parts_of};
use crate::rules::Place;
use crate::text_id::{TextId, text_id};
use crate::texts::{is_refused, post};
use enq_base::{Effect, NoMemory, Text};
use std::alloc::Global;
use std::collections::{BTreeMap, HashMap};
use update_records::{MarkKind, Record, tables};

/// Whether a record may stand behind the marks so far, whose post is then done.
fn follow_post(
    alloc: Global,
    parts: &HashMap<PartId, Vec<Effect>>,
    texts: &mut BTreeMap<TextId, Text>,
    stored: &Record,
) -> Result<bool, NoMemory>
    ensures { (steps before : List Record) → AreParts parts.now steps → AreTexts texts.old (tables_by steps before)
        → IfOk result (λ right.
        (right ≡ is_right_post steps before stored.now)
        × (right ≡ true → AreTexts texts.new (tables_by steps (before ++ stored.now ∷ [])))) }
{
    let Record::Mark(mark) = stored else {
        return Ok(true);
    };
    let v1 = effects_for(parts, &mark.unit, 1);
    let v2 = effects_for(parts, &mark.unit, 2);
    match &mark.kind {
        MarkKind::V1 => post(alloc, texts, v1),
        MarkKind::Bad1 { index, reason } => is_refused(alloc, texts, v1, *index, *reason),
        MarkKind::V2 => post(alloc, texts, v2),
        MarkKind::Bad2 { index, reason } => is_refused(alloc, texts, v2, *index, *reason),
        _ => Ok(true),
    }
}

/// Posts the marks in order, up to the first that doesn't say what its part gives. Where there is none, the texts are
/// those that the marks leave.
fn post_marks(
    alloc: Global,
    steps: &[Record],
    marks: &[Record],
    texts: &mut BTreeMap<TextId, Text>,
) -> Result<Option<Place>, NoMemory>
    requires { AreTexts texts.old empty }
    ensures { IfOk result (λ fault. (fault ≡ first_wrong (is_right_post steps.now) 4 [] marks.now)
        × (fault ≡ None → AreTexts texts.new (tables_by steps.now marks.now))) }
{
    let parts = parts_of(alloc, steps)?;
    let mut row = 1;
    for stored in marks {
        if !follow_post(alloc, &parts, texts, stored)? {
            return Ok(Some(Place {
                table: tables::MARKS,
                row,
            }));
        }
        row += 1;
    }
    Ok(None)
}

/// The first mark of a post that doesn't say what its part gives in the tables of the marks before it.
pub fn wrong_post(
    alloc: Global,
    steps: &[Record],
    marks: &[Record],
) -> Result<Option<Place>, NoMemory>
    ensures { IfOk result (λ fault. fault ≡ first_wrong (is_right_post steps.now) 4 [] marks.now) }
{
    let mut texts = BTreeMap::new(alloc);
    post_marks(alloc, steps, marks, &mut texts)
}

/// Whether a business record is the row of this text.
fn is_row(id: &TextId, text: &Text, stored: &Record) -> bool
    ensures { result ≡ is_business (text_row (id.now, text.now)) stored.now }
{
    match stored {
        Record::Business {
            table,
            key,
            text: told,
        } => *id == text_id(table, key) && text.bytes() == told.bytes(),
        _ => false,
    }
}

/// The first place where business records aren't the rows of the texts, one behind the shorter of both where there is
/// none before.
fn difference(texts: &BTreeMap<TextId, Text>, business: &[Record]) -> Option<Place>
    ensures { (tables : Tables) → AreTexts texts.now tables
        → result ≡ difference_from 1 (rows_for tables) business.now }
{
    let mut rest = business;
    let mut row = 1;
    for (id, text) in texts {
        let Some((stored, others)) = rest.split_first() else {
            return Some(Place {
                table: tables::BUSINESS,
                row,
            });
        };
        if !is_row(id, text, stored) {
            return Some(Place {
                table: tables::BUSINESS,
                row,
            });
        }
        rest = others;
        row += 1;
    }
    if rest.is_empty() {
        return None;
    }
    Some(Place {
        table: tables::BUSINESS,
        row,
    })
}

/// The first mark of a post that doesn't say what its part gives, else the first row of table 6 that isn't what the
/// marks make of the business tables.
pub fn post_fault(
    alloc: Global,
    steps: &[Record],
    marks: &[Record],
    business: &[Record],
) -> Result<Option<Place>, NoMemory>
    ensures { IfOk result (λ place. place ≡ post_fault steps.now marks.now business.now) }
{
    let mut texts = BTreeMap::new(alloc);
    if let Some(place) = post_marks(alloc, steps, marks, &mut texts)? {
        return Ok(Some(place));
    }
    Ok(difference(&texts, business))
}
