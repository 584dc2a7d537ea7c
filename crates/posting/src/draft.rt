ghost use Rattle.std.specs.Prelude.{◌≡◌, IfOk, IsTrue};
ghost use Rattle.module_effects.specs.Rows.{Tables};
ghost use Rattle.module_effects.specs.Spots.{covers, Agree};
ghost use Rattle.ledger_steps.specs.Posts.{HasDistinctRows, IsPost};
ghost use Rattle.posting.specs.Drafts.{IsDraftOf, IsWorked};

use crate::sameness::are_same;
use business_rows::{BusinessRows, copy_spots};
use enq_base::{Effect, Items, NoMemory, UnitKey};
use ledger_steps::Outcome;
use module_effects::{EffectFault, Spot, apply};
use std::alloc::Global;
use std::marker::Model;

/// The V1 part of a unit, and each row that it touches with the text that the row had when the part was drafted.
#[derive(Drop)]
pub struct Draft {
    unit: UnitKey,
    effects: Items<Effect>,
    rows: Items<Spot>,
}

impl Model for Draft {
    ghost use Rattle.posting.specs.Drafts.{AreTouched, DraftView};

    ghost Value = { DraftView };

    ghost view = { λ d. record { unit = d.unit; effects = d.effects; rows = d.rows } };

    ghost invariant = { λ d. AreTouched d.effects d.rows };
}

impl Draft {
    /// The draft of effects of a unit.
    pub(crate) fn new(
        alloc: Global,
        unit: &UnitKey,
        effects: &[Effect],
        rows: &BusinessRows,
    ) -> Result<Draft, NoMemory>
        ensures { IfOk result (IsDraftOf unit.now effects.now rows.now.tables) }
    {
        let touched = rows.touched(alloc, effects)?;
        let part = copy_effects(alloc, effects)?;
        Ok(Draft {
            unit: *unit,
            effects: Items::from_vec(part),
            rows: Items::from_vec(touched),
        })
    }

    /// Works the part on the drafted rows.
    pub fn work(self, alloc: Global) -> Result<Worked, NoMemory>
        ensures draft { IfOk result (λ worked. worked.draft ≡ self) }
        ensures comes { IfOk result IsWorked }
    {
        let (rows, outcome) = work_on(alloc, self.rows.as_slice(), self.effects.as_slice())?;
        Ok(Worked {
            draft: self,
            outcome,
            rows: Items::from_vec(rows),
        })
    }
}

/// A draft with what it came to, and the rows that it leaves.
#[derive(Drop)]
pub struct Worked {
    draft: Draft,
    outcome: Outcome,
    rows: Items<Spot>,
}

impl Model for Worked {
    ghost use Rattle.posting.specs.Drafts.{IsWorked, WorkedView};

    ghost Value = { WorkedView };

    ghost view = { λ w. record { draft = w.draft; outcome = w.outcome; rows = w.rows } };

    ghost invariant = { λ w. IsWorked (record { draft = w.draft; outcome = w.outcome; rows = w.rows }) };
}

impl Worked {
    /// The unit whose part was worked. It takes no memory.
    pub fn unit(&self) -> UnitKey
        ensures { result ≡ self.now.draft.unit }
    {
        self.draft.unit
    }

    /// Whether these effects of this unit were worked, on the rows as they are.
    fn fits(&self, unit: &UnitKey, effects: &[Effect], rows: &BusinessRows) -> bool
        ensures effects { IsTrue result → self.now.draft.effects ≡ effects.now }
        ensures present { IsTrue result → Agree self.now.draft.rows rows.now.tables }
    {
        self.draft.unit.is(unit)
            && are_same(self.draft.effects.as_slice(), effects)
            && rows.has_all(self.draft.rows.as_slice())
    }

    /// What the part came to, and the rows that it leaves.
    fn outcome(&self, alloc: Global) -> Result<(Vec<Spot>, Outcome), NoMemory>
        ensures rows { IfOk result (λ r. r.0.items ≡ self.now.rows) }
        ensures outcome { IfOk result (λ r. r.1 ≡ self.now.outcome) }
        ensures comes { (tables : Tables) → Agree self.now.draft.rows tables
            → IfOk result (λ r. IsPost self.now.draft.effects tables r.1 r.0.items) }
        ensures once { IfOk result (λ r. HasDistinctRows r.0.items) }
    {
        let rows = copy_spots(alloc, self.rows.as_slice())?;
        Ok((rows, self.outcome))
    }
}

/// What effects of a unit come to, and the rows that they leave, none twice; where one is refused, none. What was
/// worked before is taken where it was these effects of this unit, on the rows as they are.
pub fn post(
    alloc: Global,
    rows: &BusinessRows,
    unit: &UnitKey,
    effects: &[Effect],
    worked: Option<&Worked>,
) -> Result<(Vec<Spot>, Outcome), NoMemory>
    ensures post { IfOk result (λ r. IsPost effects.now rows.now.tables r.1 r.0.items) }
    ensures once { IfOk result (λ r. HasDistinctRows r.0.items) }
{
    match worked {
        Some(worked) => post_worked(alloc, rows, unit, effects, worked),
        None => post_anew(alloc, rows, effects),
    }
}

fn post_worked(
    alloc: Global,
    rows: &BusinessRows,
    unit: &UnitKey,
    effects: &[Effect],
    worked: &Worked,
) -> Result<(Vec<Spot>, Outcome), NoMemory>
    ensures post { IfOk result (λ r. IsPost effects.now rows.now.tables r.1 r.0.items) }
    ensures once { IfOk result (λ r. HasDistinctRows r.0.items) }
{
    if worked.fits(unit, effects, rows) {
        worked.outcome(alloc)
    } else {
        post_anew(alloc, rows, effects)
    }
}

fn post_anew(
    alloc: Global,
    rows: &BusinessRows,
    effects: &[Effect],
) -> Result<(Vec<Spot>, Outcome), NoMemory>
    ensures post { IfOk result (λ r. IsPost effects.now rows.now.tables r.1 r.0.items) }
    ensures once { IfOk result (λ r. HasDistinctRows r.0.items) }
{
    let touched = rows.touched(alloc, effects)?;
    work_on(alloc, touched.as_slice(), effects)
}

/// What effects come to on rows that have what the spots have.
fn work_on(
    alloc: Global,
    spots: &[Spot],
    effects: &[Effect],
) -> Result<(Vec<Spot>, Outcome), NoMemory>
    requires { IsTrue (covers spots.now effects.now) }
    ensures comes { (tables : Tables) → Agree spots.now tables
        → IfOk result (λ r. IsPost effects.now tables r.1 r.0.items) }
    ensures once { HasDistinctRows spots.now → IfOk result (λ r. HasDistinctRows r.0.items) }
{
    match apply(alloc, spots, effects) {
        Ok(after) => Ok((after, Outcome::Done)),
        Err(EffectFault::Refused { index, reason }) => {
            Ok((Vec::new(alloc), Outcome::Refused { index, reason }))
        }
        Err(EffectFault::NoMemory) => Err(NoMemory),
    }
}

fn copy_effects(alloc: Global, effects: &[Effect]) -> Result<Vec<Effect>, NoMemory>
    ensures { IfOk result (λ copies. copies.items ≡ effects.now) }
{
    let mut copies = Vec::new(alloc);
    for effect in effects {
        copies.push(effect.copy(alloc)?)?;
    }
    Ok(copies)
}
