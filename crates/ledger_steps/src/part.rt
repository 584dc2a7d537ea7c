ghost use Rattle.std.specs.Prelude.{◌≡◌, ◌⊎◌};
ghost use Rattle.ledger_steps.specs.Parts.{is_first, part_at};
ghost use Rattle.ledger_steps.specs.Posts.{kind_for};

use crate::step::Outcome;
use update_records::MarkKind;

/// The parts of a unit.
#[derive(Clone, Copy, Debug, PartialEq, Eq)]
pub enum Part {
    V1,
    V2,
}

impl Part {
    /// The part of this number, where 1 is V1.
    pub fn at(number: u8) -> Part
        ensures { result ≡ part_at number }
    {
        if number == 1 { Part::V1 } else { Part::V2 }
    }

    /// Its number: 1 for V1, and 2 for V2.
    pub fn number(self) -> u8
        ensures part { part_at result ≡ self }
        ensures range { (result ≡ 1) ⊎ (result ≡ 2) }
    {
        match self {
            Part::V1 => 1,
            Part::V2 => 2,
        }
    }

    pub fn is_first(self) -> bool
        ensures { result ≡ is_first self }
    {
        match self {
            Part::V1 => true,
            Part::V2 => false,
        }
    }

    /// The mark of a part that came to this.
    pub fn kind_for(self, outcome: Outcome) -> MarkKind
        ensures { result ≡ kind_for self outcome }
    {
        match outcome {
            Outcome::Done => match self {
                Part::V1 => MarkKind::V1,
                Part::V2 => MarkKind::V2,
            },
            Outcome::Refused { index, reason } => match self {
                Part::V1 => MarkKind::Bad1 { index, reason },
                Part::V2 => MarkKind::Bad2 { index, reason },
            },
        }
    }
}
