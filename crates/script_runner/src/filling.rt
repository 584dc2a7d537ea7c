ghost use Rattle.std.specs.Prelude.{ℕ, List};
ghost use Rattle.dialogue_session.specs.Filling.{filled};
ghost use Rattle.script_runner.specs.Answers.{IsGivenBy};

use dialogue_session::{Dialogue, Resolved};
use enq_base::Refusal;
use std::alloc::Global;

/// A part of a session's line with texts in place of variables.
pub(crate) fn part_of<'a>(
    alloc: Global,
    side: &Dialogue,
    part: &'a [u8],
) -> Result<Resolved<'a>, Refusal>
    ensures { IsGivenBy (λ (text : List ℕ). text) (filled side.now.side.variables part.now) result }
{
    side.resolve(alloc, part)
}
