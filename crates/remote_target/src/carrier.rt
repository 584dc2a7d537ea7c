ghost use mathlib.Core.List.{IsPrefix};
ghost use Rattle.std.specs.Prelude.{◌≡◌, ℕ, List, Option, Some, IfOk, IfSome, is_some};
ghost use Rattle.remote_target.specs.Carrying.{HasTurnCause};
ghost use Rattle.remote_target.specs.Runs.{Execution, executed_as};

use crate::call::CallAnswer;
use enq_base::{Key, NoMemory, Text};
use std::alloc::Global;

/// What carries calls to a target and answers back. It may lose, repeat and reorder both.
pub trait Carrier {
    // How often a turn gave no answer of its own call, up to the count's end.
    ghost misses: { Self → ℕ };

    // The calls that its target executed, the earliest first, where the target's keeper tells its rows.
    ghost executed: { Self → Option (List Execution) };

    /// Sends a call, and gives an answer that the target ever gave, of this call or of another one, or none.
    fn turn(
        &mut self,
        alloc: Global,
        tid: &Key,
        text: &Text,
    ) -> Result<Option<CallAnswer>, NoMemory>
        ensures cause { HasTurnCause (misses self.old) (misses self.new) tid.now result }
        ensures told { is_some (executed self.new) ≡ is_some (executed self.old) }
        // Calls come only behind those that were executed before.
        ensures kept { IfSome (executed self.old)
            (λ before. IfSome (executed self.new) (λ now. IsPrefix before now)) }
        // An answer has the outcome with which the call of its identifier was executed.
        ensures answered { IfOk result (λ answer. IfSome answer (λ answer. IfSome (executed self.new)
            (λ now. executed_as answer.tid now ≡ Some answer.outcome))) };
}
