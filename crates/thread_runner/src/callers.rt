ghost use Rattle.std.specs.Prelude.{◌≡◌, ◌∷◌, ◌++◌, map, IfOk};
ghost use Rattle.caller_laws.specs.Callers.{workers_to};

use enq_base::{Name, NoMemory};
use hall_model::Who;
use std::alloc::Global;

/// Who does the work: the sessions in the order of their first lines, the administrator, and so many workers.
pub(crate) fn callers_of(alloc: Global, names: &[Name], workers: u8) -> Result<Vec<Who>, NoMemory>
    ensures callers { IfOk result
        (λ callers. callers.items ≡ map (λ name. Who.Session name) names.now ++ Who.Admin ∷ workers_to workers) }
{
    let mut callers = Vec::new(alloc);
    for name in names {
        callers.push(Who::Session(*name))?;
    }
    callers.push(Who::Admin)?;
    for worker in 0..workers {
        callers.push(Who::Worker(worker + 1))?;
    }
    Ok(callers)
}
