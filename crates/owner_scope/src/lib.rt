//! Which of its two owners a lock request is for.
#![tactic(auto)]

ghost use Rattle.std.specs.Prelude.{◌≡◌};
ghost use Rattle.owner_scope.specs.Halves.{names_dialogue, names_update};

use enq_base::Scope;

/// Whether the scope names the dialogue owner, and whether it names the update owner (The SAP Lock Concept, `_SCOPE`).
pub fn halves(scope: Scope) -> (bool, bool)
    ensures dialogue { result.0 ≡ names_dialogue scope }
    ensures update { result.1 ≡ names_update scope }
{
    match scope {
        Scope::One => (true, false),
        Scope::Two => (false, true),
        Scope::Three => (true, true),
    }
}
