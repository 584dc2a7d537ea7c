ghost use Rattle.std.specs.Prelude.{◌≡◌, ◌<◌, ℕ, Bool, true, List, None};
ghost use Rattle.caller_laws.specs.Callers.{AreTheirs};
ghost use Rattle.caller_laws.specs.Doing.{WorkerDid};
ghost use Rattle.hall_model.specs.Recall.{Made, calls_of, state_after};
ghost use Rattle.hall_model.specs.State.{State};
ghost use Rattle.order_laws.specs.Resting.{NoneWaits};
ghost use Rattle.caller_laws.specs.Rest.{BeganAt, IsIdle, RestedAlone, WentWell};

/// What comes of workers whose calls are those of their loops.
pub fn workers_rest()
    // A worker that didn't find the history full ends because nothing is left to do.
    ensures rest { (first : State) (made : List Made) (w : ℕ) (rests : Bool) → WentWell first made
        → AreTheirs (calls_of made) → w < 256 → WorkerDid (calls_of made) w rests None → rests ≡ true }
    // Behind a last look of one of them no unit waits for its V1 part or its V2 part.
    ensures none { (first : State) (made : List Made) (w : ℕ) (s : State) → WentWell first made
        → AreTheirs (calls_of made) → RestedAlone w s (state_after first made)
        → BeganAt first s
        → ((v : ℕ) → v < 256 → IsIdle (calls_of made) v) → NoneWaits (state_after first made) }
{}
