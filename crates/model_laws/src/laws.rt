ghost use Rattle.std.specs.Prelude.{◌≡◌, Some};
ghost use Rattle.enq_base.specs.declared.refusal.Refusal.{Refusal};
ghost use Rattle.hall_model.specs.Calls.{Call};
ghost use Rattle.hall_model.specs.State.{State};
ghost use Rattle.hall_model.specs.Step.{Found, Refuses, call_verdict, unavailable};

/// What bars a call bars it whatever it asks for, and whatever is found of a change in flight.
pub fn barred_calls_are_refused()
    ensures refused { (found : Found) (s : State) (call : Call) (r : Refusal) → unavailable s call ≡ Some r
        → call_verdict found s call ≡ Refuses r }
{}
