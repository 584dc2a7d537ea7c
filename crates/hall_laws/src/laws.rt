ghost use Rattle.std.specs.Prelude.{◌≡◌, ℕ, Bool, false};
ghost use Rattle.hall_model.specs.Acts.{IsAct};
ghost use Rattle.hall_model.specs.Calls.{call_of};
ghost use Rattle.hall_model.specs.History.{with_entry};
ghost use Rattle.hall_model.specs.Kept.{IsKept};
ghost use Rattle.hall_model.specs.State.{State};
ghost use Rattle.hall_model.specs.Step.{is_full};
ghost use Rattle.hall_model.specs.Stocks.{MayCall};
ghost use Rattle.hall_model.specs.declared.command.Command.{Command};
ghost use Rattle.hall_model.specs.declared.command.Reply.{Reply};

/// A call that is served from a state in order leaves one in order, once it is put into the history.
pub fn calls_keep_order()
    ensures kept { (s : State) (line : ℕ) (c : Command) (taken : Bool) (after : State) (r : Reply)
        → MayCall s (call_of c) → IsKept s → is_full s ≡ false → IsAct s c after r
        → IsKept (with_entry line c taken (record { state = after; reply = r })) }
{}
