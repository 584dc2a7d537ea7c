ghost use Rattle.std.specs.Prelude.{◌≡◌, ◌≤◌, ◌&&◌, ℕ, true, false, List, length};
ghost use Rattle.hall_model.specs.Calls.{call_of};
ghost use Rattle.hall_model.specs.History.{IsStep};
ghost use Rattle.hall_model.specs.Recall.{AreModelAnswers, Made, state_after};
ghost use Rattle.hall_model.specs.State.{State};
ghost use Rattle.hall_model.specs.declared.command.Command.{Command};
ghost use Rattle.hall_model.specs.declared.command.Reply.{Reply};
ghost use Rattle.order_laws.specs.Behind.{is_post};
ghost use Rattle.order_workers.specs.Orders.{is_idle};
ghost use Rattle.script_actors.specs.Actors.{is_full};

/// A call is refused for a full history only where that is full, and no history grows longer.
pub fn histories_end()
    ensures full { (s t : State) (line : ℕ) (c : Command) (r : Reply) → IsStep s t line c r → is_full r ≡ true
        → 262144 ≤ length t.past }
    ensures most { (first : State) (made : List Made) → length first.past ≤ 262144 → AreModelAnswers first made
        → length (state_after first made).past ≤ 262144 }
{}

/// A post isn't answered that there is no unit to take.
pub fn posts_are_not_idle()
    ensures posts { (s t : State) (line : ℕ) (c : Command) (r : Reply) → IsStep s t line c r
        → (is_post (call_of c) && is_idle r) ≡ false }
{}
