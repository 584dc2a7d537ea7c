ghost use Rattle.std.specs.Prelude.{◌≡◌, ℕ, Bool, false, None, Some};
ghost use Rattle.std.specs.Option.{option_map_or};
ghost use Rattle.enq_base.specs.Causes.{Rose};
ghost use Rattle.enq_base.specs.declared.refusal.Refusal.TheVariants as refusal;
ghost use Rattle.hall_model.specs.State.{State};
ghost use Rattle.script_runner.specs.Faults.{answer_at, tells_other};
ghost use Rattle.script_runner.specs.Replay.{IsDoubted, doubt_of};
ghost use Rattle.turn_desks.specs.Led.{Counts, IsLed};

/// A server comes to be in doubt only by a call in which the store failed, or the disk of the backup file, or in which
/// no lock server could be made anew; and such a device's count has risen.
pub fn doubts_have_causes()
    ensures store { (told tells linked : Bool) (first s : State) (before now : Counts) (k : ℕ)
        → IsLed told tells linked first before s now → doubt_of first ≡ None → doubt_of s ≡ Some k
        → option_map_or tells_other (answer_at s.past k) false ≡ false → Rose before.store now.store }
    ensures file { (told tells linked : Bool) (first s : State) (before now : Counts) (k : ℕ)
        → IsLed told tells linked first before s now → doubt_of first ≡ None → IsDoubted s k refusal.BackupFault
        → Rose before.file now.file }
{}
