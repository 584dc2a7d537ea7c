ghost use Rattle.std.specs.Prelude.{List};
ghost use Rattle.keeper_api.specs.Batch.{changed};
ghost use Rattle.keeper_api.specs.Rows.{Rows};
ghost use Rattle.remote_target.specs.Rows.{StandFor, changes_of};
ghost use Rattle.remote_target.specs.Runs.{Call, Ran, ran};
ghost use Rattle.remote_target.specs.Once.{Event, AreOnce, world_after};

/// Whatever is lost, repeated or reordered, and wherever either side stops: no identifier is executed twice, each
/// executed call is one of the outbox, each outcome in the outbox is the one with which the call was executed, and the
/// target's rows are what the executed calls make of none, in their order.
pub fn each_call_is_executed_once()
    ensures once { (events : List Event) → AreOnce (world_after events) }
{}

/// The changes that a call writes make, of the rows of a target, those of the target after the call.
pub fn changes_make_the_rows_after_a_call()
    ensures stands { (rows : Rows) (r : Ran) (call : Call) → StandFor rows r
        → StandFor (changed (changes_of call r) rows) (ran call r) }
{}
