ghost use Rattle.std.specs.Prelude.{◌≡◌, ◌↔◌, ◌<◌, ◌++◌, ℕ, true, false, List, Some, None};
ghost use Rattle.enq_base.specs.declared.condition.Condition.TheVariants.{Up};
ghost use Rattle.enq_base.specs.declared.owner.UnitKey.{UnitKey};
ghost use Rattle.enq_base.specs.declared.refusal.Refusal.{Refusal};
ghost use Rattle.enq_base.specs.declared.refusal.Refusal.TheVariants.{Idle, LogFull, WorkerBusy};
ghost use Rattle.hall_model.specs.Calls.{OfWorker, Posts, Takes, call_of};
ghost use Rattle.hall_model.specs.History.{IsStep};
ghost use Rattle.hall_model.specs.Kept.{IsKept};
ghost use Rattle.hall_model.specs.Orders.{first_unclaimed, order_for, order_of};
ghost use Rattle.hall_model.specs.Recall.{AreModelAnswers, IsModelAnswer, Made, calls_of, state_after};
ghost use Rattle.hall_model.specs.State.{State};
ghost use Rattle.hall_model.specs.declared.command.Command.{Command};
ghost use Rattle.hall_model.specs.declared.command.PastEntry.{PastEntry};
ghost use Rattle.hall_model.specs.declared.command.Reply.TheVariants.{Refused};
ghost use Rattle.ledger_steps.specs.declared.part.Part.{Part};
ghost use Rattle.ledger_steps.specs.declared.part.Part.TheVariants.{V1, V2};
ghost use Rattle.ledger_steps.specs.Steps.{waiting_for};
ghost use Rattle.order_laws.specs.Behind.{HasNoTrouble, IsFresh, NoneHasOrder, StaysUp, is_post, is_trouble, order_after, up_after, wants};
ghost use Rattle.order_laws.specs.Resting.{AllRest, AllRestBehind, AreClaimed, FindsNone, NoneOffers, NoneWaits, OrdersStand, is_done_unless, may_refuse_post, may_refuse_take};

/// What a history tells of the lock server and of the orders is so in the state to which it leads. Without trouble the
/// server stays up.
pub fn orders_are_told()
    ensures up { (first : State) (made : List Made) → IsFresh first → AreModelAnswers first made
        → ((state_after first made).condition ≡ Up) ↔ (up_after (calls_of made) ≡ true) }
    ensures orders { (first : State) (made : List Made) (worker : ℕ) → IsFresh first → AreModelAnswers first made
        → worker < 256 → order_of (state_after first made).orders worker ≡ order_after worker (calls_of made) }
    ensures steady { (first : State) (made : List Made) → IsFresh first → AreModelAnswers first made
        → HasNoTrouble (calls_of made) → StaysUp first made }
{}

/// While the server is up a worker gets an order where there is one, the order stands until its next call, and its post
/// is done unless a device fails or room is wanting.
pub fn orders_are_done()
    ensures takes { (s : State) (m : Made) (worker : ℕ) (part : Part) → s.condition ≡ Up
        → call_of m.call.command ≡ OfWorker worker (Takes part) → IsModelAnswer s m
        → is_done_unless may_refuse_take m.call.reply ≡ true }
    ensures busy { (s : State) (m : Made) (worker : ℕ) (part : Part) (unit : UnitKey) → s.condition ≡ Up
        → call_of m.call.command ≡ OfWorker worker (Takes part) → IsModelAnswer s m
        → m.call.reply ≡ Refused (WorkerBusy unit) → order_of s.orders worker ≡ Some unit }
    ensures stand { (first : State) (made : List Made) → IsFresh first → AreModelAnswers first made
        → OrdersStand first made }
    ensures posts { (s : State) (m : Made) (worker : ℕ) (part : Part) (unit : UnitKey) → s.condition ≡ Up
        → order_for part s.stored s.orders worker ≡ Some unit
        → call_of m.call.command ≡ OfWorker worker (Posts part) → IsModelAnswer s m
        → is_done_unless may_refuse_post m.call.reply ≡ true }
    ensures full { (call : PastEntry) (r : Refusal) → is_post (call_of call.command) ≡ true
        → is_done_unless may_refuse_post call.reply ≡ true → call.reply ≡ Refused r → is_trouble call ≡ false
        → wants call ≡ false → r ≡ LogFull }
{}

/// Where no worker has an order and none finds one to take, no unit waits.
pub fn none_waits_at_rest()
    ensures idle { (s t : State) (line : ℕ) (c : Command) (worker : ℕ) (part : Part) → s.condition ≡ Up
        → call_of c ≡ OfWorker worker (Takes part) → IsStep s t line c (Refused Idle) → FindsNone s t worker part }
    ensures claimed { (part : Part) (s : State) → first_unclaimed s.orders (waiting_for part s.stored) ≡ None
        → AreClaimed part s }
    ensures stay { (first : State) (made : List Made) → AreModelAnswers first made → NoneOffers (calls_of made)
        → AreClaimed V1 first → AreClaimed V1 (state_after first made) }
    ensures claims { (s : State) → IsKept s → NoneHasOrder s → AreClaimed V1 s → AreClaimed V2 s → NoneWaits s }
    ensures behind { (first : State) (earlier later : List Made) → IsFresh first
        → AreModelAnswers first (earlier ++ later) → AllRestBehind first earlier later
        → NoneWaits (state_after first (earlier ++ later)) }
    ensures rest { (s : State) → IsKept s → AllRest s → NoneWaits s }
{}
