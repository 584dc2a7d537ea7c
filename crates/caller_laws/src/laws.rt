ghost use Rattle.std.specs.Prelude.{◌≡◌, ℕ, Bool, true, false, List, map, Option, IsTrue};
ghost use Rattle.std.specs.List.{AllByRecursion, list_any};
ghost use Rattle.std.specs.List.Sorted.{IsPermutation};
ghost use Rattle.caller_laws.specs.Callers.{AreAmong, AreDistinct, AreTheirs, threads_of};
ghost use Rattle.caller_laws.specs.Doing.{Did, DidLines, IsThread, LeadsAlone, Left, LinesDid, Looked, Thread, WorkerDid, entries_of, nothing_asked};
ghost use Rattle.caller_laws.specs.Numbers.{DrewNumbers, IsNoBuffered};
ghost use Rattle.hall_model.specs.Calls.{who_of};
ghost use Rattle.hall_model.specs.declared.command.PastEntry.{PastEntry};
ghost use Rattle.hall_model.specs.declared.command.Who.{Who};
ghost use Rattle.hall_model.specs.declared.command.Who.TheVariants.{Session, Worker};
ghost use Rattle.order_workers.specs.Orders.{DidWork};
ghost use Rattle.script_actors.specs.Actors.{DeskView, Land};
ghost use Rattle.script_actors.specs.Doers.{is_same};
ghost use Rattle.script_actors.specs.Drawings.{calls_in};
ghost use Rattle.script_actors.specs.declared.actor.Said.{Said};
ghost use Rattle.script_actors.specs.declared.line.NumberedLine.{NumberedLine};

/// The calls that lines of an actor come to are the actor's.
pub fn calls_are_own()
    ensures own { (land : Land) (lines : List NumberedLine) (w : Who) (said : Option (List Said))
        (view : DeskView) → DidLines land lines w said nothing_asked view
        → AllByRecursion (λ c. who_of c.command ≡ w) (calls_in view.entries) }
{}

/// No call that lines of an actor come to is for a number of an interval with a buffer. What a session drew of such
/// intervals are numbers of stocks, and the calls by which it reserved numbers belong to its drawings.
pub fn numbers_come_from_stocks()
    ensures none { (land : Land) (lines : List NumberedLine) (w : Who) (said : Option (List Said)) (view : DeskView)
        → DidLines land lines w said nothing_asked view
        → AllByRecursion (λ c. IsNoBuffered land.intervals c.command) (calls_in view.entries) }
    ensures drew { (land : Land) (lines : List NumberedLine) (past : List PastEntry) (session : List ℕ) (left : Left)
        (full_at : Option ℕ) → LinesDid land lines past (Session session) left full_at
        → DrewNumbers land.intervals lines past session left }
{}

/// No two threads of a script have one caller.
pub fn callers_are_distinct()
    ensures distinct { (lines : List NumberedLine) (workers : ℕ) → AreDistinct (threads_of lines workers) }
{}

/// Of a history that is what several threads made, each in order, the calls of each caller are its thread's, and there
/// are no others.
pub fn history_is_of_callers<S>()
    ensures each { (past : S → List PastEntry) (land : Land) (lines : List NumberedLine)
        (log : List PastEntry) (threads : List Thread) → AreTheirs log → AreDistinct (map (λ t. t.who) threads)
        → IsPermutation log (entries_of threads) → AllByRecursion (IsThread past land lines log) threads
        → AllByRecursion (λ t. Did land lines log t.who t.left t.now.full_at) threads }
    ensures among { (past : S → List PastEntry) (land : Land) (lines : List NumberedLine)
        (log : List PastEntry) (threads : List Thread) → AreTheirs log
        → IsPermutation log (entries_of threads) → AllByRecursion (IsThread past land lines log) threads
        → AreAmong (map (λ t. t.who) threads) log }
{}

/// A worker that rested and goes on alone does as the loop does still, and nobody else's calls change.
pub fn worker_goes_on()
    ensures goes { (w : ℕ) (rests : Bool) (k l : Looked) → AreTheirs l.past → WorkerDid k.past w true k.full_at
        → DidWork LeadsAlone w rests k l → WorkerDid l.past w rests l.full_at }
    ensures others { (land : Land) (lines : List NumberedLine) (w : ℕ) (rests : Bool) (k l : Looked)
        (who : Who) (left : Left) (full_at : Option ℕ) → AreTheirs l.past → DidWork LeadsAlone w rests k l
        → is_same (Worker w) who ≡ false → Did land lines k.past who left full_at
        → Did land lines l.past who left full_at }
    ensures among { (callers : List Who) (w : ℕ) (rests : Bool) (k l : Looked) → AreTheirs l.past
        → DidWork LeadsAlone w rests k l → IsTrue (list_any (λ x. is_same x (Worker w)) callers)
        → AreAmong callers k.past → AreAmong callers l.past }
{}
