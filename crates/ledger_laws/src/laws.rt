ghost use Rattle.std.specs.Prelude.{◌≡◌, List};
ghost use Rattle.std.specs.List.{All};
ghost use Rattle.keeper_api.specs.Rows.{Rows};
ghost use Rattle.ledger_laws.specs.Books.{AreBooksRight, AreInTurn, HoldBooks, IsEachOnce};
ghost use Rattle.ledger_steps.specs.Views.{TellsRefusal, views_of};
ghost use Rattle.update_records.specs.Ledger.{Ledger, StandFor};
ghost use Rattle.update_records.specs.Marks.{IsLegal};
ghost use Rattle.update_records.specs.declared.records.Mark.{Mark};
ghost use Rattle.update_records.specs.declared.records.Unit.{Unit as UnitOfWork};

/// In legal marks no unit is recorded twice and no part of one posted twice, and each comes behind what it stands on.
/// So in a store that stands for a ledger each posted part counts once, and the business rows are what the posted parts
/// made.
pub fn lawful_books_are_right()
    ensures once { (units : List UnitOfWork) (marks : List Mark) → IsLegal units marks → IsEachOnce marks }
    ensures turn { (units : List UnitOfWork) (marks : List Mark) → IsLegal units marks → AreInTurn marks }
    ensures books { (rows : Rows) (ledger : Ledger) → StandFor rows ledger → AreBooksRight ledger }
    ensures tables { (rows : Rows) (ledger : Ledger) → StandFor rows ledger → HoldBooks rows ledger }
{}

/// Rows stand for one ledger at most.
pub fn rows_stand_for_one_ledger()
    ensures one { (rows : Rows) (a b : Ledger) → StandFor rows a → StandFor rows b → a ≡ b }
{}

/// Whatever marks a ledger has, a refusal is told of a unit just where its status is `Bad` or `Bad2`.
pub fn views_tell_refusals()
    ensures refused { (ledger : Ledger) → All TellsRefusal (views_of ledger) }
{}
