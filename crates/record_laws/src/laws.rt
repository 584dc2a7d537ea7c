ghost use Rattle.std.specs.Prelude.{◌≡◌, List, [], ◌∷◌, ◌++◌};
ghost use Rattle.update_records.specs.Business.{numbers_in, numbers_of};
ghost use Rattle.update_records.specs.declared.records.Mark.{Mark};
ghost use Rattle.update_records.specs.declared.records.Unit.{Unit as UnitOfWork};

/// One more mark adds the numbers that are committed with it, behind those of the marks before it.
pub fn marks_add_their_numbers()
    ensures numbers { (units : List UnitOfWork) (marks : List Mark) (m : Mark)
        → numbers_of units (marks ++ m ∷ []) ≡ numbers_of units marks ++ numbers_in units m }
{}
