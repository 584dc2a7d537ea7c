ghost use Rattle.std.specs.Prelude.{◌≡◌, List, []};
ghost use Rattle.coverage.specs.Lacks.{Numbered, lacks};
ghost use Rattle.lock_objects.specs.Objects.{Object};
ghost use Rattle.cover_laws.specs.Safe.{Safe};

/// A script that lacks nothing is safe.
pub fn covered_are_safe()
    ensures safe { (objects : List Object) (lines : List Numbered) → lacks objects lines ≡ [] → Safe objects lines }
{}
