ghost use Rattle.std.specs.Prelude.{◌≡◌, ℕ, List};
ghost use Rattle.backup_file.specs.File.{Stands, IsBad};
ghost use Rattle.backup_file.specs.declared.handed.Handed.{Handed};

/// In either version bytes stand for one list of lists at most, or break at one offset.
pub fn one_meaning()
    ensures stands { (bytes : List ℕ) (l m : List Handed) → Stands bytes l → Stands bytes m → l ≡ m }
    ensures breaks { (bytes : List ℕ) (at here : ℕ) → IsBad bytes at → IsBad bytes here → at ≡ here }
    ensures not_both { (bytes : List ℕ) (l : List Handed) (at : ℕ) → Stands bytes l → IsBad bytes at → ⊥ }
{}
