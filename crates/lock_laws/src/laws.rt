ghost use Rattle.std.specs.Prelude.{◌≡◌, Bool, List, IsTrue};
ghost use Rattle.std.specs.List.{filter};
ghost use Rattle.std.specs.List.Sorted.{IsPermutation};
ghost use Rattle.enq_base.specs.declared.owner.Owner.{Owner};
ghost use Rattle.lock_laws.specs.Orders.{are_distinct, of_owners};
ghost use Rattle.lock_entry.specs.Sound.{IsSound, are_apart};
ghost use Rattle.lock_entry.specs.declared.entry.Entry.{Entry};

/// Which entries may stand together doesn't hang on their order, and some of them may where all may.
pub fn soundness_has_no_order()
    ensures apart { (a b : Entry) → are_apart a b ≡ are_apart b a }
    ensures order { (xs ys : List Entry) → IsPermutation xs ys → IsSound xs → IsSound ys }
    ensures some { (p : Entry → Bool) (xs : List Entry) → IsSound xs → IsSound (filter p xs) }
    // The entries of some owners, one owner behind the other.
    ensures owners { (owners : List Owner) (xs : List Entry) → IsTrue (are_distinct owners)
        → IsSound xs → IsSound (of_owners owners xs) }
{}
