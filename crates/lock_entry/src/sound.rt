ghost use Rattle.std.specs.Prelude.{◌≡◌};
ghost use Rattle.lock_entry.specs.Sound.{are_apart, has_count, in_conflict};

use crate::entry::Entry;
use crate::pairs::are_related;
use mode_rules::clash;

const MOST: u16 = 9999;

/// Whether the count is 1 to 9,999.
pub fn has_count(entry: &Entry) -> bool
    ensures { result ≡ has_count entry.now }
{
    1 <= entry.count && entry.count <= MOST
}

/// Whether two entries may stand together: their names differ, and they aren't of unrelated owners, meet and clash.
pub fn are_apart(a: &Entry, b: &Entry) -> bool
    ensures { result ≡ are_apart a.now b.now }
{
    !a.has_name(&b.name()) && !in_conflict(a, b)
}

fn in_conflict(a: &Entry, b: &Entry) -> bool
    ensures { result ≡ in_conflict a.now b.now }
{
    !are_related(&a.owner, &b.owner) && (a.meets(&b.asked()) && clash(a.mode, b.mode))
}
