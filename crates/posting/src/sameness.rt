ghost use Rattle.std.specs.Prelude.{◌≡◌, ◌↔◌, IsTrue};

use enq_base::{Deed, Effect, Num, Reason};
use lock_entry::Entry;
use update_records::{Mark, MarkKind, StoredInterval, Unit};

/// What can be compared with another of its kind. Each byte is looked at once at most.
pub trait Same {
    /// Whether the two are one.
    fn is_same(&self, other: &Self) -> bool
        ensures { IsTrue result ↔ (self.now ≡ other.now) };
}

/// Whether two lists are one.
pub fn are_same<T: Same>(a: &[T], b: &[T]) -> bool
    ensures { IsTrue result ↔ (a.now ≡ b.now) }
{
    if a.len() != b.len() {
        return false;
    }
    for place in 0..a.len() {
        if !a[place].is_same(&b[place]) {
            return false;
        }
    }
    true
}

impl Same for Num {
    fn is_same(&self, other: &Num) -> bool {
        self.object.is(&other.object) && self.nr == other.nr && self.number == other.number
    }
}

impl Same for Deed {
    fn is_same(&self, other: &Deed) -> bool {
        match self {
            Deed::Put(text) => matches!(other, Deed::Put(given) if text.bytes() == given.bytes()),
            Deed::Ins(text) => matches!(other, Deed::Ins(given) if text.bytes() == given.bytes()),
            Deed::Del => matches!(other, Deed::Del),
            Deed::Add(number) => matches!(other, Deed::Add(given) if number == given),
        }
    }
}

impl Same for Effect {
    fn is_same(&self, other: &Effect) -> bool {
        self.table.is(&other.table) && self.key.is(&other.key) && self.deed.is_same(&other.deed)
    }
}

impl Same for Entry {
    fn is_same(&self, other: &Entry) -> bool {
        self.owner.is(&other.owner)
            && self.user.is(&other.user)
            && self.table.is(&other.table)
            && self.pattern.is(&other.pattern)
            && self.mode.is(other.mode)
            && self.count == other.count
            && self.handed == other.handed
    }
}

impl Same for Unit {
    fn is_same(&self, other: &Unit) -> bool {
        self.key.is(&other.key)
            && self.user.is(&other.user)
            && are_same(self.numbers.as_slice(), other.numbers.as_slice())
            && are_same(self.parts.v1.as_slice(), other.parts.v1.as_slice())
            && are_same(self.parts.v2.as_slice(), other.parts.v2.as_slice())
            && are_same(self.entries.as_slice(), other.entries.as_slice())
    }
}

impl Same for MarkKind {
    fn is_same(&self, other: &MarkKind) -> bool {
        match self {
            MarkKind::Num(numbers) => is_num(other, numbers.as_slice()),
            MarkKind::Rec => matches!(other, MarkKind::Rec),
            MarkKind::V1 => matches!(other, MarkKind::V1),
            MarkKind::Bad1 { index, reason } => is_bad1(other, *index, *reason),
            MarkKind::Again1 => matches!(other, MarkKind::Again1),
            MarkKind::V2 => matches!(other, MarkKind::V2),
            MarkKind::Bad2 { index, reason } => is_bad2(other, *index, *reason),
            MarkKind::Again2 => matches!(other, MarkKind::Again2),
            MarkKind::Gone => matches!(other, MarkKind::Gone),
        }
    }
}

impl Same for Mark {
    fn is_same(&self, other: &Mark) -> bool {
        self.seq == other.seq && self.unit.is(&other.unit) && self.kind.is_same(&other.kind)
    }
}

impl Same for StoredInterval {
    fn is_same(&self, other: &StoredInterval) -> bool {
        self.object.is(&other.object)
            && self.nr == other.nr
            && self.from == other.from
            && self.to == other.to
            && self.level == other.level
            && self.buffered == other.buffered
    }
}

/// Whether a mark tells of these numbers alone.
pub fn is_num(kind: &MarkKind, numbers: &[Num]) -> bool
    ensures { IsTrue result ↔ (kind.now ≡ MarkKind.Num numbers.now) }
{
    match kind {
        MarkKind::Num(given) => are_same(given.as_slice(), numbers),
        _ => false,
    }
}

fn is_bad1(kind: &MarkKind, index: u32, reason: Reason) -> bool
    ensures { IsTrue result ↔ (kind.now ≡ MarkKind.Bad1 index reason) }
{
    match kind {
        MarkKind::Bad1 {
            index: given_index,
            reason: given_reason,
        } => *given_index == index && *given_reason == reason,
        _ => false,
    }
}

fn is_bad2(kind: &MarkKind, index: u32, reason: Reason) -> bool
    ensures { IsTrue result ↔ (kind.now ≡ MarkKind.Bad2 index reason) }
{
    match kind {
        MarkKind::Bad2 {
            index: given_index,
            reason: given_reason,
        } => *given_index == index && *given_reason == reason,
        _ => false,
    }
}
