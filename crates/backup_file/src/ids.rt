ghost use Rattle.std.specs.Prelude.{◌≡◌};
ghost use Rattle.backup_file.specs.Ids.{kind_of, lock_id, numbers_of};

use enq_base::{ARGUMENT_BYTES, Name, Owner, ShortBytes, UnitId, id_of};
use lock_entry::Entry;
use mode_rules::mode_number;

/// The name of an entry, as sets look it up.
#[derive(Clone, Copy, Debug, Hash)]
pub struct LockId {
    pub kind: u8,
    pub numbers: UnitId,
    pub table: Name,
    pub pattern: ShortBytes<ARGUMENT_BYTES>,
    pub mode: u8,
}

impl PartialEq for LockId {
    ghost use Rattle.backup_file.specs.Ids.{same_lock};
    ghost use Rattle.backup_file.specs.Sameness.{locks_partial};

    ghost eq = { same_lock };

    ghost laws = { locks_partial };

    fn eq(&self, other: &LockId) -> bool {
        self.kind == other.kind
            && self.numbers == other.numbers
            && (self.table.bytes() == other.table.bytes()
                && self.pattern.bytes() == other.pattern.bytes()
                && self.mode == other.mode)
    }
}

impl Eq for LockId {
    ghost use Rattle.backup_file.specs.Sameness.{locks_equiv};

    ghost laws = { locks_equiv };
}

fn kind_of(owner: &Owner) -> u8
    ensures { result ≡ kind_of owner.now }
{
    match owner {
        Owner::Dlg { .. } => 0,
        Owner::Upd(_) => 1,
    }
}

fn numbers_of(owner: &Owner) -> UnitId
    ensures { result ≡ numbers_of owner.now }
{
    match owner {
        Owner::Dlg { start, session } => UnitId {
            start: *start,
            session: *session,
            luw: 0,
        },
        Owner::Upd(unit) => id_of(unit),
    }
}

pub(crate) fn lock_id(entry: &Entry) -> LockId
    ensures { result ≡ lock_id entry.now }
{
    let Some(pattern) = ShortBytes::new(entry.pattern.bytes()) else {
        unreachable!();
    };
    LockId {
        kind: kind_of(&entry.owner),
        numbers: numbers_of(&entry.owner),
        table: entry.table,
        pattern,
        mode: mode_number(entry.mode),
    }
}
