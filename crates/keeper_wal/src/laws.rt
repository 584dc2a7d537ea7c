ghost use Rattle.std.specs.Prelude.{◌≡◌, ◌⊎◌, ℕ, List, IsTrue};
ghost use Rattle.gate_log.specs.Grammars.{IsBytes};
ghost use Rattle.keeper_api.specs.Rows.{Rows};
ghost use Rattle.keeper_wal.specs.Journal.{Stands, IsBad};
ghost use Rattle.keeper_wal.specs.Meaning.{rows_in};
ghost use Rattle.keeper_wal.specs.Wal.{Leaves};

use crate::wal_keeper::WalKeeper;
use bk_disk::Disk;

/// Bytes stand for one set of rows, or break at one offset.
pub fn one_meaning()
    ensures some { (bytes : List ℕ) → IsBytes bytes
        → ((rows : Rows) × Stands bytes rows) ⊎ ((at : ℕ) × IsBad bytes at) }
    ensures read { (bytes : List ℕ) (rows : Rows) → Stands bytes rows → rows_in bytes ≡ rows }
    ensures stands { (bytes : List ℕ) (rows others : Rows) → Stands bytes rows → Stands bytes others → rows ≡ others }
    ensures breaks { (bytes : List ℕ) (at here : ℕ) → IsBad bytes at → IsBad bytes here → at ≡ here }
    ensures not_both { (bytes : List ℕ) (rows : Rows) (at : ℕ) → Stands bytes rows → IsBad bytes at → ⊥ }
{}

/// What an image of the journal stands for is among the rows that the keeper may leave, and where one breaks any rows
/// are. So whatever is said of all rows that may be left is said of each image.
pub fn images_tell<D: Disk>(keeper: &WalKeeper<D>)
    ensures stands { (image : List ℕ) → D.may_leave keeper.now.disk image
        → (rows : Rows) → Stands image rows → Leaves D.tells D.may_leave keeper.now rows }
    ensures breaks { (image : List ℕ) → D.may_leave keeper.now.disk image
        → (at : ℕ) → IsBad image at → (rows : Rows) → Leaves D.tells D.may_leave keeper.now rows }
{
    keeper.remembers();
}
