ghost use Rattle.std.specs.Prelude.{◌≡◌, ◌<◌, ◌↔◌, ℕ, List, length, take, IsTrue, IfOk, IfErr, IsErrOf, IfSome, IfNone, ◌∷◌};
ghost use Rattle.keeper_wal.specs.Journal.{name, IsBad, IsLong};
ghost use Rattle.keeper_wal.specs.Opening.{OnBad, IsRead};

use crate::batches::{is_legal, make_batch};
use crate::fault::JournalFault;
use crate::reading::batch_of;
use byte_fields::ReadFault;
use row_tree::RowTree;
use std::alloc::Global;

/// What a journal stands for, and where its closed gate stands.
#[derive(Drop)]
pub struct Found {
    pub rows: RowTree,
    pub gate: u64,
}

/// What a journal stands for.
pub fn read_journal(alloc: Global, bytes: &[u8]) -> Result<Found, JournalFault>
    requires { IsLong bytes.now }
    ensures shut { IfOk result (λ found. IsRead bytes.now found.gate found.rows.rows) }
    ensures bad { IfErr result (OnBad (IsBad bytes.now)) }
    ensures not_failed { IsErrOf result JournalFault.Failed → ⊥ }
{
    if !has_name(bytes) {
        return Err(JournalFault::Bad(0));
    }
    let mut rows = RowTree::new(alloc);
    let mut rest = &bytes[8..];
    while let Some(behind) = behind_open_gate(rest) {
        let at = (bytes.len() - rest.len()) as u64;
        match batch_of(alloc, behind) {
            Ok((batch, after)) => {
                if !is_legal(alloc, &batch)? {
                    return Err(JournalFault::Bad(at));
                }
                make_batch(alloc, &mut rows, &batch)?;
                rest = after;
            }
            Err(ReadFault::Bad) => return Err(JournalFault::Bad(at)),
            Err(ReadFault::NoMemory) => return Err(JournalFault::NoMemory),
        }
    }
    let at = (bytes.len() - rest.len()) as u64;
    if rest.is_empty() {
        return Err(JournalFault::Bad(at));
    }
    Ok(Found { rows, gate: at })
}

/// Whether the file has the name of journals.
fn has_name(bytes: &[u8]) -> bool
    requires { 9 < length bytes.now }
    ensures { IsTrue result ↔ (take 8 bytes.now ≡ name) }
{
    &bytes[..8] == b"ENQWAL01".as_slice()
}

/// What stands behind an open gate.
fn behind_open_gate(rest: &[u8]) -> Option<&[u8]>
    ensures open_gate { IfSome result (λ behind. rest.now ≡ 1 ∷ behind.now) }
    ensures closed { IfNone result ((behind : List ℕ) → rest.now ≡ 1 ∷ behind → ⊥) }
{
    match rest {
        [1, behind @ ..] => Some(behind),
        _ => None,
    }
}
