ghost use Rattle.std.specs.Prelude.{◌≡◌, ◌+◌, ◌-◌, ◌≤◌, ◌^◌, ◌<◌, ◌++◌, List, length, IfOk, replicate};
ghost use Rattle.bk_disk.specs.Disk.{written, resized};
ghost use Rattle.bk_disk.specs.Images.{filled, all_filled};

use enq_base::NoMemory;
use std::alloc::Global;

/// What a call did since the last sync.
#[derive(Clone, Copy, Debug, PartialEq, Eq)]
pub enum Change {
    Write { at: u64, len: u64 },
    Resize { to: u64 },
}

/// The bytes with others at an offset.
pub fn write_into(alloc: Global, old: &[u8], at: u64, from: &[u8]) -> Result<Vec<u8>, NoMemory>
    ensures { IfOk result (λ v. v.items ≡ written old.now at from.now) }
{
    let at = at as usize;
    let mut next = Vec::from_slice(alloc, &old[..at.min(old.len())])?;
    push_copies(&mut next, 0, at.saturating_sub(old.len()))?;
    next.extend_from_slice(from)?;
    next.extend_from_slice(&old[at.saturating_add(from.len()).min(old.len())..])?;
    Ok(next)
}

/// The bytes cut to a length, or made longer by zeros.
pub fn resize_to(alloc: Global, old: &[u8], to: u64) -> Result<Vec<u8>, NoMemory>
    ensures { IfOk result (λ v. v.items ≡ resized old.now to) }
{
    let to = to as usize;
    let mut next = Vec::from_slice(alloc, &old[..to.min(old.len())])?;
    push_copies(&mut next, 0, to.saturating_sub(old.len()))?;
    Ok(next)
}

fn push_copies(v: &mut Vec<u8>, byte: u8, n: usize) -> Result<(), NoMemory>
    ensures { IfOk result (λ _. v.new.items ≡ v.old.items ++ replicate n byte) }
{
    for _ in 0..n {
        v.push(byte)?;
    }
    Ok(())
}

/// The change, with one byte in all places that it writes.
fn fill(alloc: Global, old: &[u8], change: Change, byte: u8) -> Result<Vec<u8>, NoMemory>
    ensures { IfOk result (λ v. v.items ≡ filled byte old.now change) }
{
    match change {
        Change::Write { at, len } => {
            let mut from = Vec::new(alloc);
            push_copies(&mut from, byte, len as usize)?;
            write_into(alloc, old, at, &from)
        }
        Change::Resize { to } => resize_to(alloc, old, to),
    }
}

/// All these changes, with one byte in all places that they write.
pub fn fill_all(
    alloc: Global,
    base: &[u8],
    changes: &[Change],
    byte: u8,
) -> Result<Vec<u8>, NoMemory>
    ensures { IfOk result (λ v. v.items ≡ all_filled byte base.now changes.now) }
{
    let mut bytes = Vec::from_slice(alloc, base)?;
    for change in changes {
        bytes = fill(alloc, &bytes, *change, byte)?;
    }
    Ok(bytes)
}
