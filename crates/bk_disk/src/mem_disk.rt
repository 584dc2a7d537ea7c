ghost use Rattle.std.specs.Prelude.{◌≡◌, ◌⊎◌, ◌+◌, ◌≤◌, ◌↔◌, length, IsTrue, IsErr, IfOk, IfSome, OnOk, OnErr};
ghost use Rattle.enq_base.specs.Causes.{HasCause};
ghost use Rattle.bk_disk.specs.Disk.{written, resized, FitsDisk, Torn, Cut, Follows, AddsNone, Only, Fills};
ghost use Rattle.bk_disk.specs.Memory as memory;
ghost use Rattle.bk_disk.specs.Memory.{MayBeLeft, IsNextListed, FailsCall, FailsChange, mem_filled};
ghost use Rattle.bk_disk.specs.declared.change.Change.TheVariants.{Write, Resize};

use crate::change::{Change, fill_all, resize_to, write_into};
use crate::disk::{Disk, MAX_LENGTH};
use enq_base::{Failed, NoMemory};
use std::alloc::Global;
use std::marker::Model;

/// A disk in memory. Its calls are counted from 1, and those whose number is listed fail.
///
/// A call that finds no memory fails too and is counted as refused, as is one that would make the bytes longer than
/// `MAX_LENGTH`. A write or cut that fails by the list isn't read back, and a crash may leave some of it.
#[derive(Debug, Drop)]
pub struct MemDisk {
    alloc: Global,
    bytes: Vec<u8>,
    synced: Vec<u8>,
    changes: Vec<Change>,
    fails: Vec<u64>,
    calls: u64,
    faults: u64,
    refused: u64,
}

impl Model for MemDisk {
    ghost use Rattle.bk_disk.specs.Memory.{MemView};

    ghost Value = { MemView };

    ghost view = { λ m. record {
      reads = m.bytes.items;
      synced = m.synced.items;
      changes = m.changes.items;
      fails = m.fails.items;
      calls = m.calls;
      faults = m.faults;
      refused = m.refused;
    } };
}

impl MemDisk {
    /// A disk with these bytes, all of them synced, in which the calls of these numbers fail.
    pub fn new(alloc: Global, bytes: Vec<u8>, fails: Vec<u64>) -> Result<MemDisk, NoMemory>
        ensures { IfOk result (λ disk. disk ≡ memory.fresh bytes.items fails.items) }
    {
        Ok(MemDisk {
            alloc,
            synced: Vec::from_slice(alloc, &bytes)?,
            bytes,
            changes: Vec::new(alloc),
            fails,
            calls: 0,
            faults: 0,
            refused: 0,
        })
    }

    /// How many calls found no memory, or would have made the bytes too long.
    pub fn refused(&self) -> u64
        ensures { result ≡ self.now.refused }
    {
        self.refused
    }

    /// An image that a crash may leave: 0 is the bytes after the last sync, 1 those that a read gives, and 2 and 3 are
    /// these with ff or 01 in each place that was written since the last sync, by calls that failed too.
    pub fn image(&self, alloc: Global, pick: u8) -> Result<Vec<u8>, NoMemory>
        requires { pick ≤ 3 }
        ensures left { IfOk result (λ v. MayBeLeft self.now v.items) }
        ensures synced { pick ≡ 0 → IfOk result (λ v. v.items ≡ self.now.synced) }
        ensures read { pick ≡ 1 → IfOk result (λ v. v.items ≡ self.now.reads) }
        ensures ones { pick ≡ 2 → IfOk result (λ v. v.items ≡ mem_filled 255 self.now) }
        ensures opened { pick ≡ 3 → IfOk result (λ v. v.items ≡ mem_filled 1 self.now) }
    {
        match pick {
            0 => Ok(Vec::from_slice(alloc, &self.synced)?),
            1 => Ok(Vec::from_slice(alloc, &self.bytes)?),
            2 => self.filled(alloc, 0xff),
            _ => self.filled(alloc, 0x01),
        }
    }

    /// The bytes after the last sync, after all changes since with one byte in all places that they write.
    fn filled(&self, alloc: Global, byte: u8) -> Result<Vec<u8>, NoMemory>
        ensures { IfOk result (λ v. v.items ≡ mem_filled byte self.now) }
    {
        fill_all(alloc, &self.synced, &self.changes, byte)
    }

    /// Counts a call, and says whether it stands in the list.
    fn fails_now(&mut self) -> bool
        ensures counted { self.new ≡ memory.called self.old }
        ensures listed { result ≡ memory.call_fails self.old }
    {
        self.calls = self.calls.saturating_add(1);
        self.fails.contains(&self.calls)
    }

    fn fail(&mut self) -> Failed
        ensures failed { self.new ≡ memory.failed_now self.old }
        ensures later { self.old.faults ≤ self.new.faults }
    {
        self.faults = self.faults.saturating_add(1);
        Failed
    }

    fn refuse(&mut self) -> Failed
        ensures refused { self.new ≡ memory.refused_now self.old }
        ensures later { self.old.faults ≤ self.new.faults }
    {
        self.refused = self.refused.saturating_add(1);
        self.fail()
    }

    /// Bytes that stand in memory fit a disk.
    fn read_fit(&self)
        ensures { FitsDisk self.now.reads }
    {
        fit(self.bytes.as_slice());
    }

    /// Makes a change that leads to these bytes, or fails. A change that fails by the list is noted too.
    fn change(&mut self, change: Change, next: Vec<u8>, fails: bool) -> Result<(), Failed>
        ensures done { OnOk result (self.new ≡ memory.changed self.old change next.items) }
        ensures listed { IsTrue fails → IsErr result }
        ensures failed { OnErr result ((self.new ≡ memory.refused_now self.old)
            ⊎ (IsTrue fails × (self.new ≡ memory.failed_change self.old change))) }
        ensures later { self.old.faults ≤ self.new.faults }
        ensures short { OnOk result (FitsDisk next.items) }
    {
        fit(next.as_slice());
        if self.changes.push(change).is_err() {
            return Err(self.refuse());
        }
        if fails {
            return Err(self.fail());
        }
        self.bytes = next;
        Ok(())
    }

    /// The bytes with others at an offset, unless they would be too long or no memory is found.
    fn written(&self, at: u64, from: &[u8]) -> Option<Vec<u8>>
        ensures value { IfSome result (λ v. v.items ≡ written self.now.reads at from.now) }
        ensures fits { IfSome result (λ _. at + length from.now ≤ MAX_LENGTH) }
    {
        if at > MAX_LENGTH || from.len() as u64 > MAX_LENGTH - at {
            return None;
        }
        write_into(self.alloc, &self.bytes, at, from).ok()
    }

    /// The bytes cut to a length or made longer, unless they would be too long or no memory is found.
    fn resized(&self, length: u64) -> Option<Vec<u8>>
        ensures value { IfSome result (λ v. v.items ≡ resized self.now.reads length) }
        ensures fits { IfSome result (λ _. length ≤ MAX_LENGTH) }
    {
        if length > MAX_LENGTH {
            return None;
        }
        resize_to(self.alloc, &self.bytes, length).ok()
    }
}

impl Disk for MemDisk {
    ghost use Rattle.std.specs.Prelude.{true};
    ghost use Rattle.std.proofs.Common.{inl, refl};
    ghost use Rattle.bk_disk.specs.Memory.{MayBeLeft};

    ghost tells = { true };

    ghost reads = { λ m. m.reads };

    ghost may_leave = { λ m c. MayBeLeft m c };

    ghost faults = { λ m. m.faults };

    ghost reads_left = { λ m t. inl refl };

    fn length(&mut self) -> Result<u64, Failed>
        // As every disk.
        ensures value { IfOk result (λ n. n ≡ length self.old.reads) }
        ensures same { OnOk result (self.new.reads ≡ self.old.reads) }
        ensures left { AddsNone (MayBeLeft self.old) (MayBeLeft self.new) }
        ensures short { OnOk result (FitsDisk self.new.reads) }
        ensures cause { HasCause self.old.faults self.new.faults result }

        ensures listed { IsErr result ↔ IsNextListed self.old }
        ensures failed { OnErr result (self.new ≡ memory.after_listed self.old) }
        ensures done { OnOk result (self.new ≡ memory.called self.old) }
    {
        self.read_fit();
        if self.fails_now() {
            return Err(self.fail());
        }
        Ok(self.bytes.len() as u64)
    }

    fn read_at(&mut self, at: u64, into: &mut [u8]) -> Result<usize, Failed>
        // As every disk.
        ensures within { IfOk result (λ n. n ≤ length into.old) }
        ensures value { IfOk result (λ n. Fills self.old.reads at n into.old into.new) }
        ensures same { OnOk result (self.new.reads ≡ self.old.reads) }
        ensures left { AddsNone (MayBeLeft self.old) (MayBeLeft self.new) }
        ensures short { OnOk result (FitsDisk self.new.reads) }
        ensures cause { HasCause self.old.faults self.new.faults result }

        ensures listed { IsErr result ↔ IsNextListed self.old }
        ensures failed { OnErr result (self.new ≡ memory.after_listed self.old) }
        ensures done { OnOk result (self.new ≡ memory.called self.old) }
    {
        self.read_fit();
        if self.fails_now() {
            return Err(self.fail());
        }
        Ok(copy_from(&self.bytes, at as usize, into))
    }

    fn write_at(&mut self, at: u64, from: &[u8]) -> Result<(), Failed>
        // As every disk.
        ensures value { OnOk result (self.new.reads ≡ written self.old.reads at from.now) }
        ensures fits { OnOk result (at + length from.now ≤ MAX_LENGTH) }
        ensures left { Follows (Torn at (length from.now)) (MayBeLeft self.old) (MayBeLeft self.new) }
        ensures short { OnOk result (FitsDisk self.new.reads) }
        ensures cause { HasCause self.old.faults self.new.faults result }

        ensures listed { IsNextListed self.old → IsErr result }
        ensures failed { OnErr result (FailsChange (Write at (length from.now)) self.old self.new) }
        ensures done { OnOk result (self.new ≡ memory.after_write self.old at from.now) }
    {
        self.read_fit();
        let fails = self.fails_now();
        let Some(next) = self.written(at, from) else {
            return Err(self.refuse());
        };
        let change = Change::Write {
            at,
            len: from.len() as u64,
        };
        self.change(change, next, fails)
    }

    fn cut(&mut self, length: u64) -> Result<(), Failed>
        // As every disk.
        ensures value { OnOk result (self.new.reads ≡ resized self.old.reads length) }
        ensures fits { OnOk result (length ≤ MAX_LENGTH) }
        ensures left { Follows (Cut length) (MayBeLeft self.old) (MayBeLeft self.new) }
        ensures short { OnOk result (FitsDisk self.new.reads) }
        ensures cause { HasCause self.old.faults self.new.faults result }

        ensures listed { IsNextListed self.old → IsErr result }
        ensures failed { OnErr result (FailsChange (Resize length) self.old self.new) }
        ensures done { OnOk result (self.new ≡ memory.after_cut self.old length) }
    {
        self.read_fit();
        let fails = self.fails_now();
        let Some(next) = self.resized(length) else {
            return Err(self.refuse());
        };
        self.change(Change::Resize { to: length }, next, fails)
    }

    fn sync(&mut self) -> Result<(), Failed>
        // As every disk.
        ensures durable { OnOk result (Only self.new.reads (MayBeLeft self.new)) }
        ensures same { OnOk result (self.new.reads ≡ self.old.reads) }
        ensures left { AddsNone (MayBeLeft self.old) (MayBeLeft self.new) }
        ensures short { OnOk result (FitsDisk self.new.reads) }
        ensures cause { HasCause self.old.faults self.new.faults result }

        ensures listed { IsNextListed self.old → IsErr result }
        ensures failed { OnErr result (FailsCall self.old self.new) }
        ensures done { OnOk result (self.new ≡ memory.after_sync self.old) }
    {
        self.read_fit();
        if self.fails_now() {
            return Err(self.fail());
        }
        let Ok(synced) = Vec::from_slice(self.alloc, &self.bytes) else {
            return Err(self.refuse());
        };
        self.synced = synced;
        self.changes.clear();
        Ok(())
    }
}

fn fit(bytes: &[u8])
    ensures { FitsDisk bytes.now }
{
    let _length = bytes.len();
}

/// Copies what stands from an offset on, at most as much as there is room for.
fn copy_from(bytes: &[u8], at: usize, into: &mut [u8]) -> usize
    ensures { Fills bytes.now at result into.old into.new }
{
    let start = at.min(bytes.len());
    let n = into.len().min(bytes.len() - start);
    into[..n].copy_from_slice(&bytes[start..start + n]);
    n
}
