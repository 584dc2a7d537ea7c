ghost use Rattle.std.specs.Prelude.{◌≡◌, ◌≤◌, [], length, IfOk, IfErr, OnOk, OnErr, Ok, count_by};
ghost use Rattle.std.specs.List as lists;
ghost use Rattle.enq_base.specs.declared.owner.Owner.TheVariants.{Upd};
ghost use Rattle.lock_entry.specs.Names.{named, has_name, stands, is_of};
ghost use Rattle.lock_entry.specs.Pairs.{IsPair};
ghost use Rattle.lock_entry.specs.Sound.{ReadmitsOnly};
ghost use Rattle.lock_entry.specs.Table.{Table, IsTable, IsFaultOf, IsLoadFault, with_entries, entry_at};
ghost use Rattle.lock_entry.specs.Granting as granting;
ghost use Rattle.lock_entry.specs.Freeing.{freed, freed_owner, handed_over, has_unhanded};
ghost use Rattle.lock_entry.specs.Converting.{converted};

use crate::entry::{Asked, Asker, Entry, Request};
use crate::fault::{AskFault, LoadFault};
use enq_base::{Name, NoMemory, Owner, UnitKey};
use std::alloc::Global;

/// A lock table (The SAP Lock Concept): its entries in order of granting, and how many may stand. The entries are
/// always sound: no two of unrelated owners meet and clash, names are distinct, and counts are 1 to 9,999. Calls
/// without an allocator take no memory.
pub trait LockStore: Sized + Drop {
    ghost table: { Self → Table };

    /// No entries, of which `limit` may come to stand.
    fn empty(alloc: Global, limit: u32) -> Result<Self, NoMemory>
        ensures empty { IfOk result (λ s. table s ≡ record { entries = []; limit = limit }) }
        ensures good { IfOk result (λ s. IsTable (table s)) };

    /// Just these entries, with their counts and flags. Clash comes exactly where they aren't sound: `second` is the
    /// first place whose entry has a wrong count or may not stand with one before it, and `first` the first such one,
    /// or `second` itself where there is none.
    fn load(alloc: Global, limit: u32, entries: Vec<Entry>) -> Result<Self, LoadFault>
        requires { length entries.items ≤ limit }
        ensures entries { IfOk result (λ s. table s ≡ record { entries = entries.items; limit = limit }) }
        ensures good { IfOk result (λ s. IsTable (table s)) }
        ensures fault { IfErr result (λ f. IsLoadFault entries.items f) };

    /// Grants all requests or none. The refusals are Foreign, Full and Count, tested in this order.
    fn ask(
        &mut self,
        alloc: Global,
        asker: &Asker,
        user: &Name,
        requests: &[Request],
    ) -> Result<(), AskFault>
        requires { IsPair asker.now }
        ensures granted { OnOk result
            (granting.asked (table self.old) asker.now user.now requests.now ≡ Ok (table self.new).entries) }
        ensures refused { IfErr result
            (λ f. IsFaultOf (granting.asked (table self.old) asker.now user.now requests.now) f) }
        ensures unchanged { OnErr result (table self.new ≡ table self.old) }
        ensures limit { (table self.new).limit ≡ (table self.old).limit }
        ensures good { IsTable (table self.new) };

    /// Grants the entries as they are, in place of those of the asker's update owner, all or none. The refusals are
    /// Foreign and Full.
    fn readmit(&mut self, alloc: Global, asker: &Asker, entries: &[Entry]) -> Result<(), AskFault>
        requires pair { IsPair asker.now }
        requires entries { ReadmitsOnly asker.now entries.now }
        ensures granted { OnOk result
            (granting.readmitted (table self.old) asker.now entries.now ≡ Ok (table self.new).entries) }
        ensures refused { IfErr result (λ f. IsFaultOf (granting.readmitted (table self.old) asker.now entries.now) f) }
        ensures unchanged { OnErr result (table self.new ≡ table self.old) }
        ensures limit { (table self.new).limit ≡ (table self.old).limit }
        ensures good { IsTable (table self.new) };

    /// Takes one from the entry of this name, which goes at 0. Tells whether it stood.
    fn free_one(&mut self, owner: &Owner, asked: &Asked) -> bool
        ensures stood { result ≡ stands (table self.old).entries (named owner.now asked.now) }
        ensures after { table self.new ≡ with_entries (table self.old)
            (freed (table self.old).entries (named owner.now asked.now)) }
        ensures good { IsTable (table self.new) };

    /// Removes the owner's entries. Tells how many there were.
    fn free_owner(&mut self, owner: &Owner) -> u32
        ensures count { result ≡ count_by (is_of owner.now) (table self.old).entries }
        ensures after { table self.new ≡ with_entries (table self.old)
            (freed_owner (table self.old).entries owner.now) }
        ensures good { IsTable (table self.new) };

    /// Turns the pair's optimistic entries at these tables and arguments into exclusive ones, all or none, and removes
    /// the optimistic entries of others that meet them, which it answers. The refusals are Lost, Foreign and Count,
    /// tested in this order. The modes in `asked` don't count.
    fn convert(
        &mut self,
        alloc: Global,
        asker: &Asker,
        asked: &[Asked],
    ) -> Result<Vec<Entry>, AskFault>
        requires { IsPair asker.now }
        ensures converted { IfOk result
            (λ removed. converted (table self.old).entries asker.now asked.now ≡ Ok
            (record { entries = (table self.new).entries; removed = removed.items })) }
        ensures refused { IfErr result (λ f. IsFaultOf (converted (table self.old).entries asker.now asked.now) f) }
        ensures unchanged { OnErr result (table self.new ≡ table self.old) }
        ensures limit { (table self.new).limit ≡ (table self.old).limit }
        ensures good { IsTable (table self.new) };

    /// Flags the unit's S, E and X entries as handed and removes its O entries. Tells how many entries it had.
    fn hand(&mut self, unit: &UnitKey) -> u32
        ensures count { result ≡ count_by (is_of (Upd unit.now)) (table self.old).entries }
        ensures after { table self.new ≡ with_entries (table self.old) (handed_over (table self.old).entries unit.now) }
        ensures good { IsTable (table self.new) };

    /// The entry of this name.
    fn find(&self, owner: &Owner, asked: &Asked) -> Option<Entry>
        ensures found { result ≡ lists.find (has_name (named owner.now asked.now)) (table self.now).entries }
        ensures good { IsTable (table self.now) };

    /// The entries in order of granting.
    fn list(&self, alloc: Global) -> Result<Vec<Entry>, NoMemory>
        ensures entries { IfOk result (λ v. v.items ≡ (table self.now).entries) }
        ensures good { IsTable (table self.now) };

    /// The owner's entries in order of granting.
    fn entries_of(&self, alloc: Global, owner: &Owner) -> Result<Vec<Entry>, NoMemory>
        ensures entries { IfOk result (λ v. v.items ≡ lists.filter (is_of owner.now) (table self.now).entries) }
        ensures good { IsTable (table self.now) };

    /// Whether the owner has an entry that wasn't handed over.
    fn has_unhanded(&self, owner: &Owner) -> bool
        ensures answer { result ≡ has_unhanded owner.now (table self.now).entries }
        ensures good { IsTable (table self.now) };

    /// The entry at this place, counted from 1. None comes exactly at place 0 and past the last.
    fn at(&self, place: u32) -> Option<Entry>
        ensures entry { result ≡ entry_at (table self.now).entries place }
        ensures good { IsTable (table self.now) };

    /// How many entries stand.
    fn len(&self) -> u32
        ensures length { result ≡ length (table self.now).entries }
        ensures good { IsTable (table self.now) };
}
