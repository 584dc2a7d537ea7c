ghost use Rattle.std.specs.Prelude.{◌≡◌, false, IfSome, IfOk, IfErr, OnOk, is_some};
ghost use Rattle.keeper_api.specs.Keeping.{IsWithin};
ghost use Rattle.posting.specs.Opening.{CountsFault, OnBad, books_fault};
ghost use Rattle.posting.specs.Reopening.{IsOpeningFault, MayBeOpeningFault, opening_fault};
ghost use Rattle.store_reading.specs.Good.{IsSound, ledger_of};
ghost use Rattle.update_records.specs.Business.{tables_of};
ghost use Rattle.update_records.specs.Ledger.{StandFor};

use crate::mirror::Mirror;
use crate::register::Register;
use enq_base::NoMemory;
use keeper_api::{KeepFault, Keeper};
use std::alloc::Global;
use store_reading::{ReadingFault, StoredLedger, read_ledger};

/// Why a store isn't opened.
#[derive(Clone, Copy, Debug, PartialEq, Eq)]
pub enum BooksFault {
    /// The keeper failed.
    StoreFault,
    /// The store isn't good, which shows at this row of this table, counted from 1.
    BadStore { table: u8, row: u64 },
    /// No start number is left.
    NoStart,
    NoMemory,
}

fn fault_of(fault: KeepFault) -> BooksFault
    ensures { result ≡ books_fault fault }
{
    match fault {
        KeepFault::Failed => BooksFault::StoreFault,
        KeepFault::NoMemory => BooksFault::NoMemory,
    }
}

fn opening_fault(fault: ReadingFault) -> BooksFault
    ensures { result ≡ opening_fault fault }
{
    match fault {
        ReadingFault::Failed => BooksFault::StoreFault,
        ReadingFault::Bad { table, row } => BooksFault::BadStore { table, row },
        ReadingFault::NoMemory => BooksFault::NoMemory,
    }
}

/// Opens a keeper, and reads the ledger of its rows.
fn open_ledger<K: Keeper>(alloc: Global, keeper: &mut K) -> Result<StoredLedger, BooksFault>
    ensures opened { OnOk result (K.is_open keeper.new) }
    ensures stands { IfOk result
        (λ stored. IfSome (K.held keeper.new)
        (λ rows. K.may_leave keeper.old rows × StandFor rows (ledger_of stored))) }
    ensures sound { IfOk result (λ stored. IsSound (ledger_of stored)) }
    ensures rows { IfOk result (λ stored. stored.rows.tables ≡ tables_of stored.units.items stored.marks.items) }
    ensures counts { OnOk result (K.faults keeper.new ≡ K.faults keeper.old) }
    ensures told { is_some (K.held keeper.new) ≡ is_some (K.held keeper.old) }
    ensures crash { IsWithin (K.may_leave keeper.new) (K.may_leave keeper.old) }
    ensures fault { IfErr result (λ fault. IfSome (K.held keeper.new) (λ rows. IsOpeningFault false rows fault)) }
    ensures untold_fault { IfErr result (MayBeOpeningFault false) }
    ensures found { IfErr result (λ fault. OnBad fault (IfSome (K.held keeper.new) (K.may_leave keeper.old))) }
    ensures cause { IfErr result (λ fault. CountsFault fault (K.faults keeper.old) (K.faults keeper.new)) }
{
    if let Err(fault) = keeper.reopen(alloc) {
        return Err(fault_of(fault));
    }
    match read_ledger(alloc, keeper) {
        Ok(stored) => Ok(stored),
        Err(fault) => Err(opening_fault(fault)),
    }
}

/// Opens a keeper, and makes the ledger in memory of its rows.
pub fn open_mirror<K: Keeper>(alloc: Global, keeper: &mut K) -> Result<Mirror, BooksFault>
    ensures opened { OnOk result (K.is_open keeper.new) }
    ensures stands { IfOk result
        (λ mirror. IfSome (K.held keeper.new)
        (λ rows. K.may_leave keeper.old rows × StandFor rows mirror.ledger)) }
    ensures sound { IfOk result (λ mirror. IsSound mirror.ledger) }
    ensures counts { OnOk result (K.faults keeper.new ≡ K.faults keeper.old) }
    ensures told { is_some (K.held keeper.new) ≡ is_some (K.held keeper.old) }
    ensures crash { IsWithin (K.may_leave keeper.new) (K.may_leave keeper.old) }
    ensures fault { IfErr result (λ fault. IfSome (K.held keeper.new) (λ rows. IsOpeningFault false rows fault)) }
    ensures untold_fault { IfErr result (MayBeOpeningFault false) }
    ensures found { IfErr result (λ fault. OnBad fault (IfSome (K.held keeper.new) (K.may_leave keeper.old))) }
    ensures cause { IfErr result (λ fault. CountsFault fault (K.faults keeper.old) (K.faults keeper.new)) }
{
    let stored = match open_ledger(alloc, keeper) {
        Ok(stored) => stored,
        Err(fault) => return Err(fault),
    };
    match restored(alloc, stored) {
        Ok(mirror) => Ok(mirror),
        Err(_) => Err(BooksFault::NoMemory),
    }
}

/// The ledger in memory of a ledger that a store may stand for.
fn restored(alloc: Global, stored: StoredLedger) -> Result<Mirror, NoMemory>
    requires sound { IsSound (ledger_of stored) }
    requires rows { stored.rows.tables ≡ tables_of stored.units.items stored.marks.items }
    ensures { IfOk result (λ mirror. mirror.ledger ≡ ledger_of stored) }
{
    let StoredLedger {
        start,
        units,
        marks,
        levels,
        rows,
    } = stored;
    match Register::restore(alloc, start, units, marks, levels) {
        Ok(register) => Ok(Mirror::new(register, rows)),
        Err(_) => {
            drop(rows);
            Err(NoMemory)
        }
    }
}
