ghost use Rattle.std.specs.Prelude.{◌<◌};
ghost use Rattle.lock_entry.specs.Pairs.{IsPair};

use crate::rounds::given_over;
use enq_base::{Owner, Pattern, UnitKey, read_name};
use lock_entry::{Asked, Asker, Entry, LockStore, Mode, Request};
use lock_index::IndexTable;
use lossy_link::Fate;
use replica_link::TableOp;
use std::alloc::Global;
use std::test::*;

const LOCKS: u32 = 20_000;

/// The next number by lot. Its upper half tells.
fn drawn(lot: u64) -> u64 {
    lot.wrapping_mul(6_364_136_223_846_793_005)
        .wrapping_add(1_442_695_040_888_963_407)
}

/// A fate by lot, of a turn that comes behind so many: a quarter of the packets, or of their acknowledgements, is lost.
fn fate_of(lot: u64, turns: u32) -> Fate {
    match (lot >> 60) as u8 {
        0 => Fate::LosePacket,
        1 => Fate::LoseAck,
        2 | 3 => Fate::Old((lot >> 20) % (u64::from(turns) + 1) + 1),
        4 => Fate::Twice,
        _ => Fate::Pass,
    }
}

fn plan_by_lot(alloc: Global) -> Result<Vec<Fate>, Fail> {
    let mut plan = Vec::new(alloc);
    let mut lot = 1;
    for turn in 0..LOCKS {
        lot = drawn(lot);
        plan.push(fate_of(lot, turn))?;
    }
    Ok(plan)
}

fn asker() -> Asker
    ensures { IsPair result }
{
    Asker {
        dialogue: Owner::Dlg {
            start: 1,
            session: 1,
        },
        update: Owner::Upd(UnitKey {
            start: 1,
            session: 1,
            luw: 1,
        }),
    }
}

/// The exclusive lock on an order.
fn lock_on(order: u32) -> Result<Asked, Fail> {
    let mut digits = [b'0'; 13];
    let mut rest = 1_000_000_000_000 + u64::from(order);
    for digit in digits.iter_mut().rev() {
        *digit = b'0' + (rest % 10) as u8;
        rest /= 10;
    }
    Ok(Asked {
        table: read_name(b"ZORDER").ok_or("a name")?,
        pattern: Pattern::new(&digits).ok_or("an argument")?,
        mode: Mode::E,
    })
}

/// Asks for a lock, and gives what is shipped then.
fn ask<T: LockStore>(alloc: Global, table: &mut T, asked: &Asked) -> Result<TableOp, Fail> {
    let user = read_name(b"MILLER").ok_or("a name")?;
    let asker = asker();
    let request = Request {
        asked: *asked,
        dialogue: true,
        update: false,
    };
    table.ask(alloc, &asker, &user, &[request])?;
    let entry = table.find(&asker.dialogue, asked).ok_or("an entry")?;
    Ok(TableOp::Put(entry))
}

/// Frees a lock, if it stands, and gives what is shipped then.
fn free<T: LockStore>(table: &mut T, asked: &Asked) -> TableOp {
    let owner = asker().dialogue;
    let _ = table.free_one(&owner, asked);
    TableOp::Drop {
        owner,
        asked: *asked,
    }
}

/// Asks for all locks, one after the other, and behind each fourth of them frees one by lot.
fn ask_all<T: LockStore>(alloc: Global, table: &mut T) -> Result<Vec<TableOp>, Fail> {
    let mut ops = Vec::new(alloc);
    let mut lot = 2;
    for order in 0..LOCKS {
        ops.push(ask(alloc, table, &lock_on(order)?)?)?;
        lot = drawn(lot);
        if order % 4 == 3 {
            ops.push(free(table, &lock_on((lot >> 40) as u32 % order)?))?;
        }
    }
    Ok(ops)
}

/// What is shipped, and the table's list behind it.
fn ask_and_list<T: LockStore>(
    alloc: Global,
    table: &mut T,
) -> Result<(Vec<TableOp>, Vec<Entry>), Fail> {
    let ops = ask_all(alloc, table)?;
    let list = table.list(alloc)?;
    Ok((ops, list))
}

fn shipped(alloc: Global) -> Result<(Vec<TableOp>, Vec<Entry>), Fail> {
    let mut table = IndexTable::empty(alloc, LOCKS)?;
    ask_and_list(alloc, &mut table)
}

#[test]
fn a_replica_of_many_locks_has_those_of_the_table(rt: HostRuntime) -> Result<(), Fail> {
    let alloc = rt.alloc();
    let plan = plan_by_lot(alloc)?;
    let (ops, list) = shipped(alloc)?;
    let given = given_over(alloc, plan, &[], ops.as_slice())?;
    assert!(rt; given.as_slice() == list.as_slice());
    Ok(())
}
