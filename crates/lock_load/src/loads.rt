ghost use Rattle.std.specs.Prelude.{◌≤◌, ◌<◌, IfSome};
ghost use Rattle.lock_entry.specs.Pairs.{IsPair};

use crate::orders::{Load, Order};
use enq_base::{Name, Owner, Pattern, UnitKey, read_name};
use lock_entry::{AskFault, Asked, Asker, LockStore, Mode, Request};
use lock_index::IndexTable;
use std::alloc::Global;

/// What a load came to.
#[derive(Clone, Copy)]
pub struct Tally {
    pub granted: u32,
    /// How many asks were refused since the lock stands for another owner.
    pub refused: u32,
    pub freed: u32,
    /// How many locks stand at the end.
    pub left: u32,
}

// Asks and frees go this far from one lock to the next. It divides no number of locks but its multiples.
const STRIDE: u64 = 7_919;

/// Does a load over a table of its own. None where memory is wanting.
pub fn do_load(alloc: Global, order: &Order) -> Option<Tally>
    requires { order.now.locks ≤ 1000000 }
{
    let mut table = IndexTable::empty(alloc, order.locks).ok()?;
    do_load_over(alloc, &mut table, order)
}

fn do_load_over(alloc: Global, table: &mut IndexTable, order: &Order) -> Option<Tally>
    requires { order.now.locks ≤ 1000000 }
{
    let granted = grant_all(alloc, table, order.locks)?;
    let refused = match order.load {
        Load::Asks => ask_again(alloc, table, order.locks, order.asks)?,
        Load::Grants | Load::Frees => 0,
    };
    let freed = match order.load {
        Load::Frees => free_all(table, order.locks)?,
        Load::Grants | Load::Asks => 0,
    };
    Some(Tally {
        granted,
        refused,
        freed,
        left: table.len(),
    })
}

/// The owners of a session's first unit.
fn owners_of(session: u32) -> Asker
    ensures { IsPair result }
{
    Asker {
        dialogue: Owner::Dlg { start: 1, session },
        update: Owner::Upd(UnitKey {
            start: 1,
            session,
            luw: 1,
        }),
    }
}

fn user() -> Option<Name> {
    read_name(b"MILLER")
}

/// The exclusive lock on an order.
fn lock_on(order: u32) -> Option<Asked> {
    let mut digits = [b'0'; 13];
    let mut rest = 1_000_000_000_000 + u64::from(order);
    for digit in digits.iter_mut().rev() {
        *digit = b'0' + (rest % 10) as u8;
        rest /= 10;
    }
    Some(Asked {
        table: read_name(b"ZORDER")?,
        pattern: Pattern::new(&digits)?,
        mode: Mode::E,
    })
}

/// One session is granted the locks on the orders from 1 on.
fn grant_all(alloc: Global, table: &mut IndexTable, locks: u32) -> Option<u32>
    requires { locks ≤ 1000000 }
{
    let asker = owners_of(1);
    let user = user()?;
    let mut granted: u32 = 0;
    for order in 0..locks {
        let request = dialogue_request(lock_on(order + 1)?);
        match table.ask(alloc, &asker, &user, &[request]) {
            Ok(()) => granted = granted.saturating_add(1),
            Err(_) => return None,
        }
    }
    Some(granted)
}

fn dialogue_request(asked: Asked) -> Request {
    Request {
        asked,
        dialogue: true,
        update: false,
    }
}

/// Another session asks for the locks, every 7,919th in turn, so many times in all. The requests are made before the
/// first ask.
fn ask_again(alloc: Global, table: &mut IndexTable, locks: u32, asks: u32) -> Option<u32>
    requires { locks ≤ 1000000 }
{
    let requests = requests_for(alloc, locks)?;
    ask_each(alloc, table, requests.as_slice(), asks)
}

fn ask_each(alloc: Global, table: &mut IndexTable, requests: &[Request], asks: u32) -> Option<u32> {
    let asker = owners_of(2);
    let user = user()?;
    let mut next: usize = 0;
    let mut refused: u32 = 0;
    for _ in 0..asks {
        if next >= requests.len() {
            next = 0;
        }
        let request = requests.get(next..next + 1)?;
        match table.ask(alloc, &asker, &user, request) {
            Err(AskFault::Foreign(_)) => refused = refused.saturating_add(1),
            Err(AskFault::NoMemory) => return None,
            _ => {}
        }
        next += 1;
    }
    Some(refused)
}

/// A request for each lock, every 7,919th in turn.
fn requests_for(alloc: Global, locks: u32) -> Option<Vec<Request>>
    requires { locks ≤ 1000000 }
{
    let mut requests = Vec::new(alloc);
    for turn in 0..locks {
        requests
            .push(dialogue_request(lock_on(place_of(turn, locks) + 1)?))
            .ok()?;
    }
    Some(requests)
}

/// Where the lock of this turn stands, counted from 0.
fn place_of(turn: u32, locks: u32) -> u32
    requires { turn < locks }
    ensures { result < locks }
{
    (u64::from(turn) * STRIDE % u64::from(locks)) as u32
}

/// Each lock is freed, every 7,919th in turn.
fn free_all(table: &mut IndexTable, locks: u32) -> Option<u32>
    requires { locks ≤ 1000000 }
{
    let owner = owners_of(1).dialogue;
    let mut freed: u32 = 0;
    for turn in 0..locks {
        if table.free_one(&owner, &lock_on(place_of(turn, locks) + 1)?) {
            freed = freed.saturating_add(1);
        }
    }
    Some(freed)
}
