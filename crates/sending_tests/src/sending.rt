use crate::noting::Noting;
use crate::rows::{Row, filled, has_rows};
use enq_base::{Items, Key, read_name};
use io_edge::MemSink;
use keeper_mem::MemKeeper;
use remote_sending::{TrfcWhy, trfc_main};
use remote_target::{Fate, MemCarrier, Target};
use std::alloc::Global;
use std::test::Fail;

/// How a run ends: its status, and why.
pub type End = (u8, TrfcWhy);

pub const DONE: End = (0, TrfcWhy::Done);

pub const SEND: &[&[u8]] = &[b"send"];

/// The devices of a sender with its system's rows, how its last run ended, and where this one wrote.
#[derive(Drop)]
pub struct Sender {
    pub rows: &'static [Row],
    pub system: MemKeeper,
    pub outbox: MemKeeper,
    pub carrier: Noting,
    pub sink: MemSink,
    pub end: End,
}

/// A carrier to a target without rows, whose keeper fails at some of its calls, on the side after at others where
/// these are commits.
fn carrier(alloc: Global, plan: &[Fate], fails: &[u64], after: &[u64]) -> Result<Noting, Fail> {
    let plan = Vec::from_slice(alloc, plan)?;
    let fails = Vec::from_slice(alloc, fails)?;
    let after = Vec::from_slice(alloc, after)?;
    match Target::open(alloc, MemKeeper::new(alloc, fails, after)?) {
        Ok(target) => Ok(Noting::new(alloc, MemCarrier::new(alloc, target, plan))),
        Err(_) => Err(Fail::from("no target")),
    }
}

pub fn sender_of(
    alloc: Global,
    rows: &'static [Row],
    outbox: &[Row],
    plan: &[Fate],
    fails: &[u64],
    after: &[u64],
) -> Result<Sender, Fail> {
    Ok(Sender {
        rows,
        sink: MemSink::new(alloc, Vec::new(alloc))?,
        system: filled(alloc, rows)?,
        outbox: filled(alloc, outbox)?,
        carrier: carrier(alloc, plan, fails, after)?,
        end: DONE,
    })
}

fn words_of(alloc: Global, words: &[&[u8]]) -> Result<Vec<Items<u8>>, Fail> {
    let mut list = Vec::new(alloc);
    for word in words {
        list.push(Items::from_vec(Vec::from_slice(alloc, word)?))?;
    }
    Ok(list)
}

/// Words, and a sink of which some writes fail.
fn given(alloc: Global, words: &[&[u8]], fails: &[u64]) -> Result<(Vec<Items<u8>>, MemSink), Fail> {
    let sink = MemSink::new(alloc, Vec::from_slice(alloc, fails)?)?;
    Ok((words_of(alloc, words)?, sink))
}

/// A run by these words. Some of its writes fail.
pub fn run(alloc: Global, words: &[&[u8]], fails: &[u64], sender: Sender) -> Result<Sender, Fail> {
    let (words, mut sink) = given(alloc, words, fails)?;
    let rows = sender.rows;
    let ended = trfc_main(
        alloc,
        words.as_slice(),
        &mut sink,
        sender.system,
        sender.outbox,
        sender.carrier,
    );
    Ok(Sender {
        rows,
        system: ended.system,
        outbox: ended.outbox,
        carrier: ended.carrier,
        sink,
        end: (ended.status, ended.why),
    })
}

/// Whether row N of a target's table STAT has this text, or isn't there where there is none.
fn has_number(
    alloc: Global,
    target: &mut Target<MemKeeper>,
    wanted: Option<&[u8]>,
) -> Result<bool, Fail> {
    let table = read_name(b"STAT").ok_or("a name")?;
    let key = Key::new(b"N").ok_or("a key")?;
    match target.reopen(alloc) {
        Ok(()) => {}
        Err(_) => return Err(Fail::from("no target")),
    }
    match target.read(alloc, &table, &key) {
        Ok(Some(text)) => Ok(wanted == Some(text.bytes())),
        Ok(None) => Ok(wanted.is_none()),
        Err(_) => Err(Fail::from("not read")),
    }
}

fn has_stores(alloc: Global, sender: &mut Sender, outbox: &[Row]) -> Result<bool, Fail> {
    let read = has_rows(alloc, &mut sender.system, sender.rows)?;
    Ok(has_rows(alloc, &mut sender.outbox, outbox)? && read)
}

/// Whether the system's rows are as they were, the outbox's these, and row N of the target's table STAT has this text.
pub fn stands(
    alloc: Global,
    sender: Sender,
    outbox: &[Row],
    number: Option<&[u8]>,
) -> Result<bool, Fail> {
    let mut sender = sender;
    let are_left = has_stores(alloc, &mut sender, outbox)?;
    let mut target = sender.carrier.into_target();
    Ok(has_number(alloc, &mut target, number)? && are_left)
}
