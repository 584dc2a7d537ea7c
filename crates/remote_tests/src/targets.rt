ghost use Rattle.std.specs.Prelude.{IfOk, OnOk};
ghost use Rattle.keeper_mem.specs.Memory.{IsSettled, held_rows};
ghost use Rattle.remote_target.specs.Executed.{executed_in};
ghost use Rattle.remote_target.specs.Targets.{HasExecuted};

use enq_base::{Key, Text, read_name};
use keeper_mem::MemKeeper;
use remote_target::{CallOutcome, Target, TargetFault};
use std::alloc::Global;
use std::test::Fail;

/// The identifier and the text of a call, and what it has to come to.
pub type Called = (&'static [u8], &'static [u8], CallOutcome);

/// The call of which the tests ask that it is executed once.
pub const ADDS_FIVE: Called = (b"C1", b"ADD STAT N 5", CallOutcome::Done);

/// A keeper without rows. It fails at some of its calls, and where such a call is a commit, this falls on the side
/// after at others.
pub fn keeper(alloc: Global, fails: &[u64], after: &[u64]) -> Result<MemKeeper, Fail> {
    let fails = Vec::from_slice(alloc, fails)?;
    let after = Vec::from_slice(alloc, after)?;
    Ok(MemKeeper::new(alloc, fails, after)?)
}

pub fn key(bytes: &[u8]) -> Result<Key, Fail> {
    Ok(Key::new(bytes).ok_or("a key")?)
}

pub fn text(alloc: Global, bytes: &[u8]) -> Result<Text, Fail> {
    match Text::new(alloc, bytes) {
        Ok(text) => Ok(text),
        Err(_) => Err(Fail::from("a text")),
    }
}

/// Opens a target, and once more where its keeper fails at first.
pub fn opened(alloc: Global, keeper: MemKeeper) -> Result<Target<MemKeeper>, Fail>
    ensures settled { IfOk result (λ target. IsSettled target.keeper) }
    ensures stands { IfOk result (λ target. HasExecuted held_rows target (executed_in target.keeper.rows)) }
{
    match Target::open(alloc, keeper) {
        Ok(target) => Ok(target),
        Err((TargetFault::StoreFault, keeper)) => match Target::open(alloc, keeper) {
            Ok(target) => Ok(target),
            Err(_) => Err(Fail::from("not opened")),
        },
        Err(_) => Err(Fail::from("not opened")),
    }
}

/// Whether a call comes to what it has to.
pub fn comes(alloc: Global, target: &mut Target<MemKeeper>, call: &Called) -> Result<bool, Fail>
    requires { IsSettled target.old.keeper }
    ensures { OnOk result (IsSettled target.new.keeper) }
{
    let (tid, bytes, wanted) = call;
    let tid = key(tid)?;
    let text = text(alloc, bytes)?;
    match target.execute(alloc, &tid, &text) {
        Ok(outcome) => Ok(outcome == *wanted),
        Err(_) => Err(Fail::from("a fault")),
    }
}

/// Whether a row has this text, or isn't there where there is none.
pub fn reads(
    alloc: Global,
    target: &mut Target<MemKeeper>,
    row: &[u8],
    wanted: Option<&[u8]>,
) -> Result<bool, Fail>
    requires { IsSettled target.old.keeper }
    ensures { OnOk result (IsSettled target.new.keeper) }
{
    let table = read_name(b"STAT").ok_or("a name")?;
    match target.read(alloc, &table, &key(row)?) {
        Ok(Some(text)) => match wanted {
            Some(bytes) => Ok(text.bytes() == bytes),
            None => Ok(false),
        },
        Ok(None) => Ok(wanted.is_none()),
        Err(_) => Err(Fail::from("not read")),
    }
}
