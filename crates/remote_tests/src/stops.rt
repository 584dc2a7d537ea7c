ghost use Rattle.std.specs.Prelude.{IfOk, OnOk};
ghost use Rattle.keeper_mem.specs.Memory.{IsSettled};

use crate::targets::{ADDS_FIVE, comes, keeper, key, opened, reads, text};
use keeper_mem::MemKeeper;
use remote_target::{Target, TargetFault};
use std::alloc::Global;
use std::process::Abort;
use std::test::Fail;

/// Sends the call, and where the target's store fails opens it anew and sends it once more.
fn sent(alloc: Global, target: &mut Target<MemKeeper>) -> Result<bool, Fail>
    requires { IsSettled target.old.keeper }
    ensures { OnOk result (IsSettled target.new.keeper) }
{
    let (tid, bytes, wanted) = ADDS_FIVE;
    let tid = key(tid)?;
    let text = text(alloc, bytes)?;
    match target.execute(alloc, &tid, &text) {
        Ok(outcome) => return Ok(outcome == wanted),
        Err(TargetFault::StoreFault) => {}
        Err(_) => return Err(Fail::from("another fault")),
    }
    match target.reopen(alloc) {
        Ok(()) => comes(alloc, target, &ADDS_FIVE),
        Err(_) => Err(Fail::from("not opened anew")),
    }
}

/// Whether the call is executed once where the keeper fails at one of its calls.
fn is_once(alloc: Global, fails: &[u64], after: &[u64]) -> Result<bool, Fail> {
    let mut target = opened(alloc, keeper(alloc, fails, after)?)?;
    let first = sent(alloc, &mut target)?;
    let again = sent(alloc, &mut target)?;
    let left = reads(alloc, &mut target, b"N", Some(b"5"))?;
    Ok(first && again && left)
}

// Four calls of a keeper open a target, three execute a call, and one looks for it when it comes again.
const STOPS: [u64; 8] = [1, 2, 3, 4, 5, 6, 7, 8];

#[test]
fn a_call_is_executed_once_wherever_the_store_stops(rt: HostRuntime) -> Result<(), Fail> {
    let alloc = rt.alloc();
    for k in 0..8 {
        let stop = [STOPS[k]];
        assert!(rt; is_once(alloc, &stop, &[])?, "before {k}");
        assert!(rt; is_once(alloc, &stop, &stop)?, "after {k}");
    }
    Ok(())
}
