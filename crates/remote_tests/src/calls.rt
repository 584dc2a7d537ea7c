ghost use Rattle.std.specs.Prelude.{IfOk, OnOk};
ghost use Rattle.keeper_mem.specs.Memory.{IsSettled};

use crate::targets::{Called, comes, keeper, opened, reads};
use enq_base::Reason;
use keeper_mem::MemKeeper;
use remote_target::{CallOutcome, Target};
use std::alloc::Global;
use std::process::Abort;
use std::test::Fail;

// Calls of the four forms, each identifier for the first time.
const CALLS: [Called; 8] = [
    (b"C1", b"ADD STAT N 5", CallOutcome::Done),
    (b"C2", b"DEL STAT T", CallOutcome::Refused(Reason::Missing)),
    (
        b"C3",
        b"INS STAT N 7",
        CallOutcome::Refused(Reason::Duplicate),
    ),
    (b"C4", b"PUT STAT T a text", CallOutcome::Done),
    (
        b"C5",
        b"ADD STAT T 1",
        CallOutcome::Refused(Reason::NotNumber),
    ),
    (
        b"C6",
        b"ADD STAT N 9223372036854775807",
        CallOutcome::Refused(Reason::Overflow),
    ),
    (b"C7", b"INS STAT U one", CallOutcome::Done),
    (b"C8", b"DEL STAT U", CallOutcome::Done),
];

// Identifiers that are known, with their own texts and with others: the outcome is the stored one.
const KNOWN: [Called; 5] = [
    (b"C1", b"ADD STAT N 5", CallOutcome::Done),
    (b"C1", b"DEL STAT N", CallOutcome::Done),
    (b"C2", b"DEL STAT T", CallOutcome::Refused(Reason::Missing)),
    (b"C7", b"INS STAT U one", CallOutcome::Done),
    (b"C8", b"GET STAT U", CallOutcome::Done),
];

// Texts outside the four forms.
const BAD: [Called; 9] = [
    (b"B1", b"GET STAT N", CallOutcome::BadText),
    (b"B2", b"PUT", CallOutcome::BadText),
    (b"B3", b"PUT STAT N", CallOutcome::BadText),
    (b"B4", b"INS STAT N ", CallOutcome::BadText),
    (b"B5", b"ADD STAT N five", CallOutcome::BadText),
    (b"B6", b"DEL 1STAT N", CallOutcome::BadText),
    (b"B7", b"DEL STAT N 5", CallOutcome::BadText),
    (b"B8", b"put STAT N 5", CallOutcome::BadText),
    (b"B1", b"ADD STAT N 5", CallOutcome::BadText),
];

/// Whether all calls come to what they have to.
fn all_come(alloc: Global, target: &mut Target<MemKeeper>, calls: &[Called]) -> Result<bool, Fail>
    requires { IsSettled target.old.keeper }
    ensures { OnOk result (IsSettled target.new.keeper) }
{
    let mut all = true;
    for call in calls {
        all = comes(alloc, target, call)? && all;
    }
    Ok(all)
}

/// A target that executed the calls.
fn called(alloc: Global) -> Result<Target<MemKeeper>, Fail>
    ensures { IfOk result (λ target. IsSettled target.keeper) }
{
    let mut target = opened(alloc, keeper(alloc, &[], &[])?)?;
    if !all_come(alloc, &mut target, &CALLS)? {
        return Err(Fail::from("another outcome"));
    }
    Ok(target)
}

/// Whether the rows are those that the calls leave.
fn are_left(alloc: Global, target: &mut Target<MemKeeper>) -> Result<bool, Fail>
    requires { IsSettled target.old.keeper }
    ensures { OnOk result (IsSettled target.new.keeper) }
{
    let number = reads(alloc, target, b"N", Some(b"5"))?;
    let text = reads(alloc, target, b"T", Some(b"a text"))?;
    let gone = reads(alloc, target, b"U", None)?;
    Ok(number && text && gone)
}

#[test]
fn a_call_comes_to_what_its_text_does(rt: HostRuntime) -> Result<(), Fail> {
    let alloc = rt.alloc();
    let mut target = called(alloc)?;
    assert!(rt; are_left(alloc, &mut target)?);
    Ok(())
}

#[test]
fn a_known_call_is_answered_from_the_store(rt: HostRuntime) -> Result<(), Fail> {
    let alloc = rt.alloc();
    let mut target = called(alloc)?;
    assert!(rt; all_come(alloc, &mut target, &KNOWN)?);
    assert!(rt; are_left(alloc, &mut target)?);
    Ok(())
}

#[test]
fn a_text_of_no_form_changes_nothing(rt: HostRuntime) -> Result<(), Fail> {
    let alloc = rt.alloc();
    let mut target = called(alloc)?;
    assert!(rt; all_come(alloc, &mut target, &BAD)?);
    assert!(rt; are_left(alloc, &mut target)?);
    Ok(())
}
