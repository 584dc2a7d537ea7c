ghost use Rattle.std.specs.Prelude.{◌≡◌, ◌++◌, ◌<◌, ◌+◌, ◌^◌, [], decimal, IfOk, OnOk};
ghost use Rattle.remote_sending.specs.Report as report;

use enq_base::{Key, NoMemory, Reason, put_number};
use remote_target::CallOutcome;
use std::alloc::Global;

/// How many calls have been executed, refused, and not answered yet.
#[derive(Clone, Copy, Debug, PartialEq, Eq)]
pub struct Counts {
    pub done: u64,
    pub bad: u64,
    pub open_calls: u64,
}

/// The numbers of no calls.
pub fn no_counts() -> Counts
    ensures { result ≡ report.counts_of [] }
{
    Counts {
        done: 0,
        bad: 0,
        open_calls: 0,
    }
}

/// The numbers with one call more.
pub fn counted(counts: Counts, outcome: Option<CallOutcome>) -> Counts
    requires done { counts.done + 1 < 2 ^ 64 }
    requires bad { counts.bad + 1 < 2 ^ 64 }
    requires opened { counts.open_calls + 1 < 2 ^ 64 }
    ensures { result ≡ report.counted counts outcome }
{
    let mut counts = counts;
    match outcome {
        Some(CallOutcome::Done) => counts.done += 1,
        Some(_) => counts.bad += 1,
        None => counts.open_calls += 1,
    }
    counts
}

fn reason_words(reason: Reason) -> &'static [u8]
    ensures { result.now ≡ report.reason_words reason }
{
    match reason {
        Reason::Duplicate => b" BAD DUPLICATE\n",
        Reason::Missing => b" BAD MISSING\n",
        Reason::NotNumber => b" BAD NOT_NUMBER\n",
        Reason::Overflow => b" BAD OVERFLOW\n",
    }
}

fn outcome_words(outcome: Option<CallOutcome>) -> &'static [u8]
    ensures { result.now ≡ report.outcome_words outcome }
{
    match outcome {
        None => b" OPEN\n",
        Some(CallOutcome::Done) => b" DONE\n",
        Some(CallOutcome::BadText) => b" BAD TEXT\n",
        Some(CallOutcome::Refused(reason)) => reason_words(reason),
    }
}

/// The line of a call.
pub fn call_line(
    alloc: Global,
    tid: &Key,
    outcome: Option<CallOutcome>,
) -> Result<Vec<u8>, NoMemory>
    ensures { IfOk result (λ line. line.items ≡ report.call_line tid.now outcome) }
{
    let mut line = Vec::from_slice(alloc, tid.bytes())?;
    line.extend_from_slice(outcome_words(outcome))?;
    Ok(line)
}

fn push_number(line: &mut Vec<u8>, word: &[u8], number: u64) -> Result<(), NoMemory>
    ensures { OnOk result (line.new.items ≡ line.old.items ++ (word.now ++ decimal number)) }
{
    let mut digits = [0; 20];
    let len = put_number(number, &mut digits);
    line.extend_from_slice(word)?;
    line.extend_from_slice(&digits[..len])?;
    Ok(())
}

/// The last line: how many calls there are, and what became of them.
pub fn counts_line(alloc: Global, number: u64, counts: Counts) -> Result<Vec<u8>, NoMemory>
    ensures { IfOk result (λ line. line.items ≡ report.counts_line number counts) }
{
    let mut line = Vec::new(alloc);
    push_number(&mut line, b"CALLS ", number)?;
    push_number(&mut line, b" DONE ", counts.done)?;
    push_number(&mut line, b" BAD ", counts.bad)?;
    push_number(&mut line, b" OPEN ", counts.open_calls)?;
    line.extend_from_slice(b"\n")?;
    Ok(line)
}
