use crate::escapes::{decode, decoded, read_count};
use crate::faults::CaseFault;
use std::alloc::Global;

/// Puts a line of a script behind these bytes, or the lines that it stands for.
pub(crate) fn put_line(
    alloc: Global,
    line: &str,
    number: Option<u64>,
    script: &mut Vec<u8>,
) -> Result<(), CaseFault> {
    if let Some((head, repeated)) = line.split_once(": ") {
        if let Some(times) = times_of(head) {
            return put_times(alloc, repeated, number, times, script);
        }
        if let Some((first, last)) = span_of(head) {
            for number in first..=last {
                put_one(alloc, repeated, Some(number), script)?;
            }
            return Ok(());
        }
    }
    put_one(alloc, line, number, script)
}

fn put_one(
    alloc: Global,
    line: &str,
    number: Option<u64>,
    script: &mut Vec<u8>,
) -> Result<(), CaseFault> {
    if !decode(alloc, line, number, script)? {
        script.push(b'\n')?;
    }
    Ok(())
}

fn put_times(
    alloc: Global,
    line: &str,
    number: Option<u64>,
    times: u64,
    script: &mut Vec<u8>,
) -> Result<(), CaseFault> {
    let mut repeated = decoded(alloc, line, number)?;
    repeated.push(b'\n')?;
    for _ in 0..times {
        script.extend_from_slice(repeated.as_slice())?;
    }
    Ok(())
}

/// The count of `N times`.
fn times_of(head: &str) -> Option<u64> {
    let times = head.strip_suffix(" times")?;
    read_count(times).ok()
}

/// The numbers of `A to B`.
pub(crate) fn span_of(head: &str) -> Option<(u64, u64)> {
    let (first, last) = head.split_once(" to ")?;
    Some((read_count(first).ok()?, read_count(last).ok()?))
}
