use crate::rows::Row;
use crate::sending::{DONE, End, SEND, Sender, run, sender_of, stands};
use remote_sending::TrfcWhy;
use std::alloc::Global;
use std::process::Abort;
use std::test::Fail;

// Calls with each kind of outcome, and another row.
const SYSTEM: [Row; 5] = [
    (6, b"\x04STATN", b"1"),
    (6, b"\x07TRFCOUTC1", b"ADD STAT N 5"),
    (6, b"\x07TRFCOUTC2", b"DEL T 9"),
    (6, b"\x07TRFCOUTC3", b"INS STAT T one"),
    (6, b"\x07TRFCOUTC4", b"GET STAT N"),
];

const LEFT: [Row; 4] = [
    (0, b"C1", b"\x01\0ADD STAT N 5"),
    (0, b"C2", b"\x03\x02DEL T 9"),
    (0, b"C3", b"\x01\0INS STAT T one"),
    (0, b"C4", b"\x02\0GET STAT N"),
];

const TEXT: &[u8] = b"C1 DONE\nC2 BAD MISSING\nC3 DONE\nC4 BAD TEXT\nCALLS 4 DONE 2 BAD 2 OPEN 0\n";

const LAST: &[u8] = b"CALLS 4 DONE 2 BAD 2 OPEN 0\n";

const TURNS: &[u8] = b"C1 C2 C3 C4 ";

// One call may be sent twice, whose answer was lost or wasn't stored.
const SENT: [&[u8]; 5] = [
    TURNS,
    b"C1 C1 C2 C3 C4 ",
    b"C1 C2 C2 C3 C4 ",
    b"C1 C2 C3 C3 C4 ",
    b"C1 C2 C3 C4 C4 ",
];

/// What stops. The target's keeper fails for so many calls, each other device until it is made anew.
enum Device {
    Sink,
    System,
    Outbox,
    Target(u64),
}

/// What stops, whether a commit at which it stops falls on the side after, how the run ends then, how many runs more
/// settle all calls, and a call at which it has to stop too.
type Stop = (Device, bool, End, u32, u64);

// Each call is stored twice, and told in a line; the target looks for each and commits it.
const STOPS: [Stop; 10] = [
    (Device::Sink, false, (6, TrfcWhy::SinkFault), 1, 5),
    (Device::System, false, (7, TrfcWhy::SystemFault), 1, 2),
    (Device::Outbox, false, (8, TrfcWhy::OutboxFault), 1, 10),
    (Device::Outbox, true, (8, TrfcWhy::OutboxFault), 1, 10),
    (Device::Target(1), false, DONE, 1, 12),
    (Device::Target(1), true, DONE, 1, 12),
    (Device::Target(12), false, DONE, 2, 12),
    (Device::Target(12), true, DONE, 2, 12),
    (Device::Target(30), false, DONE, 4, 12),
    (Device::Target(30), true, DONE, 4, 12),
];

/// The first call at which a device stops: four calls of its keeper open a target.
fn first_of(device: &Device) -> u64 {
    match device {
        Device::Target(_) => 5,
        _ => 1,
    }
}

/// The calls from this one on at which the target's keeper fails.
fn fails_of(alloc: Global, device: &Device, k: u64) -> Result<Vec<u64>, Fail> {
    let mut fails = Vec::new(alloc);
    let Device::Target(calls) = device else {
        return Ok(fails);
    };
    for number in k..k.saturating_add(*calls) {
        fails.push(number)?;
    }
    Ok(fails)
}

fn sender_at(alloc: Global, device: &Device, after: bool, k: u64) -> Result<Sender, Fail> {
    let fails = fails_of(alloc, device, k)?;
    let count = if after { fails.len() } else { 0 };
    let sides = &fails.as_slice()[..count];
    sender_of(alloc, &SYSTEM, &[], &[], fails.as_slice(), sides)
}

/// A run in which a device stops at its call `k`.
fn stopped(alloc: Global, stop: &Stop, k: u64) -> Result<Sender, Fail> {
    let (device, after, _, _, _) = stop;
    let mut sender = sender_at(alloc, device, *after, k)?;
    match device {
        Device::Sink => return run(alloc, SEND, &[k], sender),
        Device::System => sender.system = sender.system.stop(k, *after),
        Device::Outbox => sender.outbox = sender.outbox.stop(k, *after),
        Device::Target(_) => {}
    }
    run(alloc, SEND, &[], sender)
}

/// Whether nothing stopped in the first run.
fn is_whole(sender: &Sender) -> bool {
    sender.end == DONE && sender.sink.bytes() == TEXT && sender.carrier.turns() == TURNS
}

/// Whether what a stopped run wrote is a beginning, and all of it where just one answer was lost.
fn is_begun(device: &Device, text: &[u8]) -> bool {
    match device {
        Device::Target(1) => text == TEXT,
        Device::Target(_) => text.ends_with(b"\n"),
        _ => TEXT.starts_with(text),
    }
}

/// Whether no call was sent that had an outcome.
fn is_sent(device: &Device, after: bool, turns: &[u8]) -> bool {
    match device {
        Device::Target(1) => SENT.contains(&turns),
        Device::Target(_) => true,
        Device::Outbox => SENT.contains(&turns) && (!after || turns == TURNS),
        _ => turns == TURNS,
    }
}

/// Runs as often over devices that are made anew.
fn settled(alloc: Global, runs: u32, stopped: Sender) -> Result<Sender, Fail> {
    let mut sender = stopped;
    sender.system = sender.system.again(Vec::new(alloc), Vec::new(alloc));
    sender.outbox = sender.outbox.again(Vec::new(alloc), Vec::new(alloc));
    for _ in 0..runs {
        sender = run(alloc, SEND, &[], sender)?;
    }
    Ok(sender)
}

/// Whether a run found nothing to send.
fn is_quiet(sender: &Sender) -> bool {
    sender.end == DONE && sender.sink.bytes() == LAST && sender.carrier.turns().is_empty()
}

/// Whether all calls are settled by later runs, and one behind these finds nothing to send.
fn goes_on(alloc: Global, stop: &Stop, stopped: Sender) -> Result<bool, Fail> {
    let (device, after, end, runs, _) = stop;
    let begun = stopped.end == *end && is_begun(device, stopped.sink.bytes());
    let mut sender = settled(alloc, *runs, stopped)?;
    let told = sender.end == DONE && sender.sink.bytes().ends_with(LAST);
    let sent = is_sent(device, *after, sender.carrier.turns());
    sender.carrier.forget();
    let sender = settled(alloc, 1, sender)?;
    let quiet = is_quiet(&sender);
    Ok(stands(alloc, sender, &LEFT, Some(b"5"))? && begun && told && sent && quiet)
}

/// The first call at which a device doesn't stop a run any more. None where a run doesn't go on from a stop.
fn end_of(alloc: Global, stop: &Stop) -> Result<Option<u64>, Fail> {
    for k in first_of(&stop.0)..64 {
        let sender = stopped(alloc, stop, k)?;
        if is_whole(&sender) {
            return Ok(Some(k));
        }
        if !goes_on(alloc, stop, sender)? {
            return Ok(None);
        }
    }
    Ok(None)
}

#[test]
fn each_call_is_executed_once_whatever_stops(rt: HostRuntime) -> Result<(), Fail> {
    let alloc = rt.alloc();
    for (i, stop) in STOPS.iter().enumerate() {
        assert!(rt; end_of(alloc, stop)? > Some(stop.4), "stop {i}");
    }
    Ok(())
}
