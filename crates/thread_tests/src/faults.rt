use crate::halls::Failing;
use crate::runs::run_over;
use script_runner::Why;
use std::alloc::Global;
use std::sync::Wait;
use std::test::*;
use std::thread::Threads;
use turn_desks::NoGate;

// A unit of each session. Each number is drawn once, so that no lock of A's stands in the way of another.
const UNITS: &str = "A NUM ZORDNR 01 N
B V1 ADD STAT N 1
A ENQ EZORDER E 2 MANDT=100 ORDNR=$N
B READ STAT N V
A V1 INS T $N X
A V2 ADD STAT N 1
B COMMIT
A COMMIT
";

fn orders(alloc: Global) -> Result<String, Fail> {
    let mut script = String::new(alloc);
    script.push_str("A LOGON MILLER\nB LOGON SMITH\n")?;
    for _ in 0..10 {
        script.push_str(UNITS)?;
    }
    Ok(script)
}

/// Why a run of four workers ended over a device that fails, and whether its history is served again. None where it
/// fails before the store is open.
fn end_over<R: Threads + Wait + Sync>(
    rt: &R,
    alloc: Global,
    failing: Failing,
) -> Result<Option<(Why, bool)>, Fail> {
    let script = orders(alloc)?;
    match run_over(rt, alloc, 4, script.as_bytes(), failing, &NoGate)? {
        Some(heard) => Ok(Some((heard.why, heard.again))),
        None => Ok(None),
    }
}

// Those of the opening, and 40 behind it.
const CALLS: u64 = 60;

#[test]
fn a_history_over_a_failing_store_is_served_again(rt: HostRuntime) -> Result<(), Fail> {
    let mut met = 0u64;
    for keeper in 1..=CALLS {
        let failing = Failing { keeper, disk: 0 };
        if let Some((why, again)) = end_over(&rt, rt.alloc(), failing)? {
            assert!(rt; matches!(why, Why::StoreFault(_)), "{keeper}");
            assert!(rt; again, "{keeper}");
            met = met.saturating_add(1);
        }
    }
    assert!(rt; met >= 40);
    Ok(())
}

#[test]
fn a_history_over_a_failing_disk_is_served_again(rt: HostRuntime) -> Result<(), Fail> {
    let mut met = 0u64;
    for disk in 1..=CALLS {
        let failing = Failing { keeper: 0, disk };
        if let Some((why, again)) = end_over(&rt, rt.alloc(), failing)? {
            assert!(rt; matches!(why, Why::BackupFault(_)), "{disk}");
            assert!(rt; again, "{disk}");
            met = met.saturating_add(1);
        }
    }
    assert!(rt; met >= 40);
    Ok(())
}
