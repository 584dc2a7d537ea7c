ghost use Rattle.std.specs.Prelude.{◌≤◌};
ghost use Rattle.gauges.specs.Boards.{latest, IsReaderOf, IsWriterOf};

use crate::held::{Flags, ROUNDS, publish_until};
use crate::readings::readings_of;
use gauges::{GaugePass, Gauges};
use std::alloc::Global;
use std::sync::atomic::{AtomicBool, Ordering};
use std::thread;
use std::thread::{Threads, join};

// Looks until a reading has risen above 0, and says whether one did.
fn see_rise(gauges: &Gauges, mut pass: GaugePass, flags: &Flags) -> bool
    requires { IsReaderOf gauges.now pass }
{
    let mut risen = false;
    for _ in 0..ROUNDS {
        if gauges.look(&mut pass).past > 0 {
            risen = true;
            break;
        }
        thread::yield_now();
    }
    flags.done.store(true, Ordering::SeqCst);
    risen
}

/// Looks in one thread while another publishes, and says whether a reading rose. None is want of memory.
pub fn readings_rise<R: Threads + Sync>(rt: &R, alloc: Global) -> Option<bool> {
    let Ok((gauges, mut writer, pass)) = Gauges::new(alloc, readings_of(0)) else {
        return None;
    };
    let flags = Flags {
        begun: AtomicBool::new(false),
        done: AtomicBool::new(false),
    };
    let board = &gauges;
    let shown = &flags;
    let (risen, in_time) = join(
        rt,
        || -> bool
            requires { IsReaderOf board.now pass }
        { see_rise(board, pass, shown) },
        || -> bool
            requires { IsWriterOf board.now writer × ((latest writer).past ≤ 0) }
        { publish_until(board, &mut writer, shown) },
    );
    Some(risen && in_time)
}
