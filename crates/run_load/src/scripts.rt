use crate::orders::{Load, Order, Way};
use enq_base::NoMemory;
use std::alloc::Global;

/// The landscape of these scripts. Its numbers are reserved in blocks of 100.
pub const LANDSCAPE: &[u8] = b"max_locks = 100000\n\
[[object]]\n\
name = \"EZORDER\"\n\
fields = [{ name = \"MANDT\", width = 3 }, { name = \"ORDNR\", width = 10 }]\n\
[[object.table]]\n\
name = \"ZORDER\"\n\
keys = [\"MANDT\", \"ORDNR\"]\n\
[[range]]\n\
object = \"ZORDNR\"\n\
nr = \"01\"\n\
from = 1\n\
to = 9999999999\n\
buffer = 100\n\
percent = 0\n";

// How many sessions there are, and the lines that they begin with.
const SESSIONS: u32 = 4;

const LOGONS: &str = "S1 LOGON U1\nS2 LOGON U2\nS3 LOGON U3\nS4 LOGON U4\n";

// How many effects a V1 part has where it has nothing else.
const EFFECTS: u32 = 200;

/// The script in which four sessions record as many order entries each by turns, or as many units with large parts, and
/// then the counts are asked for.
pub fn script_of(alloc: Global, order: &Order) -> Result<Vec<u8>, NoMemory> {
    let mut text = String::new(alloc);
    put_script(&mut text, order)?;
    Ok(text.into_bytes())
}

fn put_script(text: &mut String, order: &Order) -> Result<(), NoMemory> {
    text.push_str(LOGONS)?;
    for time in 0..order.times {
        for session in 1..=SESSIONS {
            match order.load {
                Load::Entries => put_entry(text, session)?,
                Load::Parts => put_part(text, session, time)?,
            }
            if let Way::Replay = order.way {
                put_work(text, session)?;
            }
        }
    }
    text.push_str("? AUDIT\n")?;
    Ok(())
}

/// A number, the lock on the order of that number, its head and two items, a count, and the COMMIT.
fn put_entry(text: &mut String, session: u32) -> Result<(), NoMemory> {
    write!(text, "S{session} NUM ZORDNR 01 N\n")?;
    write!(text, "S{session} ENQ EZORDER E 2 MANDT=100 ORDNR=$N\n")?;
    write!(text, "S{session} V1 INS VBAK $N ORDER OF U{session}\n")?;
    write!(text, "S{session} V1 INS VBAP $N-10 PUMP\n")?;
    write!(text, "S{session} V1 INS VBAP $N-20 VALVE\n")?;
    write!(text, "S{session} V2 ADD STAT ORDERS 1\n")?;
    write!(text, "S{session} COMMIT\n")?;
    Ok(())
}

/// A text for each of 200 rows of the session's own, and the COMMIT.
fn put_part(text: &mut String, session: u32, time: u32) -> Result<(), NoMemory> {
    for effect in 0..EFFECTS {
        write!(
            text,
            "S{session} V1 PUT T {session}-{time}-{effect} TEXT OF SOME LENGTH {effect}\n"
        )?;
    }
    write!(text, "S{session} COMMIT\n")?;
    Ok(())
}

/// A worker of the session's number does both parts of the unit.
fn put_work(text: &mut String, session: u32) -> Result<(), NoMemory> {
    write!(
        text,
        "@{session} TAKE1\n@{session} DO1\n@{session} TAKE2\n@{session} DO2\n"
    )?;
    Ok(())
}
