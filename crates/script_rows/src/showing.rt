use crate::faults::CaseFault;
use enq_cmd::Why;
use enqd_texts::EndLine;
use keeper_api::Row;
use std::alloc::Global;

/// Shows replies, or the last lines of them, behind a line that tells how many stand before. A line without its end is
/// shown with a backslash in its place.
pub(crate) fn show_replies(
    alloc: Global,
    replies: &[u8],
    last: Option<usize>,
    shown: &mut Vec<u8>,
) -> Result<(), CaseFault> {
    let mut skipped = match last {
        Some(last) => lines_in(replies).saturating_sub(last),
        None => 0,
    };
    if skipped > 0 {
        let line = format!(in alloc; "({skipped} lines)\n")?;
        shown.extend_from_slice(line.as_bytes())?;
    }
    for byte in replies {
        if skipped == 0 {
            shown.push(*byte)?;
        } else if *byte == b'\n' {
            skipped -= 1;
        }
    }
    if !replies.is_empty() && !replies.ends_with(b"\n") {
        shown.extend_from_slice(b"\\\n")?;
    }
    Ok(())
}

fn lines_in(bytes: &[u8]) -> usize {
    bytes.iter().filter(|byte| **byte == b'\n').count()
}

/// Shows how a start ended: its status, and the line on standard error where there is one.
pub(crate) fn show_end(
    alloc: Global,
    status: u8,
    why: Why,
    shown: &mut Vec<u8>,
) -> Result<(), CaseFault> {
    let line = match why {
        Why::Done => format!(in alloc; "status {status}\n")?,
        _ => format!(in alloc; "status {status} {}\n", EndLine(why))?,
    };
    shown.extend_from_slice(line.as_bytes())?;
    Ok(())
}

/// Shows a row as a line: its table, its key and its value.
pub(crate) fn show_row(
    alloc: Global,
    table: u8,
    row: &Row,
    shown: &mut Vec<u8>,
) -> Result<(), CaseFault> {
    let head = format!(in alloc; "row {table} ")?;
    shown.extend_from_slice(head.as_bytes())?;
    for byte in row.key.as_slice() {
        match *byte {
            b' ' => shown.extend_from_slice(b"\\x20")?,
            byte => show_byte(alloc, byte, shown)?,
        }
    }
    shown.push(b' ')?;
    for byte in row.value.as_slice() {
        show_byte(alloc, *byte, shown)?;
    }
    shown.push(b'\n')?;
    Ok(())
}

/// Shows the bytes of the backup file as a line.
pub(crate) fn show_backup(
    alloc: Global,
    bytes: Vec<u8>,
    shown: &mut Vec<u8>,
) -> Result<(), CaseFault> {
    shown.extend_from_slice(b"backup ")?;
    for byte in &bytes {
        show_byte(alloc, *byte, shown)?;
    }
    shown.push(b'\n')?;
    Ok(())
}

/// Shows a byte as itself where it is printed, else by what stands for it in cases.
fn show_byte(alloc: Global, byte: u8, shown: &mut Vec<u8>) -> Result<(), CaseFault> {
    match byte {
        b'\\' => shown.extend_from_slice(b"\\\\")?,
        b' '..=b'~' => shown.push(byte)?,
        0 => shown.extend_from_slice(b"\\0")?,
        _ => {
            let escape = format!(in alloc; "\\x{byte:02x}")?;
            shown.extend_from_slice(escape.as_bytes())?;
        }
    }
    Ok(())
}
