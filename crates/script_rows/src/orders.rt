use crate::cases::{Image, PlannedFaults, Step, StoreRow};
use crate::escapes::{decoded, read_count};
use crate::faults::CaseFault;
use crate::links::Hands;
use enq_base::Items;
use keeper_mem::Stop;
use std::alloc::Global;

// How many calls behind it fail with the call at which a disk stops: more than a case makes.
const STOPPED: u64 = 1000;

/// Plans that a call of a device fails.
pub(crate) fn plan_failure(
    device: &str,
    call: &str,
    number: Option<u64>,
    faults: &mut PlannedFaults,
) -> Result<(), CaseFault> {
    let (call, is_kept) = read_call(call, number)?;
    if is_kept {
        if device != "store" {
            return Err(CaseFault::NoForm);
        }
        faults.store.kept.push(call)?;
    }
    let fails = match device {
        "landscape" => &mut faults.landscape,
        "script" => &mut faults.script,
        "sink" => &mut faults.sink,
        "store" => &mut faults.store.fails,
        "backup" => &mut faults.backup,
        "link" => &mut faults.link,
        _ => return Err(CaseFault::NoForm),
    };
    fails.push(call)?;
    Ok(())
}

/// Plans that a device stops at a call.
pub(crate) fn plan_stop(
    device: &str,
    call: &str,
    number: Option<u64>,
    faults: &mut PlannedFaults,
) -> Result<(), CaseFault> {
    let (at, after) = read_call(call, number)?;
    match device {
        "store" => faults.store.stop = Some(Stop { at, after }),
        "backup" if !after => stop_disk(at, &mut faults.backup)?,
        _ => return Err(CaseFault::NoForm),
    }
    Ok(())
}

/// The call and those behind it fail.
fn stop_disk(at: u64, fails: &mut Vec<u64>) -> Result<(), CaseFault> {
    for call in at..at.saturating_add(STOPPED) {
        fails.push(call)?;
    }
    Ok(())
}

/// Reads what a link hands over that doesn't hand over what its replica has.
pub(crate) fn read_hands(text: &str) -> Result<Hands, CaseFault> {
    match text {
        "all but the last" => Ok(Hands::Fewer),
        "the first twice" => Ok(Hands::Twice),
        "backwards" => Ok(Hands::Backwards),
        _ => Err(CaseFault::NoForm),
    }
}

/// Reads `N` or `N kept`: the number of a call, and whether what it was to write is there all the same.
fn read_call(text: &str, number: Option<u64>) -> Result<(u64, bool), CaseFault> {
    let (call, is_kept) = match text.strip_suffix(" kept") {
        Some(call) => (call, true),
        None => (text, false),
    };
    Ok((read_number(call, number)?, is_kept))
}

/// Reads a number, or the one that the case is played for.
pub(crate) fn read_number(text: &str, number: Option<u64>) -> Result<u64, CaseFault> {
    if text == "\\#" {
        return number.ok_or(CaseFault::NoNumber);
    }
    read_count(text)
}

/// Reads `PLACE BYTE`: a byte that is put into the backup file.
pub(crate) fn read_patch(
    alloc: Global,
    text: &str,
    number: Option<u64>,
) -> Result<Step, CaseFault> {
    let Some((at, byte)) = text.split_once(' ') else {
        return Err(CaseFault::NoForm);
    };
    let at = read_number(at, number)?;
    match decoded(alloc, byte, number)?.as_slice() {
        [byte] => Ok(Step::Patch(at, *byte)),
        _ => Err(CaseFault::NoForm),
    }
}

/// Changes the landscape, by `OLD => NEW`.
pub(crate) fn change_landscape(
    alloc: Global,
    text: &str,
    number: Option<u64>,
    landscape: &mut Vec<u8>,
) -> Result<(), CaseFault> {
    let Some((old, new)) = text.split_once(" => ") else {
        return Err(CaseFault::NoForm);
    };
    let old = decoded(alloc, old, number)?;
    let new = decoded(alloc, new, number)?;
    *landscape = changed(alloc, landscape.as_slice(), old.as_slice(), new.as_slice())?;
    Ok(())
}

/// A text with something new in the place of something that stands in it just once.
fn changed(alloc: Global, text: &[u8], old: &[u8], new: &[u8]) -> Result<Vec<u8>, CaseFault> {
    let mut whole = Vec::new(alloc);
    let mut is_changed = false;
    // How many bytes of what is replaced are still to be passed over.
    let mut passed = 0usize;
    for at in 0..text.len() {
        if passed > 0 {
            passed -= 1;
        } else if text[at..].starts_with(old) {
            if is_changed {
                return Err(CaseFault::NotOnce);
            }
            is_changed = true;
            passed = old.len().saturating_sub(1);
            whole.extend_from_slice(new)?;
        } else {
            whole.push(text[at])?;
        }
    }
    if is_changed {
        Ok(whole)
    } else {
        Err(CaseFault::NotOnce)
    }
}

/// Reads words that are parted by a space each, of which `""` is the empty one; nothing is no word.
pub(crate) fn read_words(
    alloc: Global,
    text: &str,
    number: Option<u64>,
) -> Result<Vec<Items<u8>>, CaseFault> {
    let mut words = Vec::new(alloc);
    if text.is_empty() {
        return Ok(words);
    }
    for word in text.split(' ') {
        let word = if word == "\"\"" { "" } else { word };
        words.push(Items::from_vec(decoded(alloc, word, number)?))?;
    }
    Ok(words)
}

/// Reads `TABLE KEY VALUE`.
pub(crate) fn read_row(
    alloc: Global,
    text: &str,
    number: Option<u64>,
) -> Result<StoreRow, CaseFault> {
    let Some((table, rest)) = text.split_once(' ') else {
        return Err(CaseFault::NoForm);
    };
    let Some((key, value)) = rest.split_once(' ') else {
        return Err(CaseFault::NoForm);
    };
    let table = table_of(table)?;
    let key = decoded(alloc, key, number)?;
    if key.as_slice().is_empty() {
        return Err(CaseFault::NoForm);
    }
    let value = decoded(alloc, value, number)?;
    Ok(StoreRow { table, key, value })
}

/// Reads the number of a table, or nothing.
pub(crate) fn read_table(text: &str) -> Result<Option<u8>, CaseFault> {
    if text.is_empty() {
        return Ok(None);
    }
    Ok(Some(table_of(text)?))
}

/// Reads which image of the backup file a crash leaves.
pub(crate) fn read_image(text: &str) -> Result<Image, CaseFault> {
    match text {
        "synced" => Ok(Image::Synced),
        "read" => Ok(Image::Read),
        "ff" => Ok(Image::Ones),
        "01" => Ok(Image::Opened),
        _ => Err(CaseFault::NoForm),
    }
}

fn table_of(text: &str) -> Result<u8, CaseFault> {
    match text.parse::<u8>() {
        Ok(table) => Ok(table),
        Err(_) => Err(CaseFault::NoNumber),
    }
}

/// Reads a number of lines.
pub(crate) fn read_length(text: &str) -> Result<usize, CaseFault> {
    match text.parse::<usize>() {
        Ok(length) => Ok(length),
        Err(_) => Err(CaseFault::NoNumber),
    }
}
