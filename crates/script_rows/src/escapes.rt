use crate::faults::CaseFault;
use std::alloc::Global;

/// Puts behind these bytes what a text stands for, where `\#` stands for this number. Tells whether the text ends with
/// a lone backslash, which stands for nothing.
pub(crate) fn decode(
    alloc: Global,
    text: &str,
    number: Option<u64>,
    bytes: &mut Vec<u8>,
) -> Result<bool, CaseFault> {
    // A part behind a backslash begins with what that stands for, unless it is the second of two.
    let mut is_plain = true;
    for part in text.split('\\') {
        if is_plain {
            bytes.extend_from_slice(part.as_bytes())?;
            is_plain = false;
        } else if part.is_empty() {
            bytes.push(b'\\')?;
            is_plain = true;
        } else {
            decode_escape(alloc, part, number, bytes)?;
        }
    }
    if is_plain {
        let _ = bytes.pop();
    }
    Ok(is_plain)
}

/// What a text stands for.
pub(crate) fn decoded(
    alloc: Global,
    text: &str,
    number: Option<u64>,
) -> Result<Vec<u8>, CaseFault> {
    let mut bytes = Vec::new(alloc);
    if decode(alloc, text, number, &mut bytes)? {
        return Err(CaseFault::NoEscape);
    }
    Ok(bytes)
}

/// Puts behind these bytes what a part of a text behind a backslash stands for.
fn decode_escape(
    alloc: Global,
    part: &str,
    number: Option<u64>,
    bytes: &mut Vec<u8>,
) -> Result<(), CaseFault> {
    let rest = if let Some(rest) = part.strip_prefix('0') {
        bytes.push(0)?;
        rest
    } else if let Some(rest) = part.strip_prefix('n') {
        bytes.push(b'\n')?;
        rest
    } else if let Some(rest) = part.strip_prefix('x') {
        push_hex(rest, bytes)?
    } else if let Some(rest) = part.strip_prefix('#') {
        let number = number.ok_or(CaseFault::NoNumber)?;
        bytes.extend_from_slice(format!(in alloc; "{number}")?.as_bytes())?;
        rest
    } else if let Some(rest) = part.strip_prefix('{') {
        push_times(rest, bytes)?
    } else {
        return Err(CaseFault::NoEscape);
    };
    bytes.extend_from_slice(rest.as_bytes())?;
    Ok(())
}

/// Puts the byte of two hexadecimal digits, and gives what stands behind them.
fn push_hex<'a>(text: &'a str, bytes: &mut Vec<u8>) -> Result<&'a str, CaseFault> {
    let Some((digits, rest)) = text.split_at_checked(2) else {
        return Err(CaseFault::NoEscape);
    };
    let Ok(byte) = u8::from_str_radix(digits, 16) else {
        return Err(CaseFault::NoEscape);
    };
    bytes.push(byte)?;
    Ok(rest)
}

/// Puts a text so many times as `N*TEXT}` says, and gives what stands behind the brace.
fn push_times<'a>(text: &'a str, bytes: &mut Vec<u8>) -> Result<&'a str, CaseFault> {
    let Some((inner, rest)) = text.split_once('}') else {
        return Err(CaseFault::NoEscape);
    };
    let Some((times, repeated)) = inner.split_once('*') else {
        return Err(CaseFault::NoEscape);
    };
    for _ in 0..read_count(times)? {
        bytes.extend_from_slice(repeated.as_bytes())?;
    }
    Ok(rest)
}

/// Reads a number of things.
pub(crate) fn read_count(text: &str) -> Result<u64, CaseFault> {
    match text.parse::<u64>() {
        Ok(count) => Ok(count),
        Err(_) => Err(CaseFault::NoNumber),
    }
}
