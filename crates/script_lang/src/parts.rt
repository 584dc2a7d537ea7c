ghost use Rattle.std.specs.Prelude.{◌≡◌};
ghost use Rattle.std.specs.List.{list_all};
ghost use Rattle.enq_base.specs.Grammar.{is_key_byte, is_name, is_text_byte};
ghost use Rattle.script_lang.specs.Parts.{is_blank, is_nr, is_raw, is_rest};
ghost use Rattle.script_lang.specs.Reading.{Gives, passing, worker_of};

use crate::read_fault::ReadFault;
use enq_base::{Items, Name, read_count};
use std::alloc::Global;

pub(crate) fn read_name(text: &[u8]) -> Option<Name>
    ensures { result ≡ passing is_name text.now }
{
    enq_base::read_name(text)
}

/// A number from 1 to 64.
#[tactic(auto, unfolding(crate::specs::Reading::worker_of))]
pub(crate) fn read_worker(text: &[u8]) -> Option<u8>
    ensures { result ≡ worker_of text.now }
{
    let number = read_count(text)?;
    if number <= 64 {
        Some(number as u8)
    } else {
        None
    }
}

/// Two digits.
pub(crate) fn read_nr(text: &[u8]) -> Option<[u8; 2]>
    ensures { result ≡ passing is_nr text.now }
{
    match text {
        [tens, ones] if tens.is_ascii_digit() && ones.is_ascii_digit() => Some([*tens, *ones]),
        _ => None,
    }
}

/// A copy of a part that `$` may stand in.
pub(crate) fn read_raw(alloc: Global, part: &[u8]) -> Result<Items<u8>, ReadFault>
    ensures { Gives (λ x. x) result (passing is_raw part.now) }
{
    if part.is_empty() || !are_key_bytes(part) {
        return Err(ReadFault::BadLine);
    }
    Ok(Items::from_vec(Vec::from_slice(alloc, part)?))
}

/// A copy of the rest of a line, spaces included.
pub(crate) fn read_rest(alloc: Global, rest: &[u8]) -> Result<Items<u8>, ReadFault>
    ensures { Gives (λ x. x) result (passing is_rest rest.now) }
{
    if rest.is_empty() || !are_text_bytes(rest) {
        return Err(ReadFault::BadLine);
    }
    Ok(Items::from_vec(Vec::from_slice(alloc, rest)?))
}

pub(crate) fn is_blank_line(bytes: &[u8]) -> bool
    ensures { result ≡ is_blank bytes.now }
{
    match bytes {
        [] => true,
        [first, rest @ ..] => *first == b'#' && are_text_bytes(rest),
    }
}

fn are_text_bytes(bytes: &[u8]) -> bool
    ensures { result ≡ list_all is_text_byte bytes.now }
{
    bytes.iter().all(|b| *b >= 0x20 && *b <= 0x7e)
}

pub(crate) fn are_key_bytes(bytes: &[u8]) -> bool
    ensures { result ≡ list_all is_key_byte bytes.now }
{
    bytes.iter().all(|b| *b >= 0x21 && *b <= 0x7e)
}
