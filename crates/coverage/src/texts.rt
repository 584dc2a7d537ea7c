ghost use Rattle.std.specs.Prelude.{◌≡◌};
ghost use Rattle.std.specs.List.{list_all};
ghost use Rattle.enq_base.specs.Grammar.{is_text, is_text_byte};
ghost use Rattle.coverage.specs.Faults as faults;

use crate::values::holds_dollar;
use enq_base::TEXT_BYTES;
use module_effects::read_integer;

pub(crate) fn is_wrong_text(text: &[u8]) -> bool
    ensures { result ≡ faults.is_wrong_text text.now }
{
    !holds_dollar(text) && !is_text(text)
}

fn is_text(bytes: &[u8]) -> bool
    ensures { result ≡ is_text bytes.now }
{
    are_text_bytes(bytes) && bytes.len() >= 1 && bytes.len() <= TEXT_BYTES
}

fn are_text_bytes(bytes: &[u8]) -> bool
    ensures { result ≡ list_all is_text_byte bytes.now }
{
    bytes.iter().all(|b| *b >= 0x20 && *b <= 0x7e)
}

pub(crate) fn is_wrong_number(text: &[u8]) -> bool
    ensures { result ≡ faults.is_wrong_number text.now }
{
    !holds_dollar(text) && read_integer(text).is_none()
}
