ghost use Rattle.std.specs.Prelude.{◌≡◌, ◌≢◌, ℕ, ◌≤◌, ◌<◌, ◌^◌, decimal, ℤ, ◌∷◌, IfOk, IfSome, IfNone, IsTrue, option_and_then};
ghost use Rattle.std.specs.Fmt.{signed_decimal};
ghost use Rattle.enq_base.specs.Number.{number_of};
ghost use Rattle.module_effects.specs.Integers.{integer_of, as_natural, as_negative, is_i64};

use enq_base::{NoMemory, Text, TextFault, read_number};
use itoa::Buffer;
use std::alloc::Global;

/// The number from -2^63 to 2^63 - 1 that a text spells in shortest decimal form.
pub fn read_integer(text: &[u8]) -> Option<i64>
    ensures number { result ≡ integer_of text.now }
    ensures spelled { IfSome result (λ z. text.now ≡ signed_decimal z) }
    ensures none { IfNone result ((z : ℤ) → IsTrue (is_i64 z) → text.now ≢ signed_decimal z) }
{
    match text {
        [] => None,
        [b'-', digits @ ..] => negative(digits),
        _ => natural(text),
    }
}

fn natural(digits: &[u8]) -> Option<i64>
    ensures number { result ≡ option_and_then as_natural (number_of digits.now) }
    ensures spelled { IfSome result (λ z. digits.now ≡ signed_decimal z) }
    ensures none { IfNone result ((n : ℕ) → n < 2 ^ 63 → digits.now ≢ decimal n) }
{
    let number = read_number(digits)?;
    if number < 1 << 63 {
        Some(number as i64)
    } else {
        None
    }
}

fn negative(digits: &[u8]) -> Option<i64>
    ensures number { result ≡ option_and_then as_negative (number_of digits.now) }
    ensures spelled { IfSome result (λ z. 45 ∷ digits.now ≡ signed_decimal z) }
    ensures none { IfNone result ((n : ℕ) → 1 ≤ n → n ≤ 2 ^ 63 → digits.now ≢ decimal n) }
{
    let number = read_number(digits)?;
    if number >= 1 && number <= 1 << 63 {
        Some(-1 - (number - 1) as i64)
    } else {
        None
    }
}

/// The text of a number in shortest decimal form.
pub fn integer_text(alloc: Global, number: i64) -> Result<Text, NoMemory>
    ensures { IfOk result (λ text. text ≡ signed_decimal number) }
{
    let mut buffer = Buffer::new();
    match Text::new(alloc, buffer.format(number).as_bytes()) {
        Ok(text) => Ok(text),
        Err(TextFault::NoMemory) => Err(NoMemory),
        Err(TextFault::Length) => unreachable!(),
        Err(TextFault::Byte) => unreachable!(),
    }
}
