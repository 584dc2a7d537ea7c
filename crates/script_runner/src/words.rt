ghost use Rattle.std.specs.Prelude.{◌≡◌, ◌≤◌, ◌+◌, ◌∷◌, ◌++◌, length, map, decimal};
ghost use Rattle.enq_base.specs.Text.{unit_text};
ghost use Rattle.script_runner.specs.Texts.{spaced};

use arrayvec::ArrayVec;
use enq_base::{UnitKey, put_number};

/// The text of a reply, in a place of fixed size.
pub type Text = ArrayVec<u8, 1024>;

/// Appends bytes, for which there is room.
pub fn push<const N: usize>(text: &mut ArrayVec<u8, N>, bytes: &[u8])
    requires { length text.old.items + length bytes.now ≤ N }
    ensures { text.new.items ≡ text.old.items ++ bytes.now }
{
    let _ = text.try_extend_from_slice(bytes);
}

/// Appends words, each with a space in front.
pub fn push_words(text: &mut Text, words: &[&[u8]])
    requires { length text.old.items + length (spaced (map (λ word. word.now) words.now)) ≤ 1024 }
    ensures { text.new.items ≡ text.old.items ++ spaced (map (λ word. word.now) words.now) }
{
    for word in words {
        push_word(text, word);
    }
}

fn push_word(text: &mut Text, word: &[u8])
    requires { length text.old.items + (1 + length word.now) ≤ 1024 }
    ensures { text.new.items ≡ text.old.items ++ 32 ∷ word.now }
{
    push(text, b" ");
    push(text, word);
}

/// A number in decimal.
pub fn digits(number: u64) -> ArrayVec<u8, 20>
    ensures digits { result.items ≡ decimal number }
    ensures fits { length result.items ≤ 20 }
{
    let mut digits = [0; 20];
    let count = put_number(number, &mut digits);
    let mut text = ArrayVec::new();
    push(&mut text, &digits[..count]);
    text
}

/// The key of a unit, as `1.2.3`.
pub(crate) fn unit_text(unit: &UnitKey) -> ArrayVec<u8, 64>
    ensures text { result.items ≡ unit_text unit.now }
    ensures fits { length result.items ≤ 64 }
{
    let UnitKey {
        start,
        session,
        luw,
    } = *unit;
    let mut text = ArrayVec::new();
    push(&mut text, digits(u64::from(start)).as_slice());
    push(&mut text, b".");
    push(&mut text, digits(u64::from(session)).as_slice());
    push(&mut text, b".");
    push(&mut text, digits(u64::from(luw)).as_slice());
    text
}
