ghost use Rattle.std.specs.Prelude.{◌≡◌, ◌∷◌, ◌++◌, option_map, nat_eq, position, IfSome, IfNone, IsTrue};
ghost use Rattle.enq_base.specs.Cut.{cut, is_free};

/// The bytes before the first `separator`, and those behind it. None comes where there is none.
pub fn cut_at(bytes: &[u8], separator: u8) -> Option<(&[u8], &[u8])>
    ensures cut { option_map (λ c. (c.0.now, c.1.now)) result ≡ cut separator bytes.now }
    ensures whole { IfSome result (λ c. bytes.now ≡ c.0.now ++ separator ∷ c.1.now) }
    ensures first { IfSome result (λ c. IsTrue (is_free separator c.0.now)) }
    ensures none { IfNone result (IsTrue (is_free separator bytes.now)) }
{
    parts_at(bytes, separator)
}

fn parts_at(bytes: &[u8], separator: u8) -> Option<(&[u8], &[u8])>
    ensures { option_map (λ c. (c.0.now, c.1.now)) result ≡ cut separator bytes.now }
{
    let at = place_of(bytes, separator)?;
    Some((&bytes[..at], &bytes[at + 1..]))
}

fn place_of(bytes: &[u8], separator: u8) -> Option<usize>
    ensures { result ≡ position (λ b. nat_eq b separator) bytes.now }
{
    bytes.iter().position(|b| *b == separator)
}
