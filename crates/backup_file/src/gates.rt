ghost use Rattle.std.specs.Prelude.{◌≡◌, ◌<◌, ◌↔◌, ◌-◌, ◌∷◌, ℕ, List, length, take, IsTrue, IfSome, IfNone};
ghost use Rattle.backup_file.specs.File.{name};

/// Where the last bytes begin.
pub(crate) fn offset_of(bytes: &[u8], rest: &[u8]) -> u64
    ensures { result ≡ length bytes.now - length rest.now }
{
    bytes.len().saturating_sub(rest.len()) as u64
}

/// Whether the file has the name of backup files.
pub(crate) fn has_name(bytes: &[u8]) -> bool
    requires { 9 < length bytes.now }
    ensures { IsTrue result ↔ (take 8 bytes.now ≡ name) }
{
    &bytes[..8] == b"ENQBCK01".as_slice()
}

/// What stands behind an open gate.
pub(crate) fn behind_open_gate(rest: &[u8]) -> Option<&[u8]>
    ensures open_gate { IfSome result (λ behind. rest.now ≡ 1 ∷ behind.now) }
    ensures closed { IfNone result ((behind : List ℕ) → rest.now ≡ 1 ∷ behind → ⊥) }
{
    match rest {
        [1, behind @ ..] => Some(behind),
        _ => None,
    }
}
