ghost use Rattle.std.specs.Prelude.{◌≡◌, ◌↔◌, IsTrue};
ghost use Rattle.std.specs.List.{list_all, zip};
ghost use Rattle.lock_entry.specs.Argument.{Fits, Meets, byte_fits, bytes_meet, fits, meets};

use enq_base::Pattern;

/// Whether two arguments have one length and, at each place, equal bytes or a generic one: so exactly whether some key
/// fits both (The SAP Lock Concept, generic lock arguments).
pub fn meets(a: &Pattern, b: &Pattern) -> bool
    ensures test { result ≡ meets a.now b.now }
    ensures meets { IsTrue result ↔ Meets a.now b.now }
{
    all_meet(a.bytes(), b.bytes())
}

fn all_meet(a: &[u8], b: &[u8]) -> bool
    ensures { result ≡ meets a.now b.now }
{
    a.len() == b.len() && pairs_meet(a, b)
}

fn pairs_meet(a: &[u8], b: &[u8]) -> bool
    ensures { result ≡ list_all (λ p. bytes_meet p.0 p.1) (zip a.now b.now) }
{
    a.iter().zip(b).all(|(x, y)| bytes_meet(*x, *y))
}

fn bytes_meet(a: u8, b: u8) -> bool
    ensures { result ≡ bytes_meet a b }
{
    a == b || a == b'@' || b == b'@'
}

/// Whether the key fits the argument.
pub fn fits_key(p: &Pattern, key: &[u8]) -> bool
    ensures test { result ≡ fits key.now p.now }
    ensures fits { IsTrue result ↔ Fits key.now p.now }
{
    all_fit(key, p.bytes())
}

fn all_fit(key: &[u8], argument: &[u8]) -> bool
    ensures { result ≡ fits key.now argument.now }
{
    key.len() == argument.len() && pairs_fit(key, argument)
}

fn pairs_fit(key: &[u8], argument: &[u8]) -> bool
    ensures { result ≡ list_all (λ q. byte_fits q.0 q.1) (zip key.now argument.now) }
{
    key.iter().zip(argument).all(|(k, p)| byte_fits(*k, *p))
}

fn byte_fits(k: u8, p: u8) -> bool
    ensures { result ≡ byte_fits k p }
{
    p == b'@' || p == k
}
