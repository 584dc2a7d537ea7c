ghost use Rattle.std.specs.Prelude.{◌≡◌, ◌≤◌, ◌↔◌, IsTrue};
ghost use Rattle.keeper_api.specs.Rows.{IsPage, RiseFrom, is_below};

use keeper_api::Row;

fn is_less(a: &[u8], b: &[u8]) -> bool
    ensures { result ≡ is_below a.now b.now }
{
    a.cmp(b).is_lt()
}

/// Whether the keys rise, the first of them behind `after`.
fn do_rise(after: &[u8], rows: &[Row]) -> bool
    ensures { IsTrue result ↔ RiseFrom after.now rows.now }
{
    let mut last = after;
    for row in rows {
        let key = row.key.as_slice();
        if !is_less(last, key) {
            return false;
        }
        last = key;
    }
    true
}

/// Whether there are at most `n` rows, whose keys rise behind `after`.
pub fn is_page(after: &[u8], n: u32, rows: &[Row]) -> bool
    ensures { IsTrue result ↔ IsPage after.now n rows.now }
{
    rows.len() <= n as usize && do_rise(after, rows)
}
