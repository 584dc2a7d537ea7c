ghost use Rattle.std.specs.Prelude.{◌≤◌, IfSome};

/// What to do once the locks are granted.
#[derive(Clone, Copy)]
pub enum Load {
    /// Nothing.
    Grants,
    /// Another session asks for them in an order of their own, again and again.
    Asks,
    /// All are freed, in an order of their own.
    Frees,
}

/// What to do, with how many locks, and how many asks.
#[derive(Clone, Copy)]
pub struct Order {
    pub load: Load,
    pub locks: u32,
    pub asks: u32,
}

const MOST_LOCKS: u32 = 1_000_000;

const MOST_ASKS: u32 = 100_000_000;

fn load_of(word: &str) -> Option<Load> {
    match word {
        "grants" => Some(Load::Grants),
        "asks" => Some(Load::Asks),
        "frees" => Some(Load::Frees),
        _ => None,
    }
}

/// Reads the three words of an order. None where they aren't one.
pub fn order_of(words: &[String]) -> Option<Order>
    ensures { IfSome result (λ o. (o.locks ≤ 1000000) × (o.asks ≤ 100000000)) }
{
    let [load, locks, asks] = words else {
        return None;
    };
    let load = load_of(load.as_str())?;
    let locks = locks.parse::<u32>().ok()?;
    let asks = asks.parse::<u32>().ok()?;
    if locks > MOST_LOCKS || asks > MOST_ASKS {
        return None;
    }
    Some(Order { load, locks, asks })
}
