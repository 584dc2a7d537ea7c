ghost use Rattle.std.specs.Prelude.{◌≤◌, IfSome};

/// What to run.
#[derive(Clone, Copy)]
pub enum Load {
    /// Four threads that take turns.
    Turns,
    /// Four threads that draw numbers.
    Draws,
    /// One thread that draws as many numbers as four would.
    DrawsAlone,
    /// Each of these.
    All,
}

/// What to run, with how many steps in each thread, and how many times over.
#[derive(Clone, Copy)]
pub struct Order {
    pub load: Load,
    pub each: u32,
    pub rounds: u32,
}

// The most steps of one thread, and the most rounds.
const MOST: u32 = 1_000_000;

fn load_of(word: &str) -> Option<Load> {
    match word {
        "turns" => Some(Load::Turns),
        "draws" => Some(Load::Draws),
        "draws-alone" => Some(Load::DrawsAlone),
        "all" => Some(Load::All),
        _ => None,
    }
}

/// Reads the three words of an order. None where they aren't one.
pub fn order_of(words: &[String]) -> Option<Order>
    ensures { IfSome result (λ o. (o.each ≤ 1000000) × (o.rounds ≤ 1000000)) }
{
    let [load, each, rounds] = words else {
        return None;
    };
    let load = load_of(load.as_str())?;
    let each = each.parse::<u32>().ok()?;
    let rounds = rounds.parse::<u32>().ok()?;
    if each > MOST || rounds > MOST {
        return None;
    }
    Some(Order { load, each, rounds })
}
