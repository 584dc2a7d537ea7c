ghost use Rattle.std.specs.Prelude.{◌≤◌, IfSome};

/// How a script is done.
#[derive(Clone, Copy)]
pub enum Way {
    /// Line by line. A worker does both parts of each unit right behind its COMMIT.
    Replay,
    /// By threads, so many of which are workers.
    Run(u8),
}

/// What each session records.
#[derive(Clone, Copy)]
pub enum Load {
    /// Order entries, each with a number and a lock.
    Entries,
    /// Units with a V1 part of 200 effects and nothing else.
    Parts,
}

/// How a script is done, what each of its sessions records, and how often.
#[derive(Clone, Copy)]
pub struct Order {
    pub way: Way,
    pub load: Load,
    pub times: u32,
}

const MOST_WORKERS: u8 = 16;

// With so many entries the longer script has 198,005 lines.
const MOST_ENTRIES: u32 = 4_500;

// With so many units of 200 effects it has 196,805 lines.
const MOST_PARTS: u32 = 240;

/// Reads the words of an order. None where they aren't one.
pub fn order_of(words: &[String]) -> Option<Order>
    ensures { IfSome result (λ o. o.times ≤ 4500) }
{
    match words {
        [way, load @ ..] if way.as_str() == "replay" => ordered(Way::Replay, load),
        [way, workers, load @ ..] if way.as_str() == "run" => {
            ordered(Way::Run(crew_of(workers.as_str())?), load)
        }
        _ => None,
    }
}

/// A number of order entries, or the word `parts` and a number of units.
fn ordered(way: Way, load: &[String]) -> Option<Order>
    ensures { IfSome result (λ o. o.times ≤ 4500) }
{
    let (load, times, most) = match load {
        [times] => (Load::Entries, times, MOST_ENTRIES),
        [kind, times] if kind.as_str() == "parts" => (Load::Parts, times, MOST_PARTS),
        _ => return None,
    };
    let times = times.parse::<u32>().ok()?;
    if times > most {
        return None;
    }
    Some(Order { way, load, times })
}

/// A number of workers, at most 16.
fn crew_of(word: &str) -> Option<u8>
    ensures { IfSome result (λ n. n ≤ 16) }
{
    let workers = word.parse::<u8>().ok()?;
    if workers > MOST_WORKERS {
        return None;
    }
    Some(workers)
}
