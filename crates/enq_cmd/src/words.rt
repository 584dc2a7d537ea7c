ghost use Rattle.std.specs.Prelude.{◌≡◌, ◌≢◌, ℕ, ◌<◌, ◌^◌, List, [], ◌∷◌, ◌++◌, codes, decimal, IfSome, IfNone};
ghost use Rattle.enq_cmd.specs.Words.{IsCount, IsCrew, NamesNone, NamesWork};

use enq_base::{Items, read_number};

/// What the words of the command line name.
#[derive(Clone, Copy, Debug, PartialEq, Eq)]
pub enum Work {
    /// The script that is read is done.
    Replays,
    /// The script of this many units is written.
    Generates(u32),
    /// The same script is done.
    Loads(u32),
    /// The script that is read is done by threads, with so many workers.
    Runs(u8),
    /// What the script that is read lacks in locks is written.
    Covers,
}

/// What the words name, if they name anything.
pub(crate) fn work_of(words: &[Items<u8>]) -> Option<Work>
    ensures named { IfSome result (NamesWork words.now) }
    ensures none { IfNone result (NamesNone words.now) }
{
    match words {
        [word] => plain_work(word.as_slice()),
        [word, count] => two_words(word.as_slice(), count.as_slice()),
        [word, option, count] => { run_of(word.as_slice(), option.as_slice(), count.as_slice()) }
        _ => None,
    }
}

fn plain_work(word: &[u8]) -> Option<Work>
    ensures named { IfSome result (NamesWork (word.now ∷ [])) }
    ensures none { IfNone result (NamesNone (word.now ∷ [])) }
{
    if word == b"replay".as_slice() {
        return Some(Work::Replays);
    }
    if word == b"cover".as_slice() {
        return Some(Work::Covers);
    }
    None
}

/// `run --workers=N`, and what has a number of units behind it.
fn two_words(word: &[u8], last: &[u8]) -> Option<Work>
    ensures named { IfSome result (NamesWork (word.now ∷ last.now ∷ [])) }
    ensures none { IfNone result (NamesNone (word.now ∷ last.now ∷ [])) }
{
    if word == b"run".as_slice() {
        return joined_run(last);
    }
    counted_work(word, last)
}

fn joined_run(last: &[u8]) -> Option<Work>
    ensures named { IfSome result (NamesWork (codes "run" ∷ last.now ∷ [])) }
    ensures none { IfNone result (NamesNone (codes "run" ∷ last.now ∷ [])) }
{
    Some(Work::Runs(read_workers(workers_of(last)?)?))
}

/// What stands behind `--workers=`.
fn workers_of(word: &[u8]) -> Option<&[u8]>
    ensures some { IfSome result (λ rest. word.now ≡ codes "--workers=" ++ rest.now) }
    ensures none { IfNone result ((rest : List ℕ) → word.now ≢ codes "--workers=" ++ rest) }
{
    word.strip_prefix(b"--workers=")
}

/// `run --workers N`
fn run_of(word: &[u8], option: &[u8], count: &[u8]) -> Option<Work>
    ensures named { IfSome result (NamesWork (word.now ∷ option.now ∷ count.now ∷ [])) }
    ensures none { IfNone result (NamesNone (word.now ∷ option.now ∷ count.now ∷ [])) }
{
    if word != b"run".as_slice() || option != b"--workers".as_slice() {
        return None;
    }
    spaced_run(count)
}

fn spaced_run(count: &[u8]) -> Option<Work>
    ensures named { IfSome result (NamesWork (codes "run" ∷ codes "--workers" ∷ count.now ∷ [])) }
    ensures none { IfNone result (NamesNone (codes "run" ∷ codes "--workers" ∷ count.now ∷ [])) }
{
    Some(Work::Runs(read_workers(count)?))
}

/// A number of workers, from 1 to 16, in decimal.
fn read_workers(text: &[u8]) -> Option<u8>
    ensures spelled { IfSome result (λ n. IsCrew n × (text.now ≡ decimal n)) }
    ensures none { IfNone result ((n : ℕ) → IsCrew n → text.now ≢ decimal n) }
{
    in_crew(read_number(text)?)
}

fn in_crew(number: u64) -> Option<u8>
    ensures same { IfSome result (λ n. (n ≡ number) × IsCrew n) }
    ensures none { IfNone result (¬ IsCrew number) }
    ensures fits { number < 2 ^ 64 }
{
    if number >= 1 && number <= 16 {
        return Some(number as u8);
    }
    None
}

fn counted_work(word: &[u8], count: &[u8]) -> Option<Work>
    requires other { word.now ≢ codes "run" }
    ensures named { IfSome result (NamesWork (word.now ∷ count.now ∷ [])) }
    ensures none { IfNone result (NamesNone (word.now ∷ count.now ∷ [])) }
{
    let units = read_units(count)?;
    if word == b"gen".as_slice() {
        return Some(Work::Generates(units));
    }
    if word == b"load".as_slice() {
        return Some(Work::Loads(units));
    }
    None
}

/// A number of units, from 1 to 10,000, in decimal.
fn read_units(text: &[u8]) -> Option<u32>
    ensures spelled { IfSome result (λ n. IsCount n × (text.now ≡ decimal n)) }
    ensures none { IfNone result ((n : ℕ) → IsCount n → text.now ≢ decimal n) }
{
    in_units(read_number(text)?)
}

fn in_units(number: u64) -> Option<u32>
    ensures same { IfSome result (λ n. (n ≡ number) × IsCount n) }
    ensures none { IfNone result (¬ IsCount number) }
    ensures fits { number < 2 ^ 64 }
{
    if number >= 1 && number <= 10_000 {
        return Some(number as u32);
    }
    None
}
