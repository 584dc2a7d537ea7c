ghost use Rattle.std.specs.Prelude.{◌≡◌, ◌<◌, ◌+◌, ◌^◌, length, IfSome, not};
ghost use Rattle.std.specs.List.{list_all, position};
ghost use Rattle.lock_entry.specs.Sound as sound;

use lock_entry::{Entry, are_apart, has_count};

/// The places, from 1, of the first entry that may not stand with those before it and of the first that it may not
/// stand with, the earlier one first.
pub fn first_clash(entries: &[Entry]) -> Option<(u32, u32)>
    requires { length entries.now < 2 ^ 32 }
    ensures { result ≡ sound.first_clash entries.now }
{
    for i in 0..entries.len() {
        let before = &entries[..i];
        let entry = entries[i];
        if !stands_with(before, &entry) {
            return Some((first_against(before, &entry), i as u32 + 1));
        }
    }
    None
}

fn stands_with(before: &[Entry], entry: &Entry) -> bool
    ensures { result ≡ sound.stands_with before.now entry.now }
{
    has_count(entry) && all_apart(before, entry)
}

fn all_apart(before: &[Entry], entry: &Entry) -> bool
    ensures { result ≡ list_all (λ a. sound.are_apart a entry.now) before.now }
{
    before.iter().all(|a| are_apart(a, entry))
}

fn first_against(before: &[Entry], entry: &Entry) -> u32
    requires { length before.now + 1 < 2 ^ 32 }
    ensures { result ≡ sound.first_against before.now entry.now }
{
    match place_against(before, entry) {
        Some(i) => i as u32 + 1,
        None => before.len() as u32 + 1,
    }
}

fn place_against(before: &[Entry], entry: &Entry) -> Option<usize>
    ensures place { result ≡ position (λ a. not (sound.are_apart a entry.now)) before.now }
    ensures within { IfSome result (λ i. i < length before.now) }
{
    before.iter().position(|a| !are_apart(a, entry))
}
