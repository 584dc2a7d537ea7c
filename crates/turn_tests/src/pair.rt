ghost use Rattle.std.specs.Prelude.{◌≡◌, ◌∷◌, ◌+◌, ◌++◌, [], IfSome};
ghost use Rattle.std.specs.List.Sorted.{IsPermutation};
ghost use Rattle.turn_lock.specs.Passes.{known, IsPassOf};
ghost use Rattle.turn_lock.specs.Rule.{own_entries};
ghost use Rattle.turn_tests.specs.Noting.{NotedOne};

use crate::notes::{Notes, note};
use std::alloc::Global;
use std::sync::Wait;
use std::thread::{Threads, join};
use turn_lock::{Pass, TurnLock};

fn note_as<W: Wait>(
    rt: &W,
    lock: &TurnLock<Notes>,
    mut pass: Pass<Notes>,
    number: u64,
) -> (Pass<Notes>, bool)
    requires own { IsPassOf lock.now pass }
    ensures own { IsPassOf lock.now result.0 }
    ensures parts { (known result.0).parts ≡ (known pass).parts }
    ensures noted { NotedOne pass result.0 number result.1 }
{
    let noted = note(rt, lock, &mut pass, number);
    (pass, noted)
}

/// Joins two passes, the second into the first or the first into the second.
pub fn join_either(
    lock: &TurnLock<Notes>,
    one: Pass<Notes>,
    two: Pass<Notes>,
    second_first: bool,
) -> Pass<Notes>
    requires own { IsPassOf lock.now one × IsPassOf lock.now two }
    ensures own { IsPassOf lock.now result }
    ensures parts { (known result).parts ≡ (known one).parts + (known two).parts }
    ensures entries { IsPermutation (own_entries (known result)) (own_entries (known one) ++ own_entries (known two)) }
{
    if second_first {
        lock.join(two, one)
    } else {
        lock.join(one, two)
    }
}

/// Notes the numbers in two threads. They stand in the one history, in some order, and nothing else does.
pub fn note_both<R: Threads + Wait + Sync>(
    rt: &R,
    alloc: Global,
    a: u64,
    b: u64,
    second_first: bool,
) -> Option<Notes>
    ensures { IfSome result (λ t. IsPermutation t.numbers.items (a ∷ b ∷ [])) }
{
    let Ok((lock, pass)) = TurnLock::new(alloc, Notes::new(alloc), 2) else {
        return None;
    };
    let (one, two) = lock.split(pass, 1);
    let shared = &lock;
    let (first, second) = join(
        rt,
        || -> (Pass<Notes>, bool)
            requires { IsPassOf shared.now one }
            ensures { IsPassOf shared.entry.now result.0 × ((known result.0).parts ≡ (known one).parts)
                × NotedOne one result.0 a result.1 }
        { note_as(rt, shared, one, a) },
        || -> (Pass<Notes>, bool)
            requires { IsPassOf shared.now two }
            ensures { IsPassOf shared.entry.now result.0 × ((known result.0).parts ≡ (known two).parts)
                × NotedOne two result.0 b result.1 }
        { note_as(rt, shared, two, b) },
    );
    let (one, noted_one) = first;
    let (two, noted_two) = second;
    let pass = join_either(&lock, one, two, second_first);
    let notes = lock.close(pass);
    if noted_one && noted_two {
        Some(notes)
    } else {
        None
    }
}
