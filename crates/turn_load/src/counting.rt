ghost use Rattle.std.specs.Prelude.{◌≡◌, ◌+◌, ◌*◌, ◌≤◌, IfSome, MatchBool};
ghost use Rattle.turn_lock.specs.Passes.{known, IsPassOf};
ghost use Rattle.turn_load.specs.Counting.{own_count, AddedEntries};

use std::alloc::Global;
use std::sync::Wait;
use std::thread::{Threads, join};
use turn_lock::{Act, History, Pass, TurnLock};

/// A count of turns. Its history has an entry for each.
#[derive(Drop)]
pub struct Count {
    pub turns: u64,
}

impl History for Count {
    ghost use Rattle.std.specs.Prelude.{replicate};

    type Entry = u64;

    ghost past = { λ s. replicate s.turns 0 };
}

/// Counts one turn, up to 2^64 - 1 of them, and says whether it did.
#[derive(Drop)]
pub struct CountTurn;

impl Act<Count, bool> for CountTurn {
    ghost use Rattle.std.specs.Prelude.{⊤};

    ghost can = { λ a s. ⊤ };

    ghost does = { λ a s b t ok. MatchBool ok (t.turns ≡ s.turns + 1) (t.turns ≡ s.turns) };

    fn act(&mut self, state: &mut Count) -> bool {
        if state.turns == u64::MAX {
            return false;
        }
        state.turns += 1;
        true
    }
}

/// What the state counted, and how many turns said that they were counted.
#[derive(Drop)]
pub struct Counted {
    pub turns: u64,
    pub answered: u64,
}

fn count_turn<W: Wait>(rt: &W, lock: &TurnLock<Count>, pass: &mut Pass<Count>) -> bool
    requires own { IsPassOf lock.now pass.old }
    ensures own { IsPassOf lock.now pass.new }
    ensures parts { (known pass.new).parts ≡ (known pass.old).parts }
    ensures counted { MatchBool result (AddedEntries pass.old pass.new 1) (own_count pass.new ≡ own_count pass.old) }
{
    lock.with(rt, pass, &mut CountTurn)
}

fn take_turns<W: Wait>(
    rt: &W,
    lock: &TurnLock<Count>,
    mut pass: Pass<Count>,
    turns: u32,
) -> (Pass<Count>, u64)
    requires own { IsPassOf lock.now pass }
    ensures own { IsPassOf lock.now result.0 }
    ensures parts { (known result.0).parts ≡ (known pass).parts }
    ensures counted { AddedEntries pass result.0 result.1 }
    ensures few { result.1 ≤ turns }
{
    let mut counted = 0;
    for _ in 0..turns {
        if count_turn(rt, lock, &mut pass) {
            counted += 1;
        }
    }
    (pass, counted)
}

// Takes turns in two threads, each with half of the pass.
fn take_by_two<R: Threads + Wait + Sync>(
    rt: &R,
    lock: &TurnLock<Count>,
    pass: Pass<Count>,
    turns: u32,
) -> (Pass<Count>, u64)
    requires own { IsPassOf lock.now pass }
    requires two { (known pass).parts ≡ 2 }
    ensures own { IsPassOf lock.now result.0 }
    ensures parts { (known result.0).parts ≡ 2 }
    ensures counted { AddedEntries pass result.0 result.1 }
    ensures few { result.1 ≤ 2 * turns }
{
    let (one, two) = lock.split(pass, 1);
    let ((one, first), (two, second)) = join(
        rt,
        || -> (Pass<Count>, u64)
            requires { IsPassOf lock.now one }
            ensures { IsPassOf lock.entry.now result.0 × ((known result.0).parts ≡ (known one).parts)
                × AddedEntries one result.0 result.1 × (result.1 ≤ turns) }
        { take_turns(rt, lock, one, turns) },
        || -> (Pass<Count>, u64)
            requires { IsPassOf lock.now two }
            ensures { IsPassOf lock.entry.now result.0 × ((known result.0).parts ≡ (known two).parts)
                × AddedEntries two result.0 result.1 × (result.1 ≤ turns) }
        { take_turns(rt, lock, two, turns) },
    );
    (lock.join(one, two), first + second)
}

/// Four threads take as many turns each as stated. The state counted each turn that was answered, once. None is want of
/// memory.
pub fn turns_by_four<R: Threads + Wait + Sync>(rt: &R, alloc: Global, turns: u32) -> Option<Counted>
    ensures { IfSome result (λ c. c.turns ≡ c.answered) }
{
    let Ok((lock, pass)) = TurnLock::new(alloc, Count { turns: 0 }, 4) else {
        return None;
    };
    let (one, two) = lock.split(pass, 2);
    let shared = &lock;
    let ((one, first), (two, second)) = join(
        rt,
        || -> (Pass<Count>, u64)
            requires { IsPassOf shared.now one × ((known one).parts ≡ 2) }
            ensures { IsPassOf shared.entry.now result.0 × ((known result.0).parts ≡ 2)
                × AddedEntries one result.0 result.1 × (result.1 ≤ 2 * turns) }
        { take_by_two(rt, shared, one, turns) },
        || -> (Pass<Count>, u64)
            requires { IsPassOf shared.now two × ((known two).parts ≡ 2) }
            ensures { IsPassOf shared.entry.now result.0 × ((known result.0).parts ≡ 2)
                × AddedEntries two result.0 result.1 × (result.1 ≤ 2 * turns) }
        { take_by_two(rt, shared, two, turns) },
    );
    let pass = lock.join(one, two);
    let count = lock.close(pass);
    Some(Counted {
        turns: count.turns,
        answered: first + second,
    })
}
