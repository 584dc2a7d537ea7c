ghost use Rattle.std.specs.Prelude.{◌≡◌, ◌+◌, ◌<◌, ◌^◌, ℕ, All, length, slice_index_or};
ghost use Rattle.std.specs.List.{sum_by};
ghost use Rattle.turn_lock.specs.Passes.{known, IsPassOf};
ghost use Rattle.turn_tests.specs.Acting.{HasActed};

use crate::actor::Actor;
use crate::notes::{NoteNumber, Notes};
use std::alloc::Global;
use std::sync::Wait;
use std::thread;
use std::thread::Threads;
use turn_lock::{Act, History, Pass, TurnLock};

/// Runs each actor's act once, in threads.
pub fn run_actors<S: History + Send, A: Act<S, bool> + Drop + Send, R: Threads + Wait + Sync>(
    rt: &R,
    lock: &TurnLock<S>,
    actors: &mut [Actor<S, A>],
)
    requires own { All (λ j. IsPassOf lock.now j.pass) actors.old }
    requires can { All (λ j. (x : S) → A.can j.act x) actors.old }
    ensures own { All (λ j. IsPassOf lock.now j.pass) actors.new }
    ensures parts { sum_by (λ a. (known a.pass).parts) actors.new ≡ sum_by (λ a. (known a.pass).parts) actors.old }
    ensures ran { (i : ℕ) (d : _) → i < length actors.old
        → HasActed A.does (slice_index_or actors.old i d) (slice_index_or actors.new i d) }
{
    thread::for_each_mut(
        rt,
        actors,
        8,
        &|_: usize, actor: &mut Actor<S, A>|
            requires { IsPassOf lock.now actor.now.pass × ((x : S) → A.can actor.now.act x) }
            ensures { IsPassOf lock.entry.now actor.exit.now.pass
                × ((known actor.exit.now.pass).parts ≡ (known actor.entry.now.pass).parts)
                × HasActed A.does actor.entry.now actor.exit.now }
        { actor.run(rt, lock) },
    );
}

/// Joins the passes of all actors into one, which then has the parts of all.
pub fn gather<S: History, A: Drop>(
    lock: &TurnLock<S>,
    mut pass: Pass<S>,
    mut actors: Vec<Actor<S, A>>,
) -> Pass<S>
    requires own { IsPassOf lock.now pass }
    requires actors { All (λ a. IsPassOf lock.now a.pass) actors.items }
    ensures own { IsPassOf lock.now result }
    ensures parts { (known result).parts ≡ (known pass).parts + sum_by (λ a. (known a.pass).parts) actors.items }
{
    while let Some(actor) = actors.pop() {
        let Actor { pass: other, .. } = actor;
        pass = lock.join(pass, other);
    }
    pass
}

/// Notes each number in a turn of its own, by an actor in a thread of its own where one can be made.
pub fn note_by_actors<R: Threads + Wait + Sync>(
    rt: &R,
    alloc: Global,
    numbers: &[u64],
) -> Option<Notes>
    requires { length numbers.now < 2 ^ 31 }
{
    let Ok(mut actors) = Vec::with_capacity(alloc, numbers.len()) else {
        return None;
    };
    let Ok((lock, mut pass)) = TurnLock::new(alloc, Notes::new(alloc), numbers.len() as u32 + 1)
    else {
        return None;
    };
    for number in numbers {
        let (rest, own) = lock.split(pass, 1);
        pass = rest;
        actors.push_reserved(Actor {
            pass: own,
            act: NoteNumber { number: *number },
            answer: false,
        });
    }
    run_actors(rt, &lock, actors.as_mut_slice());
    let pass = gather(&lock, pass, actors);
    Some(lock.close(pass))
}
