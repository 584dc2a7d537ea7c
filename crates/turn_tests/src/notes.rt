ghost use Rattle.std.specs.Prelude.{◌≡◌, ◌∷◌, ◌++◌, [], MatchBool};
ghost use Rattle.turn_lock.specs.Passes.{known, IsPassOf};
ghost use Rattle.turn_tests.specs.Noting.{NotedOne};

use std::alloc::Global;
use std::sync::Wait;
use turn_lock::{Act, History, Pass, TurnLock};

/// Numbers that were noted, the latest last.
#[derive(Drop)]
pub struct Notes {
    pub numbers: Vec<u64>,
}

impl Notes {
    /// No numbers yet.
    pub fn new(alloc: Global) -> Notes
        ensures { result.numbers.items ≡ [] }
    {
        Notes {
            numbers: Vec::new(alloc),
        }
    }
}

impl History for Notes {
    type Entry = u64;

    ghost past = { λ s. s.numbers.items };
}

/// Notes one number, if there is memory, and says whether it did.
#[derive(Drop)]
pub struct NoteNumber {
    pub number: u64,
}

impl Act<Notes, bool> for NoteNumber {
    ghost use Rattle.std.specs.Prelude.{⊤};

    ghost can = { λ a s. ⊤ };

    ghost does = { λ a s b t ok. (b.number ≡ a.number)
        × MatchBool ok (t.numbers.items ≡ s.numbers.items ++ a.number ∷ []) (t.numbers.items ≡ s.numbers.items) };

    fn act(&mut self, state: &mut Notes) -> bool {
        state.numbers.push(self.number).is_ok()
    }
}

/// Notes a number in a turn of its own.
pub fn note<W: Wait>(rt: &W, lock: &TurnLock<Notes>, pass: &mut Pass<Notes>, number: u64) -> bool
    requires own { IsPassOf lock.now pass.old }
    ensures own { IsPassOf lock.now pass.new }
    ensures parts { (known pass.new).parts ≡ (known pass.old).parts }
    ensures noted { NotedOne pass.old pass.new number result }
{
    lock.with(rt, pass, &mut NoteNumber { number })
}
