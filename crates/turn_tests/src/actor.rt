ghost use Rattle.std.specs.Prelude.{◌≡◌};
ghost use Rattle.turn_lock.specs.Passes.{known, IsPassOf, IsTurn};

use std::sync::Wait;
use turn_lock::{Act, History, Pass, TurnLock};

/// One of a list of actors: its pass, its act, and what that answered.
#[derive(Drop)]
pub struct Actor<S: History, A: Drop> {
    pub pass: Pass<S>,
    pub act: A,
    pub answer: bool,
}

impl<S: History, A: Act<S, bool> + Drop> Actor<S, A> {
    /// Runs the act once, in a turn of its own.
    pub fn run<W: Wait>(&mut self, rt: &W, lock: &TurnLock<S>)
        requires own { IsPassOf lock.now self.old.pass }
        requires can { (x : S) → A.can self.old.act x }
        ensures own { IsPassOf lock.now self.new.pass }
        ensures parts { (known self.new.pass).parts ≡ (known self.old.pass).parts }
        ensures ran { IsTurn S.past
            (λ before after. A.does self.old.act before self.new.act after self.new.answer) (known self.old.pass)
            (known self.new.pass) }
    {
        self.answer = lock.with(rt, &mut self.pass, &mut self.act);
    }
}
