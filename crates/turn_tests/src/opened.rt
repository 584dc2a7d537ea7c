ghost use Rattle.std.specs.Prelude.{◌≡◌, ℕ, IfSome};

use std::alloc::Global;
use std::marker::{Brand, PhantomData};
use std::sync::Wait;
use turn_lock::{Act, History, TurnLock};

/// What a lock's state was opened with. One call of a program picks it.
pub trait Origin {
    ghost number: { ℕ };
}

impl Origin for Brand {
    ghost number = { 0 };
}

/// Numbers that were noted above one that the state was opened with, which no call changes.
#[derive(Drop)]
pub struct Opened<J: Origin> {
    number: u64,
    pub noted: Vec<u64>,
    of: PhantomData<J>,
    ghost opened_with: { number ≡ J.number },
}

impl<J: Origin> History for Opened<J> {
    type Entry = u64;

    ghost past = { λ s. s.noted.items };
}

/// Notes one number, if there is memory.
#[derive(Drop)]
pub struct Put {
    pub number: u64,
}

impl<J: Origin> Act<Opened<J>, bool> for Put {
    ghost use Rattle.std.specs.Prelude.{◌∷◌, ◌++◌, [], MatchBool, ⊤};

    ghost can = { λ a s. ⊤ };

    ghost does = { λ a s b t ok. MatchBool ok (t.noted.items ≡ s.noted.items ++ a.number ∷ [])
        (t.noted.items ≡ s.noted.items) };

    fn act(&mut self, state: &mut Opened<J>) -> bool {
        state.noted.push(self.number).is_ok()
    }
}

fn opened_as<J: Origin, W: Wait>(rt: &W, alloc: Global, number: u64, noted: u64) -> Option<u64>
    requires { number ≡ J.number }
    ensures { IfSome result (λ n. n ≡ number) }
{
    let state: Opened<J> = Opened {
        number,
        noted: Vec::new(alloc),
        of: PhantomData,
    };
    let Ok((lock, mut pass)) = TurnLock::new(alloc, state, 1) else {
        return None;
    };
    lock.with(rt, &mut pass, &mut Put { number: noted });
    Some(lock.close(pass).number)
}

/// What the state was opened with, out of the lock again.
pub fn opened_number<W: Wait>(rt: &W, alloc: Global, number: u64, noted: u64) -> Option<u64>
    ensures { IfSome result (λ n. n ≡ number) }
{
    opened_as::<Brand, W>(rt, alloc, number, noted)
}
