ghost use Rattle.std.specs.Prelude.{◌≡◌, ◌<◌, ◌≤◌, ◌+◌, ◌++◌, [], ℕ, IfOk, OnOk, nat_le, vec_capacity, vec_len};
ghost use Rattle.script_actors.specs.Drawings.{capped, count_left, ends_unit, is_committed, is_done, is_number, may_be_committed};
ghost use Rattle.script_actors.specs.Drawings.{number_in, one_number, settles, settling_of, stock_left};

use enq_base::{Items, Name, NoMemory, Num, Refusal};
use hall_model::{Command, Reply};
use std::alloc::Global;

// How many numbers of a unit may be uncommitted.
const MOST: u32 = 64;

/// What a call does with the numbers that its session has drawn.
#[derive(Clone, Copy, Debug, PartialEq, Eq)]
pub enum Settling {
    /// It commits them.
    Commits,
    /// It gives them up.
    GivesUp,
    Neither,
}

/// What the call does with them, once it is answered.
pub fn settling_of(command: &Command) -> Settling
    ensures { result ≡ settling_of command.now }
{
    match command {
        Command::Commit { .. } => Settling::Commits,
        Command::Rollback { .. } | Command::Logoff { .. } => Settling::GivesUp,
        _ => Settling::Neither,
    }
}

/// Whether the session has no numbers left that its next COMMIT hands over, behind a call that is answered so.
pub fn settles(settling: Settling, reply: &Reply) -> bool
    ensures { result ≡ settles settling reply.now }
{
    match settling {
        Settling::Commits => may_be_committed(reply),
        Settling::GivesUp => is_done(reply),
        Settling::Neither => false,
    }
}

/// Whether it has no uncommitted numbers behind it.
fn ends_unit(settling: Settling, reply: &Reply) -> bool
    ensures { result ≡ ends_unit settling reply.now }
{
    match settling {
        Settling::Commits => is_committed(reply),
        Settling::GivesUp => is_done(reply),
        Settling::Neither => false,
    }
}

fn is_done(reply: &Reply) -> bool
    ensures { result ≡ is_done reply.now }
{
    matches!(reply, Reply::Done)
}

fn is_committed(reply: &Reply) -> bool
    ensures { result ≡ is_committed reply.now }
{
    matches!(reply, Reply::Unit(_) | Reply::Done)
}

fn may_be_committed(reply: &Reply) -> bool
    ensures { result ≡ may_be_committed reply.now }
{
    match reply {
        // The store that failed may have them.
        Reply::Refused(Refusal::StoreFault) => true,
        _ => is_committed(reply),
    }
}

fn is_number(reply: &Reply) -> bool
    ensures { result ≡ is_number reply.now }
{
    matches!(reply, Reply::Number { .. })
}

/// The numbers that a session has drawn, by its answers, and that aren't committed.
#[derive(Drop)]
pub(crate) struct Uncommitted {
    /// Those of stocks, which its next COMMIT hands over, in the order of their lines.
    pub(crate) stock: Vec<Num>,
    /// How many there are, of the server and of stocks together: 64 where there are more.
    pub(crate) count: u32,
    ghost within: { count ≤ 64 },
}

impl Uncommitted {
    pub(crate) fn new(alloc: Global) -> Uncommitted
        ensures stock { result.stock.items ≡ [] }
        ensures count { result.count ≡ 0 }
    {
        Uncommitted {
            stock: Vec::new(alloc),
            count: 0,
        }
    }

    /// Whether a unit has no room for another number.
    pub(crate) fn is_full(&self) -> bool
        ensures { result ≡ nat_le 64 self.now.count }
    {
        self.count >= MOST
    }

    /// Room for one number more of a stock.
    pub(crate) fn reserve(&mut self) -> Result<(), NoMemory>
        ensures stock { self.new.stock.items ≡ self.old.stock.items }
        ensures count { self.new.count ≡ self.old.count }
        ensures room { OnOk result (vec_len self.new.stock < vec_capacity self.new.stock) }
    {
        self.stock.reserve(1)?;
        Ok(())
    }

    /// The numbers that a COMMIT hands over.
    pub(crate) fn copy(&self, alloc: Global) -> Result<Items<Num>, NoMemory>
        ensures { IfOk result (λ stock. stock ≡ self.now.stock.items) }
    {
        let mut stock = Vec::new(alloc);
        stock.extend_from_slice(self.stock.as_slice())?;
        Ok(Items::from_vec(stock))
    }

    /// Follows the answer of a call.
    pub(crate) fn follow_call(&mut self, settling: Settling, reply: &Reply)
        ensures stock { self.new.stock.items ≡ stock_left self.old.stock.items settling reply.now }
        ensures count { (n : ℕ) → self.old.count ≡ capped n
            → self.new.count ≡ capped (count_left n settling reply.now) }
    {
        if settles(settling, reply) {
            self.stock.clear();
        }
        if ends_unit(settling, reply) {
            self.count = 0;
        } else if is_number(reply) {
            self.add_one();
        }
    }

    /// Follows the answer of a drawing from a stock, for which there is room.
    pub(crate) fn follow_draw(&mut self, object: Name, nr: [u8; 2], reply: &Reply)
        requires room { vec_len self.old.stock < vec_capacity self.old.stock }
        ensures stock { self.new.stock.items ≡ self.old.stock.items ++ number_in object nr reply.now }
        ensures count { (n : ℕ) → self.old.count ≡ capped n → self.new.count ≡ capped (n + one_number reply.now) }
    {
        if let Reply::Number { number, .. } = reply {
            self.stock.push_reserved(Num {
                object,
                nr,
                number: *number,
            });
            self.add_one();
        }
    }

    fn add_one(&mut self)
        ensures stock { self.new.stock ≡ self.old.stock }
        ensures count { (n : ℕ) → self.old.count ≡ capped n → self.new.count ≡ capped (n + 1) }
    {
        if self.count < MOST {
            self.count += 1;
        }
    }
}
