ghost use Rattle.std.specs.Prelude.{false, ◌≡◌, true, IfOk, OnErr};
ghost use Rattle.hall_model.specs.Calls.{who_of};
ghost use Rattle.hall_model.specs.History.{is_row};
ghost use Rattle.hall_model.specs.Step.{answer_of};

use enq_base::{Condition, Items, Key, Name, NoMemory, Num, Parts, Reason, Refusal, Text, UnitKey};
use lock_entry::{Asked, Request};
use number_ranges::Code;
use std::alloc::Global;

/// Who makes a call.
#[derive(Clone, Copy, Debug, PartialEq, Eq)]
pub enum Who {
    Session(Name),
    /// An update work process, by its number.
    Worker(u8),
    Admin,
}

/// A session that is logged on.
#[derive(Drop)]
pub struct Session {
    pub name: Name,
    pub user: Name,
    /// Counted from 1 since the start of the server.
    pub number: u32,
    /// The number of the open unit of work, from 1.
    pub luw: u32,
    /// The numbers that the open unit has drawn and not recorded, in order.
    pub draws: Items<Num>,
    /// Whether the session had a lock in a table that is gone. It loses it with the next lock server that is made
    /// anew.
    pub marked: bool,
    /// Whether the session lost a lock with a lock server, and has to roll back first.
    pub lost: bool,
}

/// One call of the hall.
#[derive(Drop)]
pub enum Command {
    Logon {
        session: Name,
        user: Name,
    },
    Logoff {
        session: Name,
    },
    Ask {
        session: Name,
        requests: Items<Request>,
    },
    Free {
        session: Name,
        requests: Items<Request>,
    },
    FreeAll {
        session: Name,
    },
    Convert {
        session: Name,
        asked: Items<Asked>,
    },
    Rollback {
        session: Name,
    },
    /// Draws a number of an interval.
    Number {
        session: Name,
        object: Name,
        nr: [u8; 2],
    },
    /// Reserves the numbers of a buffered interval up to this one, in whole blocks.
    Reserve {
        session: Name,
        object: Name,
        nr: [u8; 2],
        upto: u64,
    },
    /// Asks for the text of a business row.
    Read {
        session: Name,
        table: Name,
        key: Key,
    },
    Commit {
        session: Name,
        parts: Parts,
        /// The numbers of buffered intervals that the caller took from a stock which threads share.
        stock: Items<Num>,
    },
    Take1 {
        worker: u8,
    },
    Do1 {
        worker: u8,
    },
    Take2 {
        worker: u8,
    },
    Do2 {
        worker: u8,
    },
    DropOrder {
        worker: u8,
    },
    /// Ends the lock server.
    Kill,
    /// Makes the list of the replica the table of a lock server that goes on.
    FailOver,
    /// Makes a lock server anew, with the locks of the units that wait for their V1 part.
    Restart,
    /// Has a replica follow the table.
    Attach,
    Cancel {
        unit: UnitKey,
    },
    Resubmit {
        unit: UnitKey,
    },
}

impl Command {
    /// Who makes the call.
    pub fn who(&self) -> Who
        ensures { result ≡ who_of self.now }
    {
        match self {
            Command::Logon { session, .. }
            | Command::Logoff { session }
            | Command::Ask { session, .. }
            | Command::Free { session, .. }
            | Command::FreeAll { session }
            | Command::Convert { session, .. }
            | Command::Rollback { session }
            | Command::Number { session, .. }
            | Command::Reserve { session, .. }
            | Command::Read { session, .. }
            | Command::Commit { session, .. } => Who::Session(*session),
            Command::Take1 { worker }
            | Command::Do1 { worker }
            | Command::Take2 { worker }
            | Command::Do2 { worker }
            | Command::DropOrder { worker } => Who::Worker(*worker),
            Command::Kill
            | Command::FailOver
            | Command::Restart
            | Command::Attach
            | Command::Cancel { .. }
            | Command::Resubmit { .. } => Who::Admin,
        }
    }
}

/// What a call is answered.
#[derive(Debug, Drop)]
pub enum Reply {
    Done,
    /// The unit was recorded or cancelled, or a part of it is tried again, or a worker has an order for it.
    Unit(UnitKey),
    /// The unit's V1 part was posted.
    Posted(UnitKey),
    /// The unit's V1 part was refused at this effect, counted from 1.
    Bad {
        unit: UnitKey,
        index: u32,
        reason: Reason,
    },
    /// The unit's V2 part was posted.
    Closed(UnitKey),
    /// The unit's V2 part was refused at this effect, counted from 1.
    Bad2 {
        unit: UnitKey,
        index: u32,
        reason: Reason,
    },
    /// A number was drawn, and how near it is to the end of its interval.
    Number {
        number: u64,
        code: Code,
    },
    /// The level up to which numbers are reserved.
    Level(u64),
    /// The text of a row, where it is there.
    Row(Option<Text>),
    Refused(Refusal),
}

/// What stands after a call.
#[derive(Clone, Copy, Debug, PartialEq, Eq)]
pub struct After {
    pub condition: Condition,
    /// Whether a replica follows the lock table. There is none yet.
    pub attached: bool,
    /// Whether this was a restart that was done and has found the change in doubt in the store.
    pub taken: bool,
}

/// A call of the history.
#[derive(Drop)]
pub struct PastEntry {
    pub who: Who,
    /// The line of the script, 0 where there is none.
    pub line: u32,
    pub command: Command,
    pub reply: Reply,
    pub after: After,
}

/// What a call is answered.
#[derive(Drop)]
pub struct Answer {
    pub reply: Reply,
    /// Whether it was a restart that was done and has found the change in doubt in the store.
    pub taken: bool,
}

impl Answer {
    /// That of any other call.
    pub fn of(reply: Reply) -> Answer
        ensures { result ≡ record { reply = reply; taken = false } }
    {
        Answer {
            reply,
            taken: false,
        }
    }
}

impl Reply {
    pub fn of(answer: Result<(), Refusal>) -> Reply
        ensures { result ≡ answer_of answer }
    {
        match answer {
            Ok(()) => Reply::Done,
            Err(refusal) => Reply::Refused(refusal),
        }
    }

    /// An equal reply. Only a row's text takes memory.
    pub fn copy(&self, alloc: Global) -> Result<Reply, NoMemory>
        ensures same { IfOk result (λ copy. copy ≡ self.now) }
        ensures wanting { OnErr result (is_row self.now ≡ true) }
    {
        Ok(match self {
            Reply::Done => Reply::Done,
            Reply::Unit(unit) => Reply::Unit(*unit),
            Reply::Posted(unit) => Reply::Posted(*unit),
            Reply::Bad {
                unit,
                index,
                reason,
            } => Reply::Bad {
                unit: *unit,
                index: *index,
                reason: *reason,
            },
            Reply::Closed(unit) => Reply::Closed(*unit),
            Reply::Bad2 {
                unit,
                index,
                reason,
            } => Reply::Bad2 {
                unit: *unit,
                index: *index,
                reason: *reason,
            },
            Reply::Number { number, code } => Reply::Number {
                number: *number,
                code: *code,
            },
            Reply::Level(level) => Reply::Level(*level),
            Reply::Row(None) => Reply::Row(None),
            Reply::Row(Some(text)) => Reply::Row(Some(text.copy(alloc)?)),
            Reply::Refused(refusal) => Reply::Refused(*refusal),
        })
    }
}
