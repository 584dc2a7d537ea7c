ghost use Rattle.hall_model.specs.History.{IsStep};
ghost use Rattle.hall_model.specs.State.{State};
ghost use Rattle.hall_model.specs.Stocks.{IsStockIn};

use bk_disk::Disk;
use enq_base::{Items, Key, Name, Num, Parts, UnitKey};
use hall::Hall;
use hall_model::{Command, Reply};
use keeper_api::Keeper;
use lock_entry::{Asked, LockStore, Request};
use replica_link::Link;
use std::alloc::Global;

/// What a hall is asked, a method for each command. Each is one step of the system, as `Hall::serve` says it of the
/// command, and its other promises are those of `serve`.
pub trait SingleCalls {
    ghost state: { Self → State };

    /// Logs a session on. It has to be another name than those that are logged on.
    fn logon(&mut self, line: u32, session: Name, user: Name) -> Reply
        ensures step { IsStep (state self.old) (state self.new) line (Command.Logon session user) result };

    /// Logs a session off, and frees the locks of its dialogue and of its open unit.
    fn logoff(&mut self, line: u32, session: Name) -> Reply
        ensures step { IsStep (state self.old) (state self.new) line (Command.Logoff session) result };

    /// Asks for locks, all or none (The SAP Lock Concept).
    fn ask(&mut self, alloc: Global, line: u32, session: Name, requests: Vec<Request>) -> Reply
        ensures step { IsStep (state self.old) (state self.new) line (Command.Ask session requests.items) result };

    /// Takes one from each lock that the requests name.
    fn free(&mut self, line: u32, session: Name, requests: Vec<Request>) -> Reply
        ensures step { IsStep (state self.old) (state self.new) line (Command.Free session requests.items) result };

    /// Frees all locks of the session's dialogue and of its open unit. Those of its committed units stay.
    fn free_all(&mut self, line: u32, session: Name) -> Reply
        ensures step { IsStep (state self.old) (state self.new) line (Command.FreeAll session) result };

    /// Turns optimistic locks into exclusive ones, all or none. The modes in `asked` don't count.
    fn convert(&mut self, alloc: Global, line: u32, session: Name, asked: Vec<Asked>) -> Reply
        ensures step { IsStep (state self.old) (state self.new) line (Command.Convert session asked.items) result };

    /// Frees the locks of the session's open unit, and opens its next unit (Updates in the SAP System, rollback).
    fn rollback(&mut self, line: u32, session: Name) -> Reply
        ensures step { IsStep (state self.old) (state self.new) line (Command.Rollback session) result };

    /// The text of a business row, as posted parts have made it: what units that wait are about to write isn't told.
    fn read(&mut self, alloc: Global, line: u32, session: Name, table: Name, key: Key) -> Reply
        ensures step { IsStep (state self.old) (state self.new) line (Command.Read session table key) result };

    /// Draws the next number of a number range interval for a session (Number Range Objects). One of an interval
    /// without a buffer belongs to the session's open unit, and the interval to the session until the unit is recorded
    /// or rolled back.
    fn number(
        &mut self,
        alloc: Global,
        line: u32,
        session: Name,
        object: Name,
        nr: [u8; 2],
    ) -> Reply
        ensures step { IsStep (state self.old) (state self.new) line (Command.Number session object nr) result };

    /// Reserves the numbers of a buffered interval up to this one, in whole blocks, for a stock in memory that hands
    /// them out. The reply is the level up to which they are reserved.
    fn reserve(
        &mut self,
        alloc: Global,
        line: u32,
        session: Name,
        object: Name,
        nr: [u8; 2],
        upto: u64,
    ) -> Reply
        ensures step { IsStep (state self.old) (state self.new) line (Command.Reserve session object nr upto) result };

    /// Records a unit of a session for the update, with the numbers that the session has drawn and, behind them, those
    /// that its caller took from a stock (Updates in the SAP System). Its locks are handed over, first in the backup
    /// file, and the session's next unit is open. Without effects the numbers alone are recorded, and the unit stays
    /// open; without numbers too nothing changes. Memory hands out what is behind the numbers of the stock then.
    fn commit(
        &mut self,
        alloc: Global,
        line: u32,
        session: Name,
        parts: Parts,
        stock: Vec<Num>,
    ) -> Reply
        // Each number of the stock is of an interval with a buffer, from its first number to its level; none stands
        // there twice, none was committed before, and no session has drawn one.
        requires stock { IsStockIn (state self.old) stock.items }
        ensures step { IsStep (state self.old) (state self.new) line (Command.Commit session parts stock.items)
            result };

    /// Gives a worker an order for the oldest unit that waits for its V1 part and that no worker has an order for.
    fn take1(&mut self, line: u32, worker: u8) -> Reply
        ensures step { IsStep (state self.old) (state self.new) line (Command.Take1 worker) result };

    /// The same for the V2 part of a unit whose V1 part is posted.
    fn take2(&mut self, line: u32, worker: u8) -> Reply
        ensures step { IsStep (state self.old) (state self.new) line (Command.Take2 worker) result };

    /// Posts the V1 part of the unit that a worker has an order for, or records where it is refused (Updates in the SAP
    /// System, V1 update modules). The order and the unit's locks go.
    fn do1(&mut self, alloc: Global, line: u32, worker: u8) -> Reply
        ensures step { IsStep (state self.old) (state self.new) line (Command.Do1 worker) result };

    /// Posts the V2 part of the unit that a worker has an order for, or records where it is refused (Updates in the SAP
    /// System, V2 update modules). The order goes; no lock is touched.
    fn do2(&mut self, alloc: Global, line: u32, worker: u8) -> Reply
        ensures step { IsStep (state self.old) (state self.new) line (Command.Do2 worker) result };

    /// Takes a worker's order back. The unit waits again at its old place.
    fn drop_order(&mut self, line: u32, worker: u8) -> Reply
        ensures step { IsStep (state self.old) (state self.new) line (Command.DropOrder worker) result };

    /// Ends the lock server (Standalone Enqueue Server). Its table is gone; units that wait for their V1 part keep
    /// their locks in the backup file. Until there is a lock server again, calls that want one are refused.
    fn kill(&mut self, line: u32) -> Reply
        ensures step { IsStep (state self.old) (state self.new) line Command.Kill result };

    /// Makes the list of the replica that followed the table of a lock server that goes on, where none is up
    /// (Standalone Enqueue Server, failover). It may be any list whose locks may stand together. The sessions keep what
    /// they had. No replica follows then, also where the link failed or the list is refused.
    fn fail_over(&mut self, alloc: Global, line: u32) -> Reply
        ensures step { IsStep (state self.old) (state self.new) line Command.FailOver result };

    /// Has a replica follow the table, from its whole list on. It may be repeated. Where the link fails none follows
    /// then, and where memory is wanting one that did may be lost.
    fn attach(&mut self, alloc: Global, line: u32) -> Reply
        ensures step { IsStep (state self.old) (state self.new) line Command.Attach result };

    /// Makes a lock server anew where there is none, with the locks that the backup file has of the units that wait for
    /// their V1 part (Standalone Enqueue Server, restart). No order stands. A session that had a lock which wasn't
    /// handed over has lost it: its open unit comes to nothing, and it has to roll back or log off first. No replica
    /// follows then.
    ///
    /// In doubt it reads the store anew and finds out whether the change in flight was made; the session in whose call
    /// a device failed has to roll back then too. It is the one call that is served in doubt. The time is linear in the
    /// rows of the store there, but for sorting.
    fn restart(&mut self, alloc: Global, line: u32) -> Reply
        ensures step { IsStep (state self.old) (state self.new) line Command.Restart result };

    /// Cancels a unit that waits for its V1 part, or of which a part was refused: neither part is offered again
    /// (Updates in the SAP System, deleting update requests). The locks of one that waits go. It has to be one that no
    /// worker has an order for.
    fn cancel(&mut self, alloc: Global, line: u32, unit: UnitKey) -> Reply
        ensures step { IsStep (state self.old) (state self.new) line (Command.Cancel unit) result };

    /// Tries the part of a unit again that was refused (Updates in the SAP System, repeating an update). For its V1
    /// part the locks that were stored with the unit have to stand again, all or none. The unit waits behind all
    /// others.
    fn resubmit(&mut self, alloc: Global, line: u32, unit: UnitKey) -> Reply
        ensures step { IsStep (state self.old) (state self.new) line (Command.Resubmit unit) result };
}

impl<T: LockStore, K: Keeper, D: Disk, L: Link> SingleCalls for Hall<T, K, D, L> {
    ghost state = { λ hall. hall.state };

    fn logon(&mut self, line: u32, session: Name, user: Name) -> Reply {
        self.serve(self.allocator(), line, Command::Logon { session, user })
    }

    fn logoff(&mut self, line: u32, session: Name) -> Reply {
        self.serve(self.allocator(), line, Command::Logoff { session })
    }

    fn ask(&mut self, alloc: Global, line: u32, session: Name, requests: Vec<Request>) -> Reply {
        let requests = Items::from_vec(requests);
        self.serve(alloc, line, Command::Ask { session, requests })
    }

    fn free(&mut self, line: u32, session: Name, requests: Vec<Request>) -> Reply {
        let requests = Items::from_vec(requests);
        self.serve(self.allocator(), line, Command::Free { session, requests })
    }

    fn free_all(&mut self, line: u32, session: Name) -> Reply {
        self.serve(self.allocator(), line, Command::FreeAll { session })
    }

    fn convert(&mut self, alloc: Global, line: u32, session: Name, asked: Vec<Asked>) -> Reply {
        let asked = Items::from_vec(asked);
        self.serve(alloc, line, Command::Convert { session, asked })
    }

    fn rollback(&mut self, line: u32, session: Name) -> Reply {
        self.serve(self.allocator(), line, Command::Rollback { session })
    }

    fn read(&mut self, alloc: Global, line: u32, session: Name, table: Name, key: Key) -> Reply {
        let command = Command::Read {
            session,
            table,
            key,
        };
        self.serve(alloc, line, command)
    }

    fn number(
        &mut self,
        alloc: Global,
        line: u32,
        session: Name,
        object: Name,
        nr: [u8; 2],
    ) -> Reply {
        let command = Command::Number {
            session,
            object,
            nr,
        };
        self.serve(alloc, line, command)
    }

    fn reserve(
        &mut self,
        alloc: Global,
        line: u32,
        session: Name,
        object: Name,
        nr: [u8; 2],
        upto: u64,
    ) -> Reply {
        let command = Command::Reserve {
            session,
            object,
            nr,
            upto,
        };
        self.serve(alloc, line, command)
    }

    fn commit(
        &mut self,
        alloc: Global,
        line: u32,
        session: Name,
        parts: Parts,
        stock: Vec<Num>,
    ) -> Reply {
        let command = Command::Commit {
            session,
            parts,
            stock: Items::from_vec(stock),
        };
        self.serve(alloc, line, command)
    }

    fn take1(&mut self, line: u32, worker: u8) -> Reply {
        self.serve(self.allocator(), line, Command::Take1 { worker })
    }

    fn take2(&mut self, line: u32, worker: u8) -> Reply {
        self.serve(self.allocator(), line, Command::Take2 { worker })
    }

    fn do1(&mut self, alloc: Global, line: u32, worker: u8) -> Reply {
        self.serve(alloc, line, Command::Do1 { worker })
    }

    fn do2(&mut self, alloc: Global, line: u32, worker: u8) -> Reply {
        self.serve(alloc, line, Command::Do2 { worker })
    }

    fn drop_order(&mut self, line: u32, worker: u8) -> Reply {
        self.serve(self.allocator(), line, Command::DropOrder { worker })
    }

    fn kill(&mut self, line: u32) -> Reply {
        self.serve(self.allocator(), line, Command::Kill)
    }

    fn fail_over(&mut self, alloc: Global, line: u32) -> Reply {
        self.serve(alloc, line, Command::FailOver)
    }

    fn attach(&mut self, alloc: Global, line: u32) -> Reply {
        self.serve(alloc, line, Command::Attach)
    }

    fn restart(&mut self, alloc: Global, line: u32) -> Reply {
        self.serve(alloc, line, Command::Restart)
    }

    fn cancel(&mut self, alloc: Global, line: u32, unit: UnitKey) -> Reply {
        self.serve(alloc, line, Command::Cancel { unit })
    }

    fn resubmit(&mut self, alloc: Global, line: u32, unit: UnitKey) -> Reply {
        self.serve(alloc, line, Command::Resubmit { unit })
    }
}
