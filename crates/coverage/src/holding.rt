ghost use Rattle.std.specs.Prelude.{◌≡◌, ◌+◌, ◌||◌, [], ◌++◌, IfOk, OnOk};
ghost use Rattle.coverage.specs.declared.lack.Wish.{Wish};
ghost use Rattle.coverage.specs.Lacks as lacks;
ghost use Rattle.coverage.specs.Lacks.{Standing};
ghost use Rattle.coverage.specs.Tallies.{AreMoved, covering};

use crate::locks::{covering_locks, take_away, unit_locks};
use enq_base::NoMemory;
use lock_entry::Asked;
use lock_objects::LockObject;
use script_lang::ScriptLine;
use std::alloc::Global;
use std::marker::Model;

/// What a session has: whether its unit has effects, the locks of its unit, each as often as it was asked for, and the
/// locks that its next FLUSH adds.
#[derive(Drop)]
pub(crate) struct Holding {
    effects: bool,
    held: Vec<Asked>,
    container: Vec<Asked>,
}

impl Model for Holding {
    ghost use Rattle.coverage.specs.Lacks.{Standing};

    ghost Value = { Standing };

    ghost view = { λ h. record { effects = h.effects; held = h.held.items; container = h.container.items } };
}

impl Holding {
    /// Of a session without lines. It takes no memory.
    pub(crate) fn new(alloc: Global) -> Holding
        ensures { result ≡ lacks.fresh }
    {
        Holding {
            effects: false,
            held: Vec::new(alloc),
            container: Vec::new(alloc),
        }
    }

    /// The locks of the unit.
    pub(crate) fn held(&self) -> &[Asked]
        ensures { result.now ≡ self.now.held }
    {
        self.held.as_slice()
    }

    /// The locks that the next FLUSH adds.
    pub(crate) fn container(&self) -> &[Asked]
        ensures { result.now ≡ self.now.container }
    {
        self.container.as_slice()
    }

    /// Whether the line ends the unit by a COMMIT.
    pub(crate) fn commits(&self, line: &ScriptLine) -> bool
        ensures { result ≡ lacks.commits self.now line.now }
    {
        match line {
            ScriptLine::Commit { .. } => self.effects,
            _ => false,
        }
    }

    /// The line of the session. The locks that it moved are given back.
    pub(crate) fn follow(
        &mut self,
        alloc: Global,
        objects: &[LockObject],
        line: &ScriptLine,
    ) -> Result<Vec<Asked>, NoMemory>
        ensures after { OnOk result (self.new ≡ lacks.after_line objects.now self.old line.now) }
        ensures moved { IfOk result (λ moved. AreMoved line.now self.old self.new moved.items) }
    {
        let locks = asked_by(alloc, objects, line)?;
        match line {
            ScriptLine::Enq { .. } => self.hold(locks),
            ScriptLine::Collect { .. } => self.collect(locks),
            ScriptLine::Deq { .. } => self.free(alloc, locks.as_slice()),
            ScriptLine::Flush { .. } => {
                self.flush()?;
                Ok(locks)
            }
            _ => {
                self.turn(line);
                Ok(locks)
            }
        }
    }

    fn hold(&mut self, locks: Vec<Asked>) -> Result<Vec<Asked>, NoMemory>
        ensures after { OnOk result (self.new ≡ record self.old { held = self.old.held ++ locks.items }) }
        ensures moved { IfOk result (λ moved. moved.items ≡ locks.items) }
    {
        self.held.extend_from_slice(locks.as_slice())?;
        Ok(locks)
    }

    fn collect(&mut self, locks: Vec<Asked>) -> Result<Vec<Asked>, NoMemory>
        ensures after { OnOk result (self.new ≡ record self.old { container = self.old.container ++ locks.items }) }
        ensures moved { IfOk result (λ moved. moved.items ≡ locks.items) }
    {
        self.container.extend_from_slice(locks.as_slice())?;
        Ok(locks)
    }

    /// The locks that were held and are no more.
    fn free(&mut self, alloc: Global, locks: &[Asked]) -> Result<Vec<Asked>, NoMemory>
        ensures after { OnOk result (self.new ≡ record self.old { held = lacks.without self.old.held locks.now }) }
        ensures freed { IfOk result (λ freed. (w : Wish)
            → covering w self.old.held ≡ covering w self.new.held + covering w freed.items) }
    {
        take_away(alloc, &mut self.held, locks)
    }

    fn flush(&mut self) -> Result<(), NoMemory>
        ensures { OnOk result
            (self.new ≡ record self.old { held = self.old.held ++ self.old.container; container = [] }) }
    {
        self.held.extend_from_slice(self.container.as_slice())?;
        self.container.clear();
        Ok(())
    }

    /// A line that needs no memory.
    fn turn(&mut self, line: &ScriptLine)
        ensures { self.new ≡ lacks.turned self.old line.now }
    {
        match line {
            ScriptLine::DeqAll { .. } => self.held.clear(),
            ScriptLine::Reset { .. } => self.container.clear(),
            ScriptLine::Commit { .. } => self.commit(),
            ScriptLine::Rollback { .. } | ScriptLine::Logoff { .. } => self.abandon(),
            ScriptLine::Put { .. }
            | ScriptLine::Ins { .. }
            | ScriptLine::Del { .. }
            | ScriptLine::Add { .. } => self.effects = true,
            _ => {}
        }
    }

    fn commit(&mut self)
        ensures { self.new ≡ lacks.committed self.old }
    {
        if self.effects {
            self.effects = false;
            self.held.clear();
        }
    }

    fn abandon(&mut self)
        ensures { self.new ≡ lacks.fresh }
    {
        self.effects = false;
        self.held.clear();
        self.container.clear();
    }
}

/// The locks that a line asks for or takes away.
fn asked_by(
    alloc: Global,
    objects: &[LockObject],
    line: &ScriptLine,
) -> Result<Vec<Asked>, NoMemory>
    ensures { IfOk result (λ v. v.items ≡ lacks.asked_by objects.now line.now) }
{
    match line {
        ScriptLine::Enq {
            object,
            mode,
            scope,
            values,
            ..
        }
        | ScriptLine::Collect {
            object,
            mode,
            scope,
            values,
            ..
        } => { covering_locks(alloc, objects, object, *mode, *scope, values.as_slice()) }
        ScriptLine::Deq {
            object,
            mode,
            scope,
            values,
            ..
        } => { unit_locks(alloc, objects, object, *mode, *scope, values.as_slice()) }
        _ => Ok(Vec::new(alloc)),
    }
}
