ghost use Rattle.std.specs.Prelude.{◌≡◌, ℕ, cond, false, List, OnOk};
ghost use Rattle.coverage.specs.Walked as walked;
ghost use Rattle.coverage.specs.Walked.{name_eq, session_named};

use crate::lack::Finding;
use crate::session::Session;
use enq_base::{Name, NoMemory};
use lock_objects::LockObject;
use script_lang::ScriptLine;
use std::alloc::Global;
use std::collections::HashMap;
use std::marker::Model;

/// The sessions that lines named so far, each found by its name without a walk. Any other has no lines.
#[derive(Drop)]
pub(crate) struct Sessions {
    by_name: HashMap<Name, Session>,
}

impl Model for Sessions {
    ghost use Rattle.std.specs.Prelude.{ℕ, List};
    ghost use Rattle.coverage.specs.Walked.{SessionView};

    ghost Value = { List (List ℕ × SessionView) };

    ghost view = { λ s. s.by_name.entries };
}

impl Sessions {
    /// No session. It takes no memory.
    pub(crate) fn new(alloc: Global) -> Sessions
        ensures { (n : List ℕ) → session_named result n ≡ walked.no_lines }
    {
        Sessions {
            by_name: HashMap::new(alloc),
        }
    }

    /// One more line of the session of this name; where it commits the unit, what was found is told of
    /// its watches.
    pub(crate) fn follow(
        &mut self,
        alloc: Global,
        objects: &[LockObject],
        name: &Name,
        place: usize,
        number: u32,
        line: &ScriptLine,
        found: &mut Vec<Option<Finding>>,
    ) -> Result<(), NoMemory>
        ensures sessions { OnOk result ((n : List ℕ) → session_named self.new n
            ≡ cond (name_eq name.now n)
            (walked.followed objects.now place (walked.wish_in objects.now (number, line.now)) line.now
            (session_named self.old n))
            (session_named self.old n)) }
        ensures found { found.new.items ≡ walked.told_on (session_named self.old name.now) line.now found.old.items }
    {
        let session = self.take(alloc, name);
        session.tell(line, found);
        let session = session.follow(alloc, objects, place, number, line)?;
        self.put(name, session)
    }

    /// Takes the session of this name out.
    fn take(&mut self, alloc: Global, name: &Name) -> Session
        ensures session { result ≡ session_named self.old name.now }
        ensures others { (n : List ℕ) → name_eq name.now n ≡ false
            → session_named self.new n ≡ session_named self.old n }
    {
        match self.by_name.remove(name) {
            Some(session) => session,
            None => Session::new(alloc),
        }
    }

    /// Puts a session there.
    fn put(&mut self, name: &Name, session: Session) -> Result<(), NoMemory>
        ensures { OnOk result ((n : List ℕ) → session_named self.new n
            ≡ cond (name_eq name.now n) session (session_named self.old n)) }
    {
        self.by_name.insert(*name, session)?;
        Ok(())
    }
}
