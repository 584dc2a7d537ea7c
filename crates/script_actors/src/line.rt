ghost use Rattle.std.specs.Prelude.{◌≡◌};
ghost use Rattle.script_actors.specs.Doers.{doer_of, is_done_by, is_same};

use hall_model::Who;
use script_lang::{ScriptLine, session_of};

/// A line of a script, with its number.
#[derive(Drop)]
pub struct NumberedLine {
    pub number: u32,
    pub line: ScriptLine,
}

/// Who does a line.
#[derive(Clone, Copy, Debug, PartialEq, Eq)]
pub enum Doer {
    /// Nobody: it is blank.
    Nobody,
    /// It is shown once all are done.
    Monitor,
    /// A worker. There is no such line where workers go their own way.
    Worker,
    Actor(Who),
}

/// Who does the line.
pub fn doer_of(line: &ScriptLine) -> Doer
    ensures { result ≡ doer_of line.now }
{
    match line {
        ScriptLine::Blank => Doer::Nobody,
        ScriptLine::Sm12 | ScriptLine::Sm13 | ScriptLine::Snro | ScriptLine::Audit => Doer::Monitor,
        ScriptLine::Take1 { .. }
        | ScriptLine::Do1 { .. }
        | ScriptLine::Take2 { .. }
        | ScriptLine::Do2 { .. }
        | ScriptLine::DropOrder { .. } => Doer::Worker,
        ScriptLine::Kill
        | ScriptLine::FailOver
        | ScriptLine::Restart
        | ScriptLine::Attach
        | ScriptLine::Cancel { .. }
        | ScriptLine::Resubmit { .. } => Doer::Actor(Who::Admin),
        _ => match session_of(line) {
            Some(session) => Doer::Actor(Who::Session(session)),
            None => Doer::Nobody,
        },
    }
}

/// Whether the line is one of this actor's.
pub fn is_done_by(line: &ScriptLine, who: &Who) -> bool
    ensures { result ≡ is_done_by who.now line.now }
{
    match doer_of(line) {
        Doer::Actor(actor) => is_same(who, &actor),
        _ => false,
    }
}

fn is_same(a: &Who, b: &Who) -> bool
    ensures { result ≡ is_same a.now b.now }
{
    match (a, b) {
        (Who::Session(a), Who::Session(b)) => a.is(b),
        (Who::Worker(a), Who::Worker(b)) => *a == *b,
        (Who::Admin, Who::Admin) => true,
        _ => false,
    }
}
