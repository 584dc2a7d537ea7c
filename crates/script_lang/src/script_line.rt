ghost use Rattle.std.specs.Prelude.{◌≡◌};
ghost use Rattle.script_lang.specs.Sessions.{session_of};

use enq_base::{Items, Name, Scope, UnitKey};
use mode_rules::Mode;

/// A part `field=value` of a line. The value may be empty, and may have `$` and the names of variables in it.
#[derive(Drop)]
pub struct RawValue {
    pub field: Name,
    pub raw: Items<u8>,
}

/// A line of a script. Keys, texts, numbers and the values of fields stand as in the line, so `$` and
/// the names of variables may be in them.
#[derive(Drop)]
pub enum ScriptLine {
    /// An empty line, or a comment.
    Blank,
    /// `s LOGON user`
    Logon {
        session: Name,
        user: Name,
    },
    /// `s LOGOFF`
    Logoff {
        session: Name,
    },
    /// `s DEQ_ALL`
    DeqAll {
        session: Name,
    },
    /// `s FLUSH`
    Flush {
        session: Name,
    },
    /// `s RESET`
    Reset {
        session: Name,
    },
    /// `s COMMIT`
    Commit {
        session: Name,
    },
    /// `s ROLLBACK`
    Rollback {
        session: Name,
    },
    /// `s ENQ object mode scope field=value ..`
    Enq {
        session: Name,
        object: Name,
        mode: Mode,
        scope: Scope,
        values: Items<RawValue>,
    },
    /// `s DEQ object mode scope field=value ..`
    Deq {
        session: Name,
        object: Name,
        mode: Mode,
        scope: Scope,
        values: Items<RawValue>,
    },
    /// `s COLLECT object mode scope field=value ..`
    Collect {
        session: Name,
        object: Name,
        mode: Mode,
        scope: Scope,
        values: Items<RawValue>,
    },
    /// `s CONVERT object field=value ..`
    Convert {
        session: Name,
        object: Name,
        values: Items<RawValue>,
    },
    /// `s NUM object nr variable`, with two digits for `nr`
    Num {
        session: Name,
        object: Name,
        nr: [u8; 2],
        variable: Name,
    },
    /// `s READ table key variable`
    Read {
        session: Name,
        table: Name,
        key: Items<u8>,
        variable: Name,
    },
    /// `s V1 PUT table key text`: the text is the rest of the line. Part 1 is `V1`, part 2 is `V2`.
    Put {
        session: Name,
        part: u8,
        table: Name,
        key: Items<u8>,
        text: Items<u8>,
    },
    /// `s V1 INS table key text`: the text is the rest of the line. Part 1 is `V1`, part 2 is `V2`.
    Ins {
        session: Name,
        part: u8,
        table: Name,
        key: Items<u8>,
        text: Items<u8>,
    },
    /// `s V1 DEL table key`. Part 1 is `V1`, part 2 is `V2`.
    Del {
        session: Name,
        part: u8,
        table: Name,
        key: Items<u8>,
    },
    /// `s V1 ADD table key number`. Part 1 is `V1`, part 2 is `V2`.
    Add {
        session: Name,
        part: u8,
        table: Name,
        key: Items<u8>,
        number: Items<u8>,
    },
    /// `@w TAKE1`
    Take1 {
        worker: u8,
    },
    /// `@w DO1`
    Do1 {
        worker: u8,
    },
    /// `@w TAKE2`
    Take2 {
        worker: u8,
    },
    /// `@w DO2`
    Do2 {
        worker: u8,
    },
    /// `@w DROP`
    DropOrder {
        worker: u8,
    },
    /// `! KILL`
    Kill,
    /// `! FAILOVER`
    FailOver,
    /// `! RESTART`
    Restart,
    /// `! ATTACH`
    Attach,
    /// `! CANCEL 1.2.3`
    Cancel {
        unit: UnitKey,
    },
    /// `! RESUBMIT 1.2.3`
    Resubmit {
        unit: UnitKey,
    },
    /// `? SM12`
    Sm12,
    /// `? SM13`
    Sm13,
    /// `? SNRO`
    Snro,
    /// `? AUDIT`
    Audit,
}

/// The session of the line.
pub fn session_of(line: &ScriptLine) -> Option<Name>
    ensures { result ≡ session_of line.now }
{
    match line {
        ScriptLine::Logon { session, .. }
        | ScriptLine::Logoff { session }
        | ScriptLine::DeqAll { session }
        | ScriptLine::Flush { session }
        | ScriptLine::Reset { session }
        | ScriptLine::Commit { session }
        | ScriptLine::Rollback { session }
        | ScriptLine::Enq { session, .. }
        | ScriptLine::Deq { session, .. }
        | ScriptLine::Collect { session, .. }
        | ScriptLine::Convert { session, .. }
        | ScriptLine::Num { session, .. }
        | ScriptLine::Read { session, .. }
        | ScriptLine::Put { session, .. }
        | ScriptLine::Ins { session, .. }
        | ScriptLine::Del { session, .. }
        | ScriptLine::Add { session, .. } => Some(*session),
        _ => None,
    }
}
