ghost use Rattle.std.specs.Prelude.{◌≡◌};
ghost use Rattle.hall_model.specs.Calls as calls;
ghost use Rattle.hall_model.specs.Calls.{SessionCall, call_of, wants_server};
ghost use Rattle.hall_model.specs.Sessions.{session_at};
ghost use Rattle.hall_model.specs.Step.{caller_refusal, down_refusal, server_refusal, session_refusal};

use crate::sessions::Sessions;
use enq_base::{Condition, Name, Refusal};
use hall_model::Command;

/// Why the caller may not call: its session isn't logged on, or has lost a lock with a lock server and may only roll
/// back or log off.
pub(crate) fn caller_refusal(sessions: &Sessions, command: &Command) -> Option<Refusal>
    ensures { result ≡ caller_refusal sessions.now (call_of command.now) }
{
    match command {
        Command::Logoff { session } | Command::Rollback { session } => {
            session_refusal(sessions, session, true)
        }
        Command::Ask { session, .. }
        | Command::Free { session, .. }
        | Command::FreeAll { session }
        | Command::Convert { session, .. }
        | Command::Number { session, .. }
        | Command::Reserve { session, .. }
        | Command::Read { session, .. }
        | Command::Commit { session, .. } => session_refusal(sessions, session, false),
        Command::Logon { .. }
        | Command::Take1 { .. }
        | Command::Do1 { .. }
        | Command::Take2 { .. }
        | Command::Do2 { .. }
        | Command::DropOrder { .. }
        | Command::Kill
        | Command::FailOver
        | Command::Restart
        | Command::Attach
        | Command::Cancel { .. }
        | Command::Resubmit { .. } => None,
    }
}

fn session_refusal(sessions: &Sessions, name: &Name, ends_unit: bool) -> Option<Refusal>
    ensures { (call : SessionCall) → calls.ends_unit call ≡ ends_unit
        → result ≡ session_refusal call (session_at sessions.now name.now) }
{
    match sessions.find(name) {
        None => Some(Refusal::UnknownSession),
        Some(session) if session.lost && !ends_unit => Some(Refusal::LocksLost),
        Some(_) => None,
    }
}

/// Why a call isn't served in doubt, where a restart is served alone.
pub(crate) fn down_refusal(condition: Condition, command: &Command) -> Option<Refusal>
    ensures { result ≡ down_refusal condition (call_of command.now) }
{
    match (condition, command) {
        (Condition::Up | Condition::NoServer, _) | (Condition::Doubt(_), Command::Restart) => None,
        (Condition::Doubt(call), _) => Some(Refusal::Down(call)),
    }
}

/// Why a call isn't served where there is no lock server.
pub(crate) fn server_refusal(condition: Condition, command: &Command) -> Option<Refusal>
    ensures { result ≡ server_refusal condition (call_of command.now) }
{
    match condition {
        Condition::NoServer if wants_server(command) => Some(Refusal::SystemFailure),
        _ => None,
    }
}

/// Whether a call wants a lock server: all but those for numbers and rows, of workers the posts of V1 parts, and all of
/// the administrator but the restart.
fn wants_server(command: &Command) -> bool
    ensures { result ≡ wants_server (call_of command.now) }
{
    match command {
        Command::Logoff { .. }
        | Command::Ask { .. }
        | Command::Free { .. }
        | Command::FreeAll { .. }
        | Command::Convert { .. }
        | Command::Rollback { .. }
        | Command::Commit { .. }
        | Command::Do1 { .. }
        | Command::Kill
        | Command::Attach
        | Command::Cancel { .. }
        | Command::Resubmit { .. } => true,
        Command::Logon { .. }
        | Command::Number { .. }
        | Command::Reserve { .. }
        | Command::Read { .. }
        | Command::Take1 { .. }
        | Command::Take2 { .. }
        | Command::Do2 { .. }
        | Command::DropOrder { .. }
        | Command::FailOver
        | Command::Restart => false,
    }
}
