ghost use Rattle.std.specs.Prelude.{◌≡◌, IsTrue};
ghost use Rattle.script_lang.specs.Memory.{begins_with_list_verb, takes_lists};
ghost use Rattle.script_lang.specs.Reading.{Gives, number_line, row_line, session_line, verb_line};

use crate::effect::read_update;
use crate::parts::{read_name, read_nr, read_raw};
use crate::read_fault::ReadFault;
use crate::request::read_request;
use crate::script_line::ScriptLine;
use crate::values::object_and_values;
use crate::words::{Verb, read_plain, read_verb};
use enq_base::{Name, cut_at};
use std::alloc::Global;

/// What stands behind a session's name.
#[tactic(auto, unfolding(crate::specs::Reading::session_line))]
pub(crate) fn read_session(
    alloc: Global,
    session: Name,
    text: &[u8],
) -> Result<ScriptLine, ReadFault>
    ensures line { Gives (λ l. l) result (session_line session text.now) }
    ensures no_memory { result ≡ Err ReadFault.NoMemory → IsTrue (begins_with_list_verb text.now) }
{
    match cut_at(text, b' ') {
        None => read_plain(session, text).ok_or(ReadFault::BadLine),
        Some((verb, rest)) => {
            let verb = read_verb(verb).ok_or(ReadFault::BadLine)?;
            read_verb_line(alloc, session, verb, rest)
        }
    }
}

#[tactic(auto, unfolding(crate::specs::Reading::verb_line))]
fn read_verb_line(
    alloc: Global,
    session: Name,
    verb: Verb,
    text: &[u8],
) -> Result<ScriptLine, ReadFault>
    ensures line { Gives (λ l. l) result (verb_line session verb text.now) }
    ensures no_memory { result ≡ Err ReadFault.NoMemory → IsTrue (takes_lists verb) }
{
    match verb {
        Verb::Logon => {
            let user = read_name(text).ok_or(ReadFault::BadLine)?;
            Ok(ScriptLine::Logon { session, user })
        }
        Verb::Enq => Ok(read_request(alloc, text)?.enq(session)),
        Verb::Deq => Ok(read_request(alloc, text)?.deq(session)),
        Verb::Collect => Ok(read_request(alloc, text)?.collect(session)),
        Verb::Convert => {
            let (object, values) = object_and_values(alloc, text)?;
            Ok(ScriptLine::Convert {
                session,
                object,
                values,
            })
        }
        Verb::Num => read_number_line(session, text).ok_or(ReadFault::BadLine),
        Verb::Read => read_row_line(alloc, session, text),
        Verb::V1 => read_update(alloc, session, 1, text),
        Verb::V2 => read_update(alloc, session, 2, text),
    }
}

#[tactic(auto, unfolding(crate::specs::Reading::number_line))]
fn read_number_line(session: Name, text: &[u8]) -> Option<ScriptLine>
    ensures { result ≡ number_line session text.now }
{
    let (object, rest) = cut_at(text, b' ')?;
    let object = read_name(object)?;
    let (nr, variable) = cut_at(rest, b' ')?;
    let nr = read_nr(nr)?;
    let variable = read_name(variable)?;
    Some(ScriptLine::Num {
        session,
        object,
        nr,
        variable,
    })
}

#[tactic(auto, unfolding(crate::specs::Reading::row_line))]
fn read_row_line(alloc: Global, session: Name, text: &[u8]) -> Result<ScriptLine, ReadFault>
    ensures { Gives (λ l. l) result (row_line session text.now) }
{
    let (table, rest) = cut_at(text, b' ').ok_or(ReadFault::BadLine)?;
    let table = read_name(table).ok_or(ReadFault::BadLine)?;
    let (key, variable) = cut_at(rest, b' ').ok_or(ReadFault::BadLine)?;
    let variable = read_name(variable).ok_or(ReadFault::BadLine)?;
    let key = read_raw(alloc, key)?;
    Ok(ScriptLine::Read {
        session,
        table,
        key,
        variable,
    })
}
