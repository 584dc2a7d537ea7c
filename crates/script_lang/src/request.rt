ghost use Rattle.std.specs.Prelude.{◌≡◌};
ghost use Rattle.script_lang.specs.Reading.{Gives, request_of};
ghost use Rattle.script_lang.specs.declared.script_line.ScriptLine.TheVariants as line;

use crate::parts::read_name;
use crate::read_fault::ReadFault;
use crate::script_line::{RawValue, ScriptLine};
use crate::values::part_and_values;
use crate::words::{read_mode, read_scope};
use enq_base::{Items, Name, Scope, cut_at};
use mode_rules::Mode;
use std::alloc::Global;

/// What stands behind ENQ, DEQ and COLLECT.
#[derive(Drop)]
pub(crate) struct Request {
    pub(crate) object: Name,
    pub(crate) mode: Mode,
    pub(crate) scope: Scope,
    pub(crate) values: Items<RawValue>,
}

impl Request {
    pub(crate) fn enq(self, session: Name) -> ScriptLine
        ensures { result ≡ line.Enq session self.object self.mode self.scope self.values }
    {
        ScriptLine::Enq {
            session,
            object: self.object,
            mode: self.mode,
            scope: self.scope,
            values: self.values,
        }
    }

    pub(crate) fn deq(self, session: Name) -> ScriptLine
        ensures { result ≡ line.Deq session self.object self.mode self.scope self.values }
    {
        ScriptLine::Deq {
            session,
            object: self.object,
            mode: self.mode,
            scope: self.scope,
            values: self.values,
        }
    }

    pub(crate) fn collect(self, session: Name) -> ScriptLine
        ensures { result ≡ line.Collect session self.object self.mode self.scope self.values }
    {
        ScriptLine::Collect {
            session,
            object: self.object,
            mode: self.mode,
            scope: self.scope,
            values: self.values,
        }
    }
}

#[tactic(auto, unfolding(crate::specs::Reading::request_of))]
pub(crate) fn read_request(alloc: Global, text: &[u8]) -> Result<Request, ReadFault>
    ensures { Gives (λ r. r) result (request_of text.now) }
{
    let (object, rest) = cut_at(text, b' ').ok_or(ReadFault::BadLine)?;
    let object = read_name(object).ok_or(ReadFault::BadLine)?;
    let (mode, rest) = cut_at(rest, b' ').ok_or(ReadFault::BadLine)?;
    let mode = read_mode(mode).ok_or(ReadFault::BadLine)?;
    let (scope, values) = part_and_values(alloc, rest)?;
    let scope = read_scope(scope).ok_or(ReadFault::BadLine)?;
    Ok(Request {
        object,
        mode,
        scope,
        values,
    })
}
