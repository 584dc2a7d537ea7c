ghost use Rattle.std.specs.Prelude.{◌≡◌, ◌<◌, [], ◌∷◌, ◌++◌, length, map, IfErr, IfOk, IfSome, OnOk};
ghost use Rattle.std.specs.Global.{Vec};
ghost use Rattle.std.specs.List.{position};
ghost use Rattle.lock_objects.specs.declared.value.FieldValue.{FieldValue as FieldValueView};
ghost use Rattle.lock_objects.specs.declared.value.Value.{Value as ValueView};
ghost use Rattle.script_runner.specs.Answers.{IsGivenBy};
ghost use Rattle.script_runner.specs.Lines.{arguments_at, asked_at, asking, field_values, given_value, is_object_called, kind_of};
ghost use Rattle.script_runner.specs.Lines.{request_in, requesting, value_of};

use crate::filling::part_of;
use dialogue_session::Dialogue;
use enq_base::{ArgKind, Name, NoMemory, Refusal, Scope, Short};
use lock_entry::{Asked, Request};
use lock_objects::{ArgFault, FieldValue, LockObject, Value};
use mode_rules::Mode;
use owner_scope::halves;
use script_lang::RawValue;
use std::alloc::Global;

/// The requests of a session's line, for the owners that its scope names.
pub(crate) fn requests_of(
    alloc: Global,
    side: &Dialogue,
    objects: &[LockObject],
    object: &Name,
    mode: Mode,
    scope: Scope,
    values: &[RawValue],
) -> Result<Vec<Request>, Refusal>
    ensures { IsGivenBy (λ (v : Vec Request). v.items)
        (requesting side.now.side.variables objects.now object.now mode scope values.now) result }
{
    let asked = asked_of(alloc, side, objects, object, mode, values)?;
    match in_scope(alloc, scope, asked.as_slice()) {
        Ok(requests) => Ok(requests),
        Err(_) => Err(Refusal::NoMemory),
    }
}

/// What a session's line asks for, one argument for each table of its object.
pub(crate) fn asked_of(
    alloc: Global,
    side: &Dialogue,
    objects: &[LockObject],
    object: &Name,
    mode: Mode,
    values: &[RawValue],
) -> Result<Vec<Asked>, Refusal>
    ensures { IsGivenBy (λ (v : Vec Asked). v.items)
        (asking side.now.side.variables objects.now object.now mode values.now) result }
{
    let values = field_values(alloc, side, values)?;
    asked_at(alloc, objects, object, mode, values.as_slice())
}

fn asked_at(
    alloc: Global,
    objects: &[LockObject],
    object: &Name,
    mode: Mode,
    values: &[FieldValue],
) -> Result<Vec<Asked>, Refusal>
    ensures { IsGivenBy (λ (v : Vec Asked). v.items) (asked_at objects.now object.now mode values.now) result }
{
    let Some(place) = place_of(objects, object) else {
        return Err(Refusal::UnknownObject);
    };
    arguments_at(alloc, &objects[place], values, mode)
}

fn arguments_at(
    alloc: Global,
    object: &LockObject,
    values: &[FieldValue],
    mode: Mode,
) -> Result<Vec<Asked>, Refusal>
    ensures { IsGivenBy (λ (v : Vec Asked). v.items) (arguments_at object.now values.now mode) result }
{
    match object.arguments(alloc, values, mode) {
        Ok(asked) => Ok(asked),
        Err(ArgFault::NoMemory) => Err(Refusal::NoMemory),
        Err(fault) => Err(Refusal::BadArgument(kind_of(fault))),
    }
}

fn kind_of(fault: ArgFault) -> ArgKind
    ensures { result ≡ kind_of fault }
{
    match fault {
        ArgFault::UnknownField | ArgFault::NoMemory => ArgKind::Field,
        ArgFault::TooWide => ArgKind::Wide,
        ArgFault::BadByte => ArgKind::Byte,
        ArgFault::Repeat => ArgKind::Repeat,
    }
}

fn place_of(objects: &[LockObject], name: &Name) -> Option<usize>
    ensures place { result ≡ position (is_object_called name.now) objects.now }
    ensures within { IfSome result (λ i. i < length objects.now) }
{
    objects
        .iter()
        .position(|object| is_object_called(object, name))
}

fn is_object_called(object: &LockObject, name: &Name) -> bool
    ensures { result ≡ is_object_called name.now object.now }
{
    object.name().is(name)
}

/// The values of a line with texts in place of variables.
fn field_values(
    alloc: Global,
    side: &Dialogue,
    values: &[RawValue],
) -> Result<Vec<FieldValue>, Refusal>
    ensures { IsGivenBy (λ (v : Vec FieldValueView). v.items) (field_values side.now.side.variables values.now) result }
{
    let mut all = Vec::new(alloc);
    let mut rest = values;
    'rest: while let Some((value, after)) = rest.split_first() {
        let given: Value = given_value(alloc, side, value.raw.as_slice())?;
        put_value(&mut all, value.field, given)?;
        rest = after;
    }
    Ok(all)
}

/// The value that bytes stand for, with texts in place of variables.
fn given_value(alloc: Global, side: &Dialogue, raw: &[u8]) -> Result<Value, Refusal>
    ensures { IsGivenBy (λ (v : ValueView). v) (given_value side.now.side.variables raw.now) result }
{
    let bytes = part_of(alloc, side, raw)?;
    Ok(value_of(bytes.bytes()))
}

fn put_value(values: &mut Vec<FieldValue>, field: Name, value: Value) -> Result<(), Refusal>
    ensures put { OnOk result (values.new.items ≡ values.old.items ++ record { field = field; value = value } ∷ []) }
    ensures refused { IfErr result (λ r. r ≡ Refusal.NoMemory) }
{
    match values.push(FieldValue { field, value }) {
        Ok(()) => Ok(()),
        Err(_) => Err(Refusal::NoMemory),
    }
}

/// An empty value is the initial one. One that is no short text is too long: each of its bytes is a text's.
fn value_of(raw: &[u8]) -> Value
    ensures { result ≡ value_of raw.now }
{
    if raw.is_empty() {
        return Value::Initial;
    }
    match Short::new(raw) {
        Some(text) => Value::Given(text),
        None => Value::Long,
    }
}

fn in_scope(alloc: Global, scope: Scope, asked: &[Asked]) -> Result<Vec<Request>, NoMemory>
    ensures { IfOk result (λ requests. requests.items ≡ map (request_in scope) asked.now) }
{
    let mut requests = Vec::new(alloc);
    for one in asked {
        requests.push(request_in(scope, one))?;
    }
    Ok(requests)
}

fn request_in(scope: Scope, asked: &Asked) -> Request
    ensures { result ≡ request_in scope asked.now }
{
    let (dialogue, update) = halves(scope);
    Request {
        asked: *asked,
        dialogue,
        update,
    }
}
