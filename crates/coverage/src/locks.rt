ghost use Rattle.std.specs.Prelude.{◌≡◌, ◌<◌, ◌≤◌, ◌+◌, ◌-◌, ◌&&◌, ◌++◌, ◌∷◌, [], length, map, nat_eq, nat_le, replicate, IfOk, IfSome, OnOk};
ghost use Rattle.std.specs.List.{list_all, list_any, position, zip};
ghost use Rattle.std.specs.Str.{bytes_eq};
ghost use Rattle.lock_entry.specs.Argument.{byte_fits, fits, generic};
ghost use Rattle.lock_entry.specs.Freeing.{replace_first};
ghost use Rattle.lock_entry.specs.Names.{same_asked};
ghost use Rattle.coverage.specs.declared.lack.Wish.{Wish};
ghost use Rattle.coverage.specs.Lacks.{without};
ghost use Rattle.coverage.specs.Locks as locks;
ghost use Rattle.coverage.specs.Tallies.{covering};
ghost use Rattle.owner_scope.specs.Halves.{names_update};

use crate::values::{any_dollar, object_named};
use enq_base::{Name, NoMemory, Scope, Short};
use lock_entry::{Asked, Mode};
use lock_objects::{ArgFault, FieldValue, LockObject, Value};
use owner_scope::halves;
use script_lang::RawValue;
use std::alloc::Global;

/// An empty value is the initial one.
fn value_in(raw: &[u8]) -> Value
    ensures { result ≡ locks.value_in raw.now }
{
    if raw.is_empty() {
        return Value::Initial;
    }
    match Short::new(raw) {
        Some(text) => Value::Given(text),
        None => Value::Long,
    }
}

fn field_values(alloc: Global, values: &[RawValue]) -> Result<Vec<FieldValue>, NoMemory>
    ensures { IfOk result (λ v. v.items ≡ map locks.field_value values.now) }
{
    let mut all = Vec::new(alloc);
    for value in values {
        let given: Value = value_in(value.raw.as_slice());
        put_value(&mut all, value.field, given)?;
    }
    Ok(all)
}

fn put_value(values: &mut Vec<FieldValue>, field: Name, value: Value) -> Result<(), NoMemory>
    ensures { OnOk result (values.new.items ≡ values.old.items ++ record { field = field; value = value } ∷ []) }
{
    values.push(FieldValue { field, value })?;
    Ok(())
}

fn locks_at(
    alloc: Global,
    object: &LockObject,
    values: &[FieldValue],
    mode: Mode,
) -> Result<Vec<Asked>, NoMemory>
    ensures { IfOk result (λ v. v.items ≡ locks.locks_at mode values.now object.now) }
{
    match object.arguments(alloc, values, mode) {
        Ok(asked) => Ok(asked),
        Err(ArgFault::NoMemory) => Err(NoMemory),
        Err(_) => Ok(Vec::new(alloc)),
    }
}

fn named_locks(
    alloc: Global,
    objects: &[LockObject],
    object: &Name,
    mode: Mode,
    values: &[RawValue],
) -> Result<Vec<Asked>, NoMemory>
    ensures { IfOk result (λ v. v.items ≡ locks.named_locks objects.now object.now mode values.now) }
{
    let values = field_values(alloc, values)?;
    match object_named(objects, object) {
        Some(object) => locks_at(alloc, object, values.as_slice(), mode),
        None => Ok(Vec::new(alloc)),
    }
}

/// The locks of the unit's owner that a line names.
pub(crate) fn unit_locks(
    alloc: Global,
    objects: &[LockObject],
    object: &Name,
    mode: Mode,
    scope: Scope,
    values: &[RawValue],
) -> Result<Vec<Asked>, NoMemory>
    ensures { IfOk result (λ v. v.items ≡ locks.unit_locks objects.now object.now mode scope values.now) }
{
    if names_unit(scope) && !any_dollar(values) {
        named_locks(alloc, objects, object, mode, values)
    } else {
        Ok(Vec::new(alloc))
    }
}

fn names_unit(scope: Scope) -> bool
    ensures { result ≡ names_update scope }
{
    halves(scope).1
}

fn is_exclusive(mode: Mode) -> bool
    ensures { result ≡ locks.is_exclusive mode }
{
    match mode {
        Mode::S | Mode::O => false,
        Mode::E | Mode::X => true,
    }
}

/// Of these the exclusive ones.
pub(crate) fn covering_locks(
    alloc: Global,
    objects: &[LockObject],
    object: &Name,
    mode: Mode,
    scope: Scope,
    values: &[RawValue],
) -> Result<Vec<Asked>, NoMemory>
    ensures { IfOk result (λ v. v.items ≡ locks.covering_locks objects.now object.now mode scope values.now) }
{
    if is_exclusive(mode) {
        unit_locks(alloc, objects, object, mode, scope, values)
    } else {
        Ok(Vec::new(alloc))
    }
}

/// Takes away one lock for each that is named, where it is held, and gives back those that were.
pub(crate) fn take_away(
    alloc: Global,
    held: &mut Vec<Asked>,
    named: &[Asked],
) -> Result<Vec<Asked>, NoMemory>
    ensures left { OnOk result (held.new.items ≡ without held.old.items named.now) }
    ensures freed { IfOk result (λ freed. (w : Wish)
        → covering w held.old.items ≡ covering w held.new.items + covering w freed.items) }
{
    let mut freed = Vec::new(alloc);
    for asked in named {
        take_one(held, &mut freed, asked)?;
    }
    Ok(freed)
}

fn take_one(held: &mut Vec<Asked>, freed: &mut Vec<Asked>, asked: &Asked) -> Result<(), NoMemory>
    ensures left { OnOk result (held.new.items ≡ replace_first (same_asked asked.now) (λ b. []) held.old.items) }
    ensures freed { OnOk result ((w : Wish) → covering w held.new.items + covering w freed.new.items
        ≡ covering w held.old.items + covering w freed.old.items) }
{
    if let Some(place) = place_of(held.as_slice(), asked) {
        freed.push(held.remove(place))?;
    }
    Ok(())
}

fn place_of(held: &[Asked], asked: &Asked) -> Option<usize>
    ensures place { result ≡ position (same_asked asked.now) held.now }
    ensures within { IfSome result (λ i. i < length held.now) }
{
    held.iter().position(|a| is_asked(asked, a))
}

fn is_asked(a: &Asked, b: &Asked) -> bool
    ensures { result ≡ same_asked a.now b.now }
{
    a.same_place(b) && a.mode.is(b.mode)
}

/// Whether the lock covers the row.
pub(crate) fn is_cover(table: &Name, key: &[u8], lock: &Asked) -> bool
    ensures { result ≡ locks.covers table.now key.now lock.now }
{
    is_table(&lock.table, table) && !has_generic(key) && fits_padded(key, lock.pattern.bytes())
}

pub(crate) fn is_table(a: &Name, b: &Name) -> bool
    ensures { result ≡ bytes_eq a.now b.now }
{
    a.is(b)
}

fn has_generic(key: &[u8]) -> bool
    ensures { result ≡ list_any (λ b. nat_eq b generic) key.now }
{
    key.iter().any(|b| *b == b'@')
}

/// Whether the key fits with spaces behind it.
fn fits_padded(key: &[u8], argument: &[u8]) -> bool
    ensures { result ≡ (nat_le (length key.now) (length argument.now)
        && fits (key.now ++ replicate (length argument.now - length key.now) 32) argument.now) }
{
    if key.len() > argument.len() {
        return false;
    }
    fits_longer(key, argument)
}

fn fits_longer(key: &[u8], argument: &[u8]) -> bool
    requires { length key.now ≤ length argument.now }
    ensures { result ≡ fits (key.now ++ replicate (length argument.now - length key.now) 32) argument.now }
{
    let (front, rest) = argument.split_at(key.len());
    fits_front(key, front) && fits_spaces(rest)
}

fn fits_front(key: &[u8], argument: &[u8]) -> bool
    ensures { result ≡ list_all (λ q. byte_fits q.0 q.1) (zip key.now argument.now) }
{
    key.iter().zip(argument).all(|(k, p)| byte_fits(*k, *p))
}

fn fits_spaces(argument: &[u8]) -> bool
    ensures { result ≡ list_all (byte_fits 32) argument.now }
{
    argument.iter().all(|p| byte_fits(b' ', *p))
}

fn byte_fits(k: u8, p: u8) -> bool
    ensures { result ≡ byte_fits k p }
{
    p == b'@' || p == k
}
