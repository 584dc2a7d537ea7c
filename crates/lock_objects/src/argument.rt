ghost use Rattle.std.specs.Prelude.{◌≡◌, ◌<◌, ◌++◌, length, replicate, IfOk, IfSome, OnOk};
ghost use Rattle.std.specs.List.{position};
ghost use Rattle.std.specs.Str.{bytes_eq};
ghost use Rattle.lock_objects.specs.Arguments as arguments;

use crate::field::Field;
use crate::names::{field_named, is_name};
use crate::value::{FieldValue, Value};
use enq_base::Name;
use std::alloc::{AllocError, Global};

/// The parts of the key fields, one after the other.
pub fn argument(
    alloc: Global,
    fields: &[Field],
    values: &[FieldValue],
    keys: &[Name],
) -> Result<Vec<u8>, AllocError>
    ensures { IfOk result (λ v. v.items ≡ arguments.argument fields.now values.now keys.now) }
{
    let mut argument = Vec::new(alloc);
    for key in keys {
        push_key(&mut argument, fields, values, key)?;
    }
    Ok(argument)
}

fn push_key(
    argument: &mut Vec<u8>,
    fields: &[Field],
    values: &[FieldValue],
    key: &Name,
) -> Result<(), AllocError>
    ensures { OnOk result
        (argument.new.items ≡ argument.old.items ++ arguments.key_part fields.now values.now key.now) }
{
    match field_named(fields, key) {
        Some(field) => push_part(argument, values, &field),
        None => Ok(()),
    }
}

/// Appends what the field gives.
fn push_part(argument: &mut Vec<u8>, values: &[FieldValue], field: &Field) -> Result<(), AllocError>
    ensures { OnOk result (argument.new.items ≡ argument.old.items ++ arguments.part values.now field.now) }
{
    match value_named(values, &field.name) {
        Some(value) => push_padded(argument, field.width, &value.value),
        None => push_many(argument, field.width as usize, b'@'),
    }
}

fn value_named(values: &[FieldValue], name: &Name) -> Option<FieldValue>
    ensures { result ≡ arguments.value_named values.now name.now }
{
    match place_of_value(values, name) {
        Some(place) => Some(values[place]),
        None => None,
    }
}

fn place_of_value(values: &[FieldValue], name: &Name) -> Option<usize>
    ensures place { result ≡ position (λ v. bytes_eq v.field name.now) values.now }
    ensures within { IfSome result (λ i. i < length values.now) }
{
    values.iter().position(|v| is_name(&v.field, name))
}

/// Appends the value, with spaces behind it up to the width.
fn push_padded(argument: &mut Vec<u8>, width: u8, value: &Value) -> Result<(), AllocError>
    ensures { OnOk result (argument.new.items ≡ argument.old.items ++ arguments.padded width value.now) }
{
    match value {
        Value::Given(text) => {
            let bytes = text.bytes();
            argument.extend_from_slice(bytes)?;
            push_many(argument, (width as usize).saturating_sub(bytes.len()), b' ')
        }
        Value::Initial => push_many(argument, width as usize, b' '),
        Value::Long => Ok(()),
    }
}

/// Appends the byte so many times.
fn push_many(argument: &mut Vec<u8>, count: usize, byte: u8) -> Result<(), AllocError>
    ensures { OnOk result (argument.new.items ≡ argument.old.items ++ replicate count byte) }
{
    for _ in 0..count {
        argument.push(byte)?;
    }
    Ok(())
}
