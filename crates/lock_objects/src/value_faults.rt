ghost use Rattle.std.specs.Prelude.{◌≡◌};
ghost use Rattle.std.specs.List.{list_all, list_any};
ghost use Rattle.std.specs.Str.{bytes_eq};
ghost use Rattle.lock_entry.specs.Argument.{is_plain_byte};
ghost use Rattle.lock_objects.specs.Arguments as arguments;

use crate::field::Field;
use crate::names::{field_named, is_name};
use crate::value::{ArgFault, FieldValue, Value};
use enq_base::{Name, Short};

/// The fault of the first value that has one.
pub fn values_fault(fields: &[Field], values: &[FieldValue]) -> Option<ArgFault>
    ensures { result ≡ arguments.values_fault fields.now values.now }
{
    for i in 0..values.len() {
        let value = values[i];
        let fault = value_fault(fields, &values[..i], &value);
        if fault.is_some() {
            return fault;
        }
    }
    None
}

/// Why the value is refused, after those before it.
fn value_fault(fields: &[Field], before: &[FieldValue], value: &FieldValue) -> Option<ArgFault>
    ensures { result ≡ arguments.value_fault fields.now before.now value.now }
{
    match field_named(fields, &value.field) {
        None => Some(ArgFault::UnknownField),
        Some(field) => {
            if is_given(before, &value.field) {
                Some(ArgFault::Repeat)
            } else {
                text_fault(field.width, &value.value)
            }
        }
    }
}

/// Whether one of the values is of this field.
fn is_given(values: &[FieldValue], field: &Name) -> bool
    ensures { result ≡ list_any (λ v. bytes_eq v.field field.now) values.now }
{
    values.iter().any(|v| is_name(&v.field, field))
}

/// Why a value is none of a field of this width.
fn text_fault(width: u8, value: &Value) -> Option<ArgFault>
    ensures { result ≡ arguments.text_fault width value.now }
{
    match value {
        Value::Given(text) => given_fault(width, text),
        Value::Initial => None,
        Value::Long => Some(ArgFault::TooWide),
    }
}

fn given_fault(width: u8, text: &Short) -> Option<ArgFault>
    ensures { result ≡ arguments.given_fault width text.now }
{
    let bytes = text.bytes();
    if bytes.len() > width as usize {
        return Some(ArgFault::TooWide);
    }
    if are_plain(bytes) {
        None
    } else {
        Some(ArgFault::BadByte)
    }
}

fn are_plain(bytes: &[u8]) -> bool
    ensures { result ≡ list_all is_plain_byte bytes.now }
{
    bytes.iter().all(|b| is_plain_byte(*b))
}

fn is_plain_byte(byte: u8) -> bool
    ensures { result ≡ is_plain_byte byte }
{
    byte >= 0x20 && byte <= 0x7e && byte != b'@'
}
