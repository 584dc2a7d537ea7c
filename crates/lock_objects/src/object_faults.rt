ghost use Rattle.std.specs.Prelude.{◌≡◌, ◌≤◌, ◌&&◌, length, map, nat_le, option_map};
ghost use Rattle.std.specs.List.{list_any};
ghost use Rattle.std.specs.Str.{bytes_eq};
ghost use Rattle.lock_objects.specs.Objects as objects;
ghost use Rattle.lock_objects.specs.declared.field.ObjectFault.TheVariants as fault;

use crate::field::{Field, KeyTable, ObjectFault};
use crate::names::{field_named, first_unknown, is_name};
use enq_base::Name;

const MOST_TABLES: usize = 8;

const MOST_BYTES: u32 = 255;

/// Why fields and tables make no lock object.
pub fn object_fault(fields: &[Field], tables: &[KeyTable]) -> Option<ObjectFault>
    ensures { result ≡ objects.object_fault fields.now tables.now }
{
    let fault = tables_fault(tables);
    if fault.is_some() {
        return fault;
    }
    let fault = repeat_fault(fields, tables);
    if fault.is_some() {
        return fault;
    }
    let fault = unknown_fault(fields, tables);
    if fault.is_some() {
        return fault;
    }
    length_fault(fields, tables)
}

fn tables_fault(tables: &[KeyTable]) -> Option<ObjectFault>
    ensures { result ≡ objects.tables_fault tables.now }
{
    if tables.is_empty() {
        return Some(ObjectFault::NoTable);
    }
    if tables.len() > MOST_TABLES {
        return Some(ObjectFault::TooManyTables(in_32_bits(tables.len())));
    }
    None
}

fn in_32_bits(n: usize) -> u32
    ensures { result ≡ objects.in_32_bits n }
{
    n.min(u32::MAX as usize) as u32
}

/// A name that stands twice where it may stand once.
fn repeat_fault(fields: &[Field], tables: &[KeyTable]) -> Option<ObjectFault>
    ensures { result ≡ objects.repeat_fault fields.now tables.now }
{
    match first_repeat(fields, tables) {
        Some(name) => Some(ObjectFault::Repeat(name)),
        None => None,
    }
}

fn first_repeat(fields: &[Field], tables: &[KeyTable]) -> Option<Name>
    ensures { option_map fault.Repeat result ≡ objects.repeat_fault fields.now tables.now }
{
    let name = repeated_field(fields);
    if name.is_some() {
        return name;
    }
    let name = repeated_table(tables);
    if name.is_some() {
        return name;
    }
    repeated_in_a_table(tables)
}

fn repeated_field(fields: &[Field]) -> Option<Name>
    ensures { result ≡ objects.first_repeat (map (λ f. f.name) fields.now) }
{
    for i in 0..fields.len() {
        let name = fields[i].name;
        if is_field(&fields[..i], &name) {
            return Some(name);
        }
    }
    None
}

fn is_field(fields: &[Field], name: &Name) -> bool
    ensures { result ≡ list_any (λ f. bytes_eq name.now f.name) fields.now }
{
    fields.iter().any(|f| is_name(name, &f.name))
}

fn repeated_table(tables: &[KeyTable]) -> Option<Name>
    ensures { result ≡ objects.first_repeat (map (λ t. t.name) tables.now) }
{
    for i in 0..tables.len() {
        let name = tables[i].name;
        if is_table(&tables[..i], &name) {
            return Some(name);
        }
    }
    None
}

fn is_table(tables: &[KeyTable], name: &Name) -> bool
    ensures { result ≡ list_any (λ t. bytes_eq name.now t.name) tables.now }
{
    tables.iter().any(|t| is_name(name, &t.name))
}

/// The first key that stands twice in one table.
fn repeated_in_a_table(tables: &[KeyTable]) -> Option<Name>
    ensures { result ≡ objects.first_some (λ t. objects.first_repeat t.keys) tables.now }
{
    for table in tables {
        let name = repeated_key(table.keys.as_slice());
        if name.is_some() {
            return name;
        }
    }
    None
}

fn repeated_key(keys: &[Name]) -> Option<Name>
    ensures { result ≡ objects.first_repeat keys.now }
{
    for i in 0..keys.len() {
        let name = keys[i];
        if is_key(&keys[..i], &name) {
            return Some(name);
        }
    }
    None
}

fn is_key(keys: &[Name], name: &Name) -> bool
    ensures { result ≡ list_any (bytes_eq name.now) keys.now }
{
    keys.iter().any(|k| is_name(name, k))
}

fn unknown_fault(fields: &[Field], tables: &[KeyTable]) -> Option<ObjectFault>
    ensures { result ≡ option_map fault.UnknownField
        (objects.first_some (λ t. objects.first_unknown fields.now t.keys) tables.now) }
{
    match unknown_key(fields, tables) {
        Some(name) => Some(ObjectFault::UnknownField(name)),
        None => None,
    }
}

/// The first key that is no field.
fn unknown_key(fields: &[Field], tables: &[KeyTable]) -> Option<Name>
    ensures { result ≡ objects.first_some (λ t. objects.first_unknown fields.now t.keys) tables.now }
{
    for table in tables {
        let name = first_unknown(fields, table.keys.as_slice());
        if name.is_some() {
            return name;
        }
    }
    None
}

fn length_fault(fields: &[Field], tables: &[KeyTable]) -> Option<ObjectFault>
    ensures { result ≡ option_map fault.TooLong
        (objects.first_some (λ t. objects.wrong_length (objects.argument_length fields.now t.keys)) tables.now) }
{
    match wrong_length(fields, tables) {
        Some(bytes) => Some(ObjectFault::TooLong(bytes)),
        None => None,
    }
}

/// The length of the arguments of the first table where it isn't 1 to 255.
fn wrong_length(fields: &[Field], tables: &[KeyTable]) -> Option<u32>
    ensures { result ≡ objects.first_some
        (λ t. objects.wrong_length (objects.argument_length fields.now t.keys)) tables.now }
{
    for table in tables {
        let bytes = wrong_length_of(fields, table.keys.as_slice());
        if bytes.is_some() {
            return bytes;
        }
    }
    None
}

fn wrong_length_of(fields: &[Field], keys: &[Name]) -> Option<u32>
    ensures { result ≡ objects.wrong_length (objects.argument_length fields.now keys.now) }
{
    let bytes = argument_length(fields, keys);
    if 1 <= bytes && bytes <= MOST_BYTES {
        None
    } else {
        Some(bytes)
    }
}

/// How many bytes the arguments of a table with these keys have, as far as 32 bits count.
fn argument_length(fields: &[Field], keys: &[Name]) -> u32
    ensures { result ≡ objects.in_32_bits (objects.argument_length fields.now keys.now) }
{
    let mut bytes = 0u32;
    for key in keys {
        bytes = bytes.saturating_add(width_of(fields, key));
    }
    bytes
}

fn width_of(fields: &[Field], key: &Name) -> u32
    ensures { result ≡ objects.key_width fields.now key.now }
{
    match field_named(fields, key) {
        Some(field) => field.width as u32,
        None => 0,
    }
}
