ghost use Rattle.std.specs.Prelude.{◌≡◌, map};
ghost use Rattle.toml.specs.View.{view};
ghost use Rattle.landscape.specs.Broken.{Follows};
ghost use Rattle.landscape.specs.Objects.{each, field_of, key_table_of};
ghost use Rattle.landscape.specs.Tables.{name_in};

use crate::rule_fault::RuleFault;
use crate::tables::{integer_at, items_at, name_at, name_in, number_within};
use enq_base::{Items, Name};
use lock_objects::{Field, KeyTable};
use std::alloc::Global;
use toml::Value;

/// The fields of an object.
pub(crate) fn read_fields(alloc: Global, values: &[Value]) -> Result<Vec<Field>, RuleFault>
    ensures { Follows (λ v. v.items) 7 result (each field_of (map view values.now)) }
{
    let mut fields = Vec::new(alloc);
    for value in values {
        match read_field(value) {
            Some(field) => fields.push(field)?,
            None => return Err(RuleFault::Broken(7)),
        }
    }
    Ok(fields)
}

#[tactic(auto, unfolding(crate::specs::Objects::field_of))]
fn read_field(value: &Value) -> Option<Field>
    ensures { result ≡ field_of (view value.now) }
{
    let table = value.as_table()?;
    let name = name_at(table, "name")?;
    let width = number_within(1, 150, integer_at(table, "width")?)?;
    Some(Field {
        name,
        width: width as u8,
    })
}

/// The tables of an object.
pub(crate) fn read_key_tables(alloc: Global, values: &[Value]) -> Result<Vec<KeyTable>, RuleFault>
    ensures { Follows (λ v. v.items) 7 result (each key_table_of (map view values.now)) }
{
    let mut tables = Vec::new(alloc);
    for value in values {
        tables.push(read_key_table(alloc, value)?)?;
    }
    Ok(tables)
}

#[tactic(auto, unfolding(crate::specs::Objects::key_table_of))]
fn read_key_table(alloc: Global, value: &Value) -> Result<KeyTable, RuleFault>
    ensures { Follows (λ t. t) 7 result (key_table_of (view value.now)) }
{
    let table = value.as_table().ok_or(RuleFault::Broken(7))?;
    let name = name_at(table, "name").ok_or(RuleFault::Broken(7))?;
    let values = items_at(table, "keys").ok_or(RuleFault::Broken(7))?;
    let keys = read_names(alloc, values)?;
    Ok(KeyTable {
        name,
        keys: Items::from_vec(keys),
    })
}

fn read_names(alloc: Global, values: &[Value]) -> Result<Vec<Name>, RuleFault>
    ensures { Follows (λ v. v.items) 7 result (each name_in (map view values.now)) }
{
    let mut names = Vec::new(alloc);
    for value in values {
        match name_in(value) {
            Some(name) => names.push(name)?,
            None => return Err(RuleFault::Broken(7)),
        }
    }
    Ok(names)
}
