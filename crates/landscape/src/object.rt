ghost use Rattle.std.specs.Prelude.{◌≡◌, map};
ghost use Rattle.std.specs.List.{list_any};
ghost use Rattle.toml.specs.View.{view};
ghost use Rattle.landscape.specs.Broken.{Follows, Gives, GivesRule};
ghost use Rattle.landscape.specs.Objects.{has_name, object_of, objects_of, read_object};
ghost use Rattle.landscape.specs.Seen.{seen_parts};

use crate::land_fault::{LandFault, bad_place};
use crate::parts::{read_fields, read_key_tables};
use crate::rule_fault::RuleFault;
use crate::shape::is_object;
use crate::tables::{items_at, name_at};
use enq_base::Name;
use lock_objects::{Field, KeyTable, LockObject, ObjectFault};
use std::alloc::Global;
use toml::Value;

/// The objects of a document, in its order.
pub(crate) fn read_objects(alloc: Global, values: &[Value]) -> Result<Vec<LockObject>, LandFault>
    ensures { Gives (λ v. v.items) result (objects_of (map view values.now)) }
{
    let mut objects = Vec::new(alloc);
    for value in values {
        match read_object(alloc, objects.as_slice(), value) {
            Ok(object) => objects.push(object)?,
            Err(RuleFault::Broken(rule)) => return Err(bad_place(rule, objects.len())),
            Err(RuleFault::NoMemory) => return Err(LandFault::NoMemory),
        }
    }
    Ok(objects)
}

/// The object behind the earlier ones, or the first rule that it breaks.
#[tactic(auto, unfolding(crate::specs::Objects::read_object))]
fn read_object(
    alloc: Global,
    earlier: &[LockObject],
    value: &Value,
) -> Result<LockObject, RuleFault>
    ensures { GivesRule (λ o. o) result (read_object earlier.now (view value.now)) }
{
    if !is_object(value) {
        return Err(RuleFault::Broken(6));
    }
    let Parts {
        name,
        fields,
        tables,
    } = read_parts(alloc, value)?;
    let object = match LockObject::new(name, fields, tables) {
        Ok(object) => object,
        Err(ObjectFault::NoMemory) => return Err(RuleFault::NoMemory),
        Err(_) => return Err(RuleFault::Broken(8)),
    };
    if is_taken(earlier, &name) {
        return Err(RuleFault::Broken(9));
    }
    Ok(object)
}

/// What an object is made of.
#[derive(Drop)]
struct Parts {
    name: Name,
    fields: Vec<Field>,
    tables: Vec<KeyTable>,
}

#[tactic(auto, unfolding(crate::specs::Objects::object_of))]
fn read_parts(alloc: Global, value: &Value) -> Result<Parts, RuleFault>
    ensures { Follows seen_parts 7 result (object_of (view value.now)) }
{
    let table = value.as_table().ok_or(RuleFault::Broken(7))?;
    let name = name_at(table, "name").ok_or(RuleFault::Broken(7))?;
    let fields = items_at(table, "fields").ok_or(RuleFault::Broken(7))?;
    let fields = read_fields(alloc, fields)?;
    let tables = items_at(table, "table").ok_or(RuleFault::Broken(7))?;
    let tables = read_key_tables(alloc, tables)?;
    Ok(Parts {
        name,
        fields,
        tables,
    })
}

fn is_taken(earlier: &[LockObject], name: &Name) -> bool
    ensures { result ≡ list_any (has_name name.now) earlier.now }
{
    earlier.iter().any(|object| has_name(object, name))
}

fn has_name(object: &LockObject, name: &Name) -> bool
    ensures { result ≡ has_name name.now object.now }
{
    object.name().is(name)
}
