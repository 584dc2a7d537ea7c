ghost use Rattle.std.specs.Prelude.{◌≤◌, IsTrue, IfOk};
ghost use Rattle.std.specs.List.{list_all};
ghost use Rattle.lock_objects.specs.Objects.{has_width};

use enq_base::{Items, Name, Pattern, Short, read_name};
use lock_entry::Asked;
use lock_objects::{Field, FieldValue, KeyTable, LockObject, ObjectFault, Value};
use mode_rules::Mode;
use std::alloc::Global;
use std::test::*;

fn name(text: &[u8]) -> Result<Name, Fail> {
    Ok(read_name(text).ok_or("a name")?)
}

/// The fields F of two bytes and G of one.
fn two_fields(alloc: Global) -> Result<Vec<Field>, Fail>
    ensures { IfOk result (λ v. IsTrue (list_all has_width v.items)) }
{
    let fields = [
        Field {
            name: name(b"F")?,
            width: 2,
        },
        Field {
            name: name(b"G")?,
            width: 1,
        },
    ];
    Ok(Vec::from_slice(alloc, &fields)?)
}

fn keys_of(alloc: Global, keys: &str) -> Result<Vec<Name>, Fail> {
    let mut list = Vec::new(alloc);
    for key in keys.split_whitespace() {
        list.push(name(key.as_bytes())?)?;
    }
    Ok(list)
}

/// A table with the keys that the text names.
fn push_table(
    tables: &mut Vec<KeyTable>,
    alloc: Global,
    table: &str,
    keys: &str,
) -> Result<(), Fail> {
    let name = name(table.as_bytes())?;
    let keys = Items::from_vec(keys_of(alloc, keys)?);
    tables.push(KeyTable { name, keys })?;
    Ok(())
}

fn given(field: &[u8], text: &[u8]) -> Result<FieldValue, Fail> {
    Ok(FieldValue {
        field: name(field)?,
        value: Value::Given(Short::new(text).ok_or("a value")?),
    })
}

fn asked(table: &[u8], argument: &[u8]) -> Result<Asked, Fail> {
    Ok(Asked {
        table: name(table)?,
        pattern: Pattern::new(argument).ok_or("an argument")?,
        mode: Mode::E,
    })
}

/// A table ZWIDE with both keys, and a table ZNARROW with one.
fn two_tables(alloc: Global) -> Result<Vec<KeyTable>, Fail> {
    let mut tables = Vec::new(alloc);
    push_table(&mut tables, alloc, "ZWIDE", "F G")?;
    push_table(&mut tables, alloc, "ZNARROW", "G")?;
    Ok(tables)
}

fn object(alloc: Global) -> Result<LockObject, Fail> {
    let name = name(b"EOBJ")?;
    let tables = two_tables(alloc)?;
    let fields = two_fields(alloc)?;
    Ok(LockObject::new(name, fields, tables).map_err(|_| "an object")?)
}

/// Whether the object asks for these locks where the values are given.
fn asks(
    alloc: Global,
    object: &LockObject,
    values: &[FieldValue],
    wanted: &[Asked],
) -> Result<bool, Fail> {
    let list = object
        .arguments(alloc, values, Mode::E)
        .map_err(|_| "arguments")?;
    Ok(list.as_slice() == wanted)
}

fn has_parts(object: &LockObject, name: &[u8], fields: usize, tables: usize) -> bool {
    object.name().bytes() == name
        && object.fields().len() == fields
        && object.tables().len() == tables
}

fn is_object(alloc: Global, values: &[FieldValue], wanted: &[Asked]) -> Result<bool, Fail> {
    let object = object(alloc)?;
    Ok(asks(alloc, &object, values, wanted)? && has_parts(&object, b"EOBJ", 2, 2))
}

#[test]
fn each_table_has_its_own_argument(rt: HostRuntime) -> Result<(), Fail> {
    let values = [given(b"F", b"AB")?];
    let wanted = [asked(b"ZWIDE", b"AB@")?, asked(b"ZNARROW", b"@")?];
    assert!(rt; is_object(rt.alloc(), &values, &wanted)?);
    Ok(())
}

/// Tables, each as its name and then its keys.
fn tables_of(alloc: Global, texts: &str) -> Result<Vec<KeyTable>, Fail> {
    let mut tables = Vec::new(alloc);
    for text in texts.split(',') {
        match text.split_once(':') {
            Some((table, keys)) => push_table(&mut tables, alloc, table, keys)?,
            None => {}
        }
    }
    Ok(tables)
}

/// What becomes of these fields and tables.
fn made_of(
    alloc: Global,
    fields: Vec<Field>,
    texts: &str,
) -> Result<Result<Name, ObjectFault>, Fail>
    requires { IsTrue (list_all has_width fields.items) }
{
    let name = name(b"EOBJ")?;
    let tables = tables_of(alloc, texts)?;
    Ok(LockObject::new(name, fields, tables).map(|o| o.name()))
}

fn is_made(alloc: Global, texts: &str, wanted: Result<Name, ObjectFault>) -> Result<bool, Fail> {
    let fields = two_fields(alloc)?;
    Ok(made_of(alloc, fields, texts)? == wanted)
}

const NINE_TABLES: &str = "A:F,B:F,C:F,D:F,E:F,H:F,I:F,J:F,K:F";

#[test]
fn an_object_is_refused_for_its_first_fault(rt: HostRuntime) -> Result<(), Fail> {
    let alloc = rt.alloc();
    let repeated = ObjectFault::Repeat(name(b"T")?);
    let repeated_key = ObjectFault::Repeat(name(b"F")?);
    let unknown = ObjectFault::UnknownField(name(b"H")?);
    let object = name(b"EOBJ")?;
    assert!(rt; is_made(alloc, "", Err(ObjectFault::NoTable))?);
    assert!(rt; is_made(alloc, NINE_TABLES, Err(ObjectFault::TooManyTables(9)))?);
    assert!(rt; is_made(alloc, "T:F,T:H", Err(repeated))?);
    assert!(rt; is_made(alloc, "S:H,T:F F", Err(repeated_key))?);
    assert!(rt; is_made(alloc, "S:,T:F H", Err(unknown))?);
    assert!(rt; is_made(alloc, "S:F,T:", Err(ObjectFault::TooLong(0)))?);
    assert!(rt; is_made(alloc, "S:F,T:G F", Ok(object))?);
    Ok(())
}

/// The fields F of 150 bytes and G of these many.
fn a_long_field_and_another(alloc: Global, width: u8) -> Result<Vec<Field>, Fail>
    requires least { 1 ≤ width }
    requires most { width ≤ 150 }
    ensures { IfOk result (λ v. IsTrue (list_all has_width v.items)) }
{
    let fields = [
        Field {
            name: name(b"F")?,
            width: 150,
        },
        Field {
            name: name(b"G")?,
            width,
        },
    ];
    Ok(Vec::from_slice(alloc, &fields)?)
}

fn is_long(alloc: Global, width: u8, wanted: Result<Name, ObjectFault>) -> Result<bool, Fail>
    requires least { 1 ≤ width }
    requires most { width ≤ 150 }
{
    let fields = a_long_field_and_another(alloc, width)?;
    Ok(made_of(alloc, fields, "T:F G")? == wanted)
}

#[test]
fn an_argument_has_at_most_255_bytes(rt: HostRuntime) -> Result<(), Fail> {
    let object = name(b"EOBJ")?;
    assert!(rt; is_long(rt.alloc(), 106, Err(ObjectFault::TooLong(256)))?);
    assert!(rt; is_long(rt.alloc(), 105, Ok(object))?);
    Ok(())
}
