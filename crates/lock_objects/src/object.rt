ghost use Rattle.std.specs.Prelude.{◌≡◌, None, Some, IsTrue, IfOk, IfErr, OnOk, map};
ghost use Rattle.std.specs.List.{list_all};
ghost use Rattle.enq_base.specs.Grammar.{is_pattern};
ghost use Rattle.lock_objects.specs.Objects.{has_width, object_fault};
ghost use Rattle.lock_objects.specs.Arguments as arguments;

use crate::argument::argument;
use crate::field::{Field, KeyTable, ObjectFault};
use crate::object_faults::object_fault;
use crate::value::{ArgFault, FieldValue};
use crate::value_faults::values_fault;
use enq_base::{Name, NoMemory, Pattern};
use lock_entry::Asked;
use mode_rules::Mode;
use std::alloc::Global;
use std::marker::Model;

/// A lock object (The SAP Lock Concept): fields of 1 to 150 bytes, and 1 to 8 tables whose keys are among the fields
/// and have 1 to 255 bytes together.
#[derive(Drop)]
pub struct LockObject {
    name: Name,
    fields: Vec<Field>,
    tables: Vec<KeyTable>,
}

impl Model for LockObject {
    ghost use Rattle.lock_objects.specs.Objects.{Object, IsObject};

    ghost Value = { Object };

    ghost view = { λ o. record { name = o.name; fields = o.fields.items; tables = o.tables.items } };

    ghost invariant = { λ o. IsObject o.fields.items o.tables.items };
}

impl LockObject {
    /// The object of these fields and tables. It takes no memory, and is never refused for want of it.
    pub fn new(
        name: Name,
        fields: Vec<Field>,
        tables: Vec<KeyTable>,
    ) -> Result<LockObject, ObjectFault>
        requires { IsTrue (list_all has_width fields.items) }
        ensures object { IfOk result (λ o. o ≡ record { name = name; fields = fields.items; tables = tables.items }) }
        ensures right { OnOk result (object_fault fields.items tables.items ≡ None) }
        ensures refused { IfErr result (λ f. object_fault fields.items tables.items ≡ Some f) }
    {
        match object_fault(fields.as_slice(), tables.as_slice()) {
            Some(fault) => Err(fault),
            None => Ok(LockObject {
                name,
                fields,
                tables,
            }),
        }
    }

    pub fn name(&self) -> Name
        ensures { result ≡ self.now.name }
    {
        self.name
    }

    pub fn fields(&self) -> &[Field]
        ensures { result.now ≡ self.now.fields }
    {
        self.fields.as_slice()
    }

    pub fn tables(&self) -> &[KeyTable]
        ensures { result.now ≡ self.now.tables }
    {
        self.tables.as_slice()
    }

    /// The lock argument of each table. A field without a value is generic; the values are tested in order, each for
    /// UnknownField, Repeat, TooWide and BadByte.
    pub fn arguments(
        &self,
        alloc: Global,
        values: &[FieldValue],
        mode: Mode,
    ) -> Result<Vec<Asked>, ArgFault>
        ensures arguments { IfOk result (λ v. v.items ≡ arguments.arguments self.now values.now mode) }
        ensures right { OnOk result (arguments.values_fault self.now.fields values.now ≡ None) }
        ensures refused { IfErr result (arguments.IsArgFault (arguments.values_fault self.now.fields values.now)) }
    {
        let fields = self.fields.as_slice();
        let tables = self.tables.as_slice();
        match values_fault(fields, values) {
            Some(fault) => return Err(fault),
            None => {}
        }
        Ok(asked_in_all(alloc, fields, values, tables, mode)?)
    }
}

/// What is asked for in each table.
fn asked_in_all(
    alloc: Global,
    fields: &[Field],
    values: &[FieldValue],
    tables: &[KeyTable],
    mode: Mode,
) -> Result<Vec<Asked>, NoMemory>
    requires { IsTrue (list_all (λ t. is_pattern (arguments.argument fields.now values.now t.keys)) tables.now) }
    ensures { IfOk result (λ v. v.items ≡ map (arguments.asked_of fields.now values.now mode) tables.now) }
{
    let mut all = Vec::new(alloc);
    for table in tables {
        all.push(asked_in(alloc, fields, values, table, mode)?)?;
    }
    Ok(all)
}

/// What is asked for in one table.
fn asked_in(
    alloc: Global,
    fields: &[Field],
    values: &[FieldValue],
    table: &KeyTable,
    mode: Mode,
) -> Result<Asked, NoMemory>
    requires { IsTrue (is_pattern (arguments.argument fields.now values.now table.now.keys)) }
    ensures { IfOk result (λ a. a ≡ arguments.asked_of fields.now values.now mode table.now) }
{
    let bytes = argument(alloc, fields, values, table.keys.as_slice())?;
    Ok(Asked {
        table: table.name,
        pattern: Pattern::new(bytes.as_slice()).unwrap(),
        mode,
    })
}
