use enq_base::{Items, Name};

/// A field of a lock object, of 1 to 150 bytes.
#[derive(Clone, Copy, Debug, PartialEq, Eq)]
pub struct Field {
    pub name: Name,
    pub width: u8,
}

/// A table of a lock object, with its key fields in their order.
#[derive(Drop)]
pub struct KeyTable {
    pub name: Name,
    pub keys: Items<Name>,
}

/// Why fields and tables make no lock object. A number that 32 bits don't hold is given as the largest of them.
#[derive(Clone, Copy, Debug, PartialEq, Eq)]
pub enum ObjectFault {
    NoTable,
    /// There are this many tables, more than 8.
    TooManyTables(u32),
    /// The arguments of a table have this many bytes: none, or more than 255.
    TooLong(u32),
    /// A key that is no field.
    UnknownField(Name),
    /// A field, a table, or a key of one table that stands twice.
    Repeat(Name),
    NoMemory,
}
