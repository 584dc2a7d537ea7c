use enq_base::Items;

/// The bytes of a key or of a value.
pub type Bytes = Items<u8>;

/// A row of a table.
#[derive(Drop)]
pub struct Row {
    pub key: Bytes,
    pub value: Bytes,
}

/// A change of one row: its value is put, whether it is there or not, or the row goes.
#[derive(Drop)]
pub enum Change {
    Put { table: u8, key: Bytes, value: Bytes },
    Del { table: u8, key: Bytes },
}
