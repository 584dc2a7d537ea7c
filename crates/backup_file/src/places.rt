/// One of the two slots.
#[derive(Clone, Copy, Debug, PartialEq, Eq)]
pub enum Which {
    One,
    Two,
}

/// A slot names a log: the bytes of its gate, its generation, and where the log starts.
#[derive(Clone, Copy, Debug)]
pub struct Slot {
    pub gate: u8,
    pub generation: u64,
    pub start: u64,
}

#[derive(Clone, Copy, Debug)]
pub struct Slots {
    pub one: Slot,
    pub two: Slot,
}

/// Where the slots' own gate stands, what they are, and which one is in force.
#[derive(Clone, Copy, Debug)]
pub struct Place {
    pub gate: u64,
    pub slots: Slots,
    pub which: Which,
}
