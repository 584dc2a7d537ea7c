use enq_base::{Items, Name, Num, Parts, Reason, UnitKey};
use lock_entry::Entry;

/// A recorded unit of work: its effects, the numbers that it drew and the locks that it holds until its V1 part ends.
#[derive(Drop)]
pub struct Unit {
    pub key: UnitKey,
    pub user: Name,
    pub numbers: Items<Num>,
    pub parts: Parts,
    pub entries: Items<Entry>,
}

/// What a mark says of its unit (Updates in the SAP System, V1 and V2 update modules).
#[derive(Drop)]
pub enum MarkKind {
    /// Numbers that were committed before the unit was recorded.
    Num(Items<Num>),
    /// The unit was recorded.
    Rec,
    /// Its V1 part was posted.
    V1,
    /// Its V1 part was refused at this effect, counted from 1.
    Bad1 { index: u32, reason: Reason },
    /// Its V1 part may be tried again.
    Again1,
    /// Its V2 part was posted.
    V2,
    /// Its V2 part was refused at this effect, counted from 1.
    Bad2 { index: u32, reason: Reason },
    /// Its V2 part may be tried again.
    Again2,
    /// It was cancelled.
    Gone,
}

/// A mark of a unit. Marks are numbered from 1.
#[derive(Drop)]
pub struct Mark {
    pub seq: u64,
    pub unit: UnitKey,
    pub kind: MarkKind,
}
