use enq_base::Items;
use lock_objects::LockObject;
use number_ranges::Interval;

/// The lock objects and the number ranges of a system, in the order of the document, and the limits of its tables.
#[derive(Drop)]
pub struct Landscape {
    /// The most entries of the lock table.
    pub max_locks: u32,
    /// The most marks of the store.
    pub max_marks: u32,
    pub objects: Items<LockObject>,
    /// The level of each is one below its first number.
    pub ranges: Items<Interval>,
}
