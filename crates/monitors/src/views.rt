use enq_base::Condition;

/// What SM12 says of the lock server.
#[derive(Clone, Copy, Debug, PartialEq, Eq)]
pub struct ServerView {
    pub condition: Condition,
    /// Whether a replica is attached.
    pub attached: bool,
    /// The most entries that the lock table may have.
    pub limit: u32,
}

/// What the audit counts.
#[derive(Clone, Copy, Debug, PartialEq, Eq)]
pub(crate) struct Counts {
    pub(crate) units: usize,
    pub(crate) open: usize,
    pub(crate) posted: usize,
    pub(crate) bad: usize,
    pub(crate) closed: usize,
    pub(crate) bad2: usize,
    pub(crate) cancelled: usize,
    pub(crate) marks: u32,
    pub(crate) numbers: u64,
}
