use enq_base::{Name, Reason, Status, UnitKey};

/// What is told of a recorded unit: its user and its status, how many effects its parts have, how many locks and
/// numbers it was recorded with, and the refusal that its last mark tells, the effect's number in its part from 1 on.
#[derive(Clone, Copy, Debug, PartialEq, Eq)]
pub struct UnitView {
    pub key: UnitKey,
    pub user: Name,
    pub status: Status,
    pub v1: u32,
    pub v2: u32,
    pub locks: u32,
    pub numbers: u32,
    pub error: Option<(u32, Reason)>,
}
