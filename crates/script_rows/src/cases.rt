use crate::links::Hands;
use enq_base::{Items, NoMemory};
use keeper_mem::Stop;
use std::alloc::Global;

/// A case: the line that is shown first, and what is done in turn, beginning with an empty store.
#[derive(Drop)]
pub(crate) struct Case {
    pub(crate) headline: Vec<u8>,
    pub(crate) steps: Vec<Step>,
}

#[derive(Drop)]
pub(crate) enum Step {
    /// Shows a line.
    Show(Vec<u8>),
    /// Puts a row into the store.
    Put(StoreRow),
    /// Gives the backup file these bytes.
    Fill(Vec<u8>),
    /// Leaves this many bytes of the backup file.
    Cut(u64),
    /// Puts a byte into the backup file, in the place of this offset.
    Patch(u64, u8),
    /// Leaves the backup file as a crash may leave it.
    Crash(Image),
    /// Starts the program.
    Start(Start),
    /// Shows the rows of the store, of one table or of all.
    Rows(Option<u8>),
    /// Shows the bytes of the backup file.
    Backup,
}

/// What a crash leaves of the backup file: its bytes after the last sync, or those that a read gives, or these with one
/// byte in each place that was written since the last sync.
#[derive(Clone, Copy)]
pub(crate) enum Image {
    Synced,
    Read,
    Ones,
    Opened,
}

#[derive(Drop)]
pub(crate) struct StoreRow {
    pub(crate) table: u8,
    pub(crate) key: Vec<u8>,
    pub(crate) value: Vec<u8>,
}

/// A start of the program: what it is given, which calls of its devices fail, and how many lines of its replies are
/// shown where not all are.
#[derive(Drop)]
pub(crate) struct Start {
    pub(crate) words: Vec<Items<u8>>,
    pub(crate) landscape: Vec<u8>,
    pub(crate) script: Vec<u8>,
    pub(crate) faults: PlannedFaults,
    pub(crate) last: Option<usize>,
}

/// The numbers of the calls that fail, device by device.
#[derive(Drop)]
pub(crate) struct PlannedFaults {
    pub(crate) landscape: Vec<u64>,
    pub(crate) script: Vec<u64>,
    pub(crate) sink: Vec<u64>,
    pub(crate) store: StoreFaults,
    pub(crate) backup: Vec<u64>,
    pub(crate) link: Vec<u64>,
    /// What the link hands over.
    pub(crate) hands: Hands,
}

#[derive(Drop)]
pub(crate) struct StoreFaults {
    pub(crate) fails: Vec<u64>,
    /// Those of them whose writing is there all the same.
    pub(crate) kept: Vec<u64>,
    /// The call from which on all fail; the lists then don't count.
    pub(crate) stop: Option<Stop>,
    /// What somebody else puts into the store once a commit has failed.
    pub(crate) foreign: Option<StoreRow>,
}

impl Start {
    /// A start with the word `replay`, and nothing else.
    pub(crate) fn new(alloc: Global) -> Result<Start, NoMemory> {
        Ok(Start {
            words: vec![in alloc; Items::from_vec(b"replay".to_vec(alloc)?)]?,
            landscape: Vec::new(alloc),
            script: Vec::new(alloc),
            faults: PlannedFaults::new(alloc),
            last: None,
        })
    }
}

impl PlannedFaults {
    pub(crate) fn new(alloc: Global) -> PlannedFaults {
        PlannedFaults {
            landscape: Vec::new(alloc),
            script: Vec::new(alloc),
            sink: Vec::new(alloc),
            store: StoreFaults {
                fails: Vec::new(alloc),
                kept: Vec::new(alloc),
                stop: None,
                foreign: None,
            },
            backup: Vec::new(alloc),
            link: Vec::new(alloc),
            hands: Hands::All,
        }
    }
}
