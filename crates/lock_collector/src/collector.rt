ghost use Rattle.std.specs.Prelude.{◌≡◌, ◌⊎◌, ◌<◌, ◌≤◌, ◌+◌, ◌++◌, ◌↔◌, [], length, IfErr, OnOk, OnErr, IsErrOf};

use lock_entry::Request;
use std::alloc::{AllocError, Global};
use std::marker::Model;

const MOST: usize = 64;

/// Why requests aren't collected.
#[derive(Clone, Copy, Debug, PartialEq, Eq)]
pub enum CollectFault {
    /// The container would hold more than this many.
    Full(u32),
    NoMemory,
}

impl From<AllocError> for CollectFault {
    ghost use Rattle.std.specs.Prelude.{◌≡◌};
    ghost use Rattle.lock_collector.specs.declared.collector.CollectFault.{CollectFault};

    ghost from_gives = { λ _ f. f ≡ CollectFault.NoMemory };

    fn from(_error: AllocError) -> CollectFault {
        CollectFault::NoMemory
    }
}

/// The requests that were collected, in order (The SAP Lock Concept, lock container and `_COLLECT`): at most 64.
#[derive(Drop)]
pub struct Collector {
    requests: Vec<Request>,
}

impl Model for Collector {
    ghost use Rattle.std.specs.Prelude.{◌≤◌, List, length};
    ghost use Rattle.lock_entry.specs.declared.entry.Request.{Request};

    ghost Value = { List Request };

    ghost view = { λ c. c.requests.items };

    ghost invariant = { λ c. length c.requests.items ≤ 64 };
}

impl Collector {
    /// An empty container. It takes no memory yet.
    pub fn new(alloc: Global) -> Collector
        ensures { result ≡ [] }
    {
        Collector {
            requests: Vec::new(alloc),
        }
    }

    /// Collects the requests too, all or none.
    pub fn add(&mut self, requests: &[Request]) -> Result<(), CollectFault>
        ensures added { OnOk result (self.new ≡ self.old ++ requests.now) }
        ensures unchanged { OnErr result (self.new ≡ self.old) }
        ensures fits { OnOk result (length self.old + length requests.now ≤ 64) }
        ensures full { (64 < length self.old + length requests.now) ↔ IsErrOf result (CollectFault.Full 64) }
        ensures fault { IfErr result (λ f. (f ≡ CollectFault.Full 64) ⊎ (f ≡ CollectFault.NoMemory)) }
    {
        if requests.len() > MOST - self.requests.len() {
            return Err(CollectFault::Full(MOST as u32));
        }
        self.requests.extend_from_slice(requests)?;
        Ok(())
    }

    /// What was collected, in order.
    pub fn requests(&self) -> &[Request]
        ensures requests { result.now ≡ self.now }
        ensures bound { length self.now ≤ 64 }
    {
        self.requests.as_slice()
    }

    /// Empties the container. It takes no memory.
    pub fn reset(&mut self)
        ensures { self.new ≡ [] }
    {
        self.requests.clear();
    }
}
