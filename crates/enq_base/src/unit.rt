ghost use Rattle.std.specs.Prelude.{◌≡◌, IfOk};

use crate::items::Items;
use crate::key::Key;
use crate::name::Name;
use crate::no_memory::NoMemory;
use crate::text::Text;
use std::alloc::Global;

/// Why an effect is refused.
#[derive(Clone, Copy, Debug, PartialEq, Eq)]
pub enum Reason {
    /// An inserted row is there already.
    Duplicate,
    /// A deleted row is not there.
    Missing,
    /// A row that is added to is no i64 in shortest decimal form.
    NotNumber,
    /// A sum is outside i64.
    Overflow,
}

/// Where a recorded unit stands (Updates in the SAP System, V1 and V2 update modules).
#[derive(Clone, Copy, Debug, PartialEq, Eq)]
pub enum Status {
    Open,
    Posted,
    Bad,
    Closed,
    Bad2,
    Cancelled,
}

/// What an effect does to its row.
#[derive(Drop)]
pub enum Deed {
    Put(Text),
    Ins(Text),
    Del,
    Add(i64),
}

/// A change of one business row.
#[derive(Drop)]
pub struct Effect {
    pub table: Name,
    pub key: Key,
    pub deed: Deed,
}

/// The effects of a unit, for its V1 part and for its V2 part.
#[derive(Drop)]
pub struct Parts {
    pub v1: Items<Effect>,
    pub v2: Items<Effect>,
}

/// A number drawn from an interval (Number Range Objects).
#[derive(Clone, Copy, Debug, PartialEq, Eq)]
pub struct Num {
    pub object: Name,
    pub nr: [u8; 2],
    pub number: u64,
}

impl Deed {
    fn copy(&self, alloc: Global) -> Result<Deed, NoMemory>
        ensures { IfOk result (λ deed. deed ≡ self.now) }
    {
        match self {
            Deed::Put(text) => Ok(Deed::Put(text.copy(alloc)?)),
            Deed::Ins(text) => Ok(Deed::Ins(text.copy(alloc)?)),
            Deed::Del => Ok(Deed::Del),
            Deed::Add(number) => Ok(Deed::Add(*number)),
        }
    }
}

impl Effect {
    /// An equal effect.
    pub fn copy(&self, alloc: Global) -> Result<Effect, NoMemory>
        ensures { IfOk result (λ effect. effect ≡ self.now) }
    {
        Ok(Effect {
            table: self.table,
            key: self.key,
            deed: self.deed.copy(alloc)?,
        })
    }
}

impl Parts {
    /// Equal parts.
    pub fn copy(&self, alloc: Global) -> Result<Parts, NoMemory>
        ensures { IfOk result (λ parts. parts ≡ self.now) }
    {
        let v1 = copy_effects(alloc, self.v1.as_slice())?;
        let v2 = copy_effects(alloc, self.v2.as_slice())?;
        Ok(Parts {
            v1: Items::from_vec(v1),
            v2: Items::from_vec(v2),
        })
    }
}

fn copy_effects(alloc: Global, effects: &[Effect]) -> Result<Vec<Effect>, NoMemory>
    ensures { IfOk result (λ copies. copies.items ≡ effects.now) }
{
    let mut copies = Vec::new(alloc);
    for effect in effects {
        copies.push(effect.copy(alloc)?)?;
    }
    Ok(copies)
}
