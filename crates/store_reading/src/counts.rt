ghost use Rattle.std.specs.Prelude.{◌≡◌, List, OnOk, IfOk};
ghost use Rattle.enq_base.specs.declared.owner.UnitKey.{UnitKey};
ghost use Rattle.store_reading.specs.Standings.{counts_for, AreCounts};
ghost use Rattle.store_reading.specs.Units.{counts_at, effects_in, is_counted, no_counts, told};
ghost use Rattle.update_records.specs.declared.stored.Record.{Record};

use enq_base::{NoMemory, UnitId, UnitKey, id_of};
use std::alloc::Global;
use std::collections::HashMap;
use update_records::Record;

/// What a header counts of its unit.
#[derive(Clone, Copy, Debug, PartialEq, Eq)]
pub struct Counts {
    pub v1: u16,
    pub v2: u16,
    pub locks: u32,
    pub numbers: usize,
}

const NO_COUNTS: Counts = Counts {
    v1: 0,
    v2: 0,
    locks: 0,
    numbers: 0,
};

fn add_counts(counts: &mut HashMap<UnitId, Counts>, stored: &Record) -> Result<(), NoMemory>
    ensures { OnOk result
        ((key : UnitKey) → counts_for counts.new key ≡ told key (counts_for counts.old key) stored.now) }
{
    if let Record::Header {
        unit,
        v1,
        v2,
        locks,
        numbers,
        ..
    } = stored
    {
        let told = Counts {
            v1: *v1,
            v2: *v2,
            locks: *locks,
            numbers: numbers.as_slice().len(),
        };
        counts.insert(id_of(unit), told)?;
    }
    Ok(())
}

/// What the headers count of each unit.
pub fn counts_of(alloc: Global, headers: &[Record]) -> Result<HashMap<UnitId, Counts>, NoMemory>
    ensures { IfOk result (λ counts. AreCounts counts headers.now) }
{
    let mut counts = HashMap::new(alloc);
    for stored in headers {
        add_counts(&mut counts, stored)?;
    }
    Ok(counts)
}

pub fn counts_for(counts: &HashMap<UnitId, Counts>, key: &UnitKey) -> Counts
    ensures { result ≡ counts_for counts.now key.now }
{
    counts.get(&id_of(key)).copied().unwrap_or(NO_COUNTS)
}

fn effects_in(counts: &Counts, part: u8) -> u16
    ensures { result ≡ effects_in counts.now part }
{
    if part == 1 { counts.v1 } else { counts.v2 }
}

/// Whether the header of its unit counts a row of table 2, 3 or 7.
pub fn is_counted(counts: &HashMap<UnitId, Counts>, stored: &Record) -> bool
    ensures { (headers : List Record) → AreCounts counts.now headers → result ≡ is_counted headers stored.now }
{
    match stored {
        Record::Module { unit, part, .. } => effects_in(&counts_for(counts, unit), *part) >= 1,
        Record::Step {
            unit,
            part,
            index,
            ..
        } => *index <= effects_in(&counts_for(counts, unit), *part),
        Record::Lock { unit, index, .. } => *index <= counts_for(counts, unit).locks,
        _ => false,
    }
}
