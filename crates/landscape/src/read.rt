ghost use Rattle.std.specs.Prelude.{◌≡◌, ◌<◌, IfSome, map};
ghost use Rattle.toml.specs.View.{table_view, view};
ghost use Rattle.landscape.specs.Broken.{Gives};
ghost use Rattle.landscape.specs.Landscape.{landscape_in, landscape_of, listed};
ghost use Rattle.landscape.specs.Reading.{Answers, ReadsLandscape, TakesAll, TakesMore};
ghost use Rattle.landscape.specs.Tables.{items_at};

use crate::document::{MOST_BYTES, is_top, limit, read_document};
use crate::land_fault::LandFault;
use crate::landscape::Landscape;
use crate::object::read_objects;
use crate::range::read_ranges;
use crate::tables::{items_at, value_at};
use enq_base::Items;
use io_edge::Source;
use std::alloc::Global;
use toml::{Table, Value};

/// The landscape that the bytes of a source are, or the first rule that they break. The source is read to its end, or
/// up to the first byte past the longest document.
pub fn read_landscape<S: Source>(alloc: Global, source: &mut S) -> Result<Landscape, LandFault>
    ensures reads { ReadsLandscape (S.left source.old) (S.left source.new)
        (S.faults source.old) (S.faults source.new) result }
    // A source that tells its bytes is answered by them.
    ensures exact { IfSome (S.left source.old) (Answers result) }
{
    let bytes = read_bytes(alloc, source)?;
    landscape_in(alloc, bytes.as_slice())
}

/// All bytes of a source, or more than a document may have.
fn read_bytes<S: Source>(alloc: Global, source: &mut S) -> Result<Vec<u8>, LandFault>
    ensures { TakesAll (S.left source.old) (S.left source.new)
        (S.faults source.old) (S.faults source.new) result }
{
    let mut bytes = Vec::new(alloc);
    'chunks: while bytes.len() <= MOST_BYTES {
        let room = MOST_BYTES + 1 - bytes.len();
        if read_chunk(source, room, &mut bytes)? == 0 {
            return Ok(bytes);
        }
    }
    Ok(bytes)
}

/// Puts some of the next bytes behind those that are there, and answers how many. 0 is the end.
fn read_chunk<S: Source>(
    source: &mut S,
    room: usize,
    bytes: &mut Vec<u8>,
) -> Result<usize, LandFault>
    requires { 0 < room }
    ensures { TakesMore (S.left source.old) (S.left source.new)
        (S.faults source.old) (S.faults source.new) room bytes.old.items bytes.new.items result }
{
    let mut chunk = [0; 4096];
    let part = &mut chunk[..room.min(4096)];
    let Ok(count) = source.read(part) else {
        return Err(LandFault::Failed);
    };
    bytes.extend_from_slice(&part[..count])?;
    Ok(count)
}

/// The landscape that the bytes are.
#[tactic(auto, unfolding(crate::specs::Landscape::landscape_of))]
fn landscape_in(alloc: Global, bytes: &[u8]) -> Result<Landscape, LandFault>
    ensures { Gives (λ l. l) result (landscape_of bytes.now) }
{
    let top = read_document(alloc, bytes)?;
    read_top(alloc, &top)
}

#[tactic(auto, unfolding(crate::specs::Landscape::landscape_in))]
fn read_top(alloc: Global, top: &Table) -> Result<Landscape, LandFault>
    ensures { Gives (λ l. l) result (landscape_in (table_view top.now)) }
{
    if !is_top(top) {
        return Err(LandFault::Bad { rule: 3, place: 0 });
    }
    let max_locks = limit(100_000, value_at(top, "max_locks"));
    let max_locks = max_locks.ok_or(LandFault::Bad { rule: 4, place: 0 })?;
    let max_marks = limit(1_048_576, value_at(top, "max_marks"));
    let max_marks = max_marks.ok_or(LandFault::Bad { rule: 5, place: 0 })?;
    let objects = read_objects(alloc, listed(top, "object"))?;
    let ranges = read_ranges(alloc, listed(top, "range"))?;
    Ok(Landscape {
        max_locks,
        max_marks,
        objects: Items::from_vec(objects),
        ranges: Items::from_vec(ranges),
    })
}

/// The items at a key; none where there is no such key.
fn listed<'a>(table: &'a Table, key: &str) -> &'a [Value]
    ensures { map view result.now ≡ listed (items_at key.now (table_view table.now)) }
{
    match items_at(table, key) {
        Some(values) => values,
        None => &[],
    }
}
