ghost use Rattle.std.specs.Prelude.{◌≡◌, length};
ghost use Rattle.store_reading.specs.Rules.{has_meta, has_number, is_meta, meta_fault, number_fault};

use update_records::{Record, tables};

/// A row of a table, counted from 1.
#[derive(Clone, Copy, Debug, PartialEq, Eq)]
pub struct Place {
    pub table: u8,
    pub row: u64,
}

const MOST_MARKS: u64 = 1048576;

fn is_meta(stored: &Record, marks: u64) -> bool
    ensures { result ≡ is_meta marks stored.now }
{
    match stored {
        Record::Meta {
            start,
            marks: count,
        } => { *start >= 1 && (*count == marks && *count <= MOST_MARKS) }
        _ => false,
    }
}

fn has_meta(meta: &[Record], marks: u64) -> bool
    ensures { result ≡ has_meta meta.now marks }
{
    match meta {
        [stored] => is_meta(stored, marks),
        _ => false,
    }
}

/// Where the records of table 0 break their rule: one row, with a start number of at least 1 and the number of the
/// marks, at most 1,048,576.
pub fn meta_fault(meta: &[Record], marks: &[Record]) -> Option<Place>
    ensures { result ≡ meta_fault meta.now (length marks.now) }
{
    if has_meta(meta, marks.len() as u64) {
        return None;
    }
    Some(Place {
        table: tables::META,
        row: 1,
    })
}

fn has_number(stored: &Record, number: u64) -> bool
    ensures { result ≡ has_number number stored.now }
{
    match stored {
        Record::Mark(mark) => mark.seq == number,
        _ => false,
    }
}

/// The first mark whose number isn't its place, counted from 1.
pub fn number_fault(marks: &[Record]) -> Option<Place>
    ensures { result ≡ number_fault marks.now }
{
    let mut row = 1;
    for stored in marks {
        if !has_number(stored, row) {
            return Some(Place {
                table: tables::MARKS,
                row,
            });
        }
        row += 1;
    }
    None
}
