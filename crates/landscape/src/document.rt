ghost use Rattle.std.specs.Prelude.{◌≡◌, option_map};
ghost use Rattle.std.specs.List.{list_all};
ghost use Rattle.toml.specs.View.{table_view, view};
ghost use Rattle.landscape.specs.Broken.{Gives};
ghost use Rattle.landscape.specs.Document.{are_tables, document_of, holds_tables, is_table, is_top, is_top_key, limit_of};
ghost use Rattle.landscape.specs.Tables.{keys_of};

use crate::land_fault::LandFault;
use crate::tables::{number_within, value_at};
use std::alloc::Global;
use std::str;
use toml::{Table, Value};

/// The most bytes of a document.
pub(crate) const MOST_BYTES: usize = 1_048_576;

/// The table that the bytes are.
#[tactic(auto, unfolding(crate::specs::Document::document_of))]
pub(crate) fn read_document(alloc: Global, bytes: &[u8]) -> Result<Table, LandFault>
    ensures { Gives (λ t. table_view t) result (document_of bytes.now) }
{
    if bytes.len() > MOST_BYTES {
        return Err(LandFault::Bad { rule: 1, place: 0 });
    }
    let Ok(text) = str::from_utf8(bytes) else {
        return Err(LandFault::Bad { rule: 2, place: 0 });
    };
    match toml::table_from_str(alloc, text) {
        Ok(table) => Ok(table),
        Err(e) if e.is_memory() => Err(LandFault::NoMemory),
        Err(_) => Err(LandFault::Bad { rule: 2, place: 0 }),
    }
}

/// Whether there are no other keys, and objects and ranges are tables.
pub(crate) fn is_top(top: &Table) -> bool
    ensures { result ≡ is_top (table_view top.now) }
{
    are_top_keys(top) && are_tables(value_at(top, "object")) && are_tables(value_at(top, "range"))
}

#[tactic(auto, using(crate::proofs::Views::all_keys))]
fn are_top_keys(top: &Table) -> bool
    ensures { result ≡ list_all is_top_key (keys_of (table_view top.now)) }
{
    for key in top.keys() {
        if !is_top_key(key.as_str()) {
            return false;
        }
    }
    true
}

fn is_top_key(key: &str) -> bool
    ensures { result ≡ is_top_key key.now }
{
    key == "max_locks" || key == "max_marks" || key == "object" || key == "range"
}

/// Whether the value is an array of tables, if there is one.
fn are_tables(value: Option<&Value>) -> bool
    ensures { result ≡ are_tables (option_map (λ v. view v.now) value.entry) }
{
    match value {
        None => true,
        Some(value) => holds_tables(value),
    }
}

#[tactic(auto, using(crate::proofs::Views::all_list_of))]
fn holds_tables(value: &Value) -> bool
    ensures { result ≡ holds_tables (view value.now) }
{
    match value.as_array() {
        None => false,
        Some(values) => all_tables(values.as_slice()),
    }
}

fn all_tables(values: &[Value]) -> bool
    ensures { result ≡ list_all (λ v. is_table (view v)) values.now }
{
    values.iter().all(|value| value.is_table())
}

/// A limit from 1 to the most; the most where there is none.
#[tactic(auto, unfolding(crate::specs::Document::limit_of))]
pub(crate) fn limit(most: u32, value: Option<&Value>) -> Option<u32>
    ensures { result ≡ limit_of most (option_map (λ v. view v.now) value.entry) }
{
    match value {
        None => Some(most),
        Some(value) => {
            let number = number_within(1, u64::from(most), value.as_integer()?)?;
            Some(number as u32)
        }
    }
}
