ghost use Rattle.std.specs.Prelude.{◌≡◌, ◌≤◌, IfSome, map, option_map};
ghost use Rattle.toml.specs.Data.{as_array, get_member};
ghost use Rattle.toml.specs.View.{table_view, view};
ghost use Rattle.landscape.specs.Tables.{integer_at, items_at, key_count, list_of, name_at, name_in, natural_of, number_within, table_with, text_at};

use enq_base::{Name, read_name};
use toml::{Table, Value};

/// The table that the value is, where it has so many keys.
#[tactic(auto, unfolding(crate::specs::Tables::table_with))]
pub(crate) fn table_with(value: &Value, keys: usize) -> Option<&Table>
    ensures { option_map (λ t. table_view t.now) result ≡ table_with keys (view value.now) }
{
    let table = value.as_table()?;
    if key_count(table) == keys {
        Some(table)
    } else {
        None
    }
}

fn key_count(table: &Table) -> usize
    ensures { result ≡ key_count (table_view table.now) }
{
    table.len()
}

/// What stands at a key.
pub(crate) fn value_at<'a>(table: &'a Table, key: &str) -> Option<&'a Value>
    ensures { option_map (λ v. view v.now) result ≡ get_member key.now (table_view table.now) }
{
    table.get(key)
}

pub(crate) fn text_at<'a>(table: &'a Table, key: &str) -> Option<&'a str>
    ensures { option_map (λ s. s.now) result ≡ text_at key.now (table_view table.now) }
{
    match value_at(table, key) {
        Some(value) => value.as_str(),
        None => None,
    }
}

pub(crate) fn integer_at(table: &Table, key: &str) -> Option<i64>
    ensures { result ≡ integer_at key.now (table_view table.now) }
{
    match value_at(table, key) {
        Some(value) => value.as_integer(),
        None => None,
    }
}

/// The items of an array.
pub(crate) fn items_at<'a>(table: &'a Table, key: &str) -> Option<&'a [Value]>
    ensures { option_map (λ vs. map view vs.now) result ≡ items_at key.now (table_view table.now) }
{
    match value_at(table, key) {
        Some(value) => items(value),
        None => None,
    }
}

#[tactic(auto, using(crate::proofs::Views::list_of_view))]
fn items(value: &Value) -> Option<&[Value]>
    ensures { option_map (λ vs. map view vs.now) result ≡ option_map list_of (as_array (view value.now)) }
{
    match value.as_array() {
        Some(values) => Some(values.as_slice()),
        None => None,
    }
}

/// A text that is a name.
#[tactic(auto, unfolding(crate::specs::Tables::name_in))]
pub(crate) fn name_in(value: &Value) -> Option<Name>
    ensures { result ≡ name_in (view value.now) }
{
    read_name(value.as_str()?.as_bytes())
}

#[tactic(auto, unfolding(crate::specs::Tables::name_at))]
pub(crate) fn name_at(table: &Table, key: &str) -> Option<Name>
    ensures { result ≡ name_at key.now (table_view table.now) }
{
    name_in(value_at(table, key)?)
}

/// A number from the least to the most.
#[tactic(auto, unfolding(crate::specs::Tables::number_within))]
pub(crate) fn number_within(least: u64, most: u64, number: i64) -> Option<u64>
    ensures number { result ≡ number_within least most number }
    ensures within { IfSome result (λ n. (least ≤ n) × (n ≤ most)) }
{
    let number = natural(number)?;
    if least <= number && number <= most {
        Some(number)
    } else {
        None
    }
}

pub(crate) fn natural(number: i64) -> Option<u64>
    ensures { result ≡ natural_of number }
{
    if number < 0 {
        None
    } else {
        Some(number as u64)
    }
}
