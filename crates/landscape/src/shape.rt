ghost use Rattle.std.specs.Prelude.{◌≡◌, map, option_map};
ghost use Rattle.std.specs.List.{list_all};
ghost use Rattle.toml.specs.View.{view};
ghost use Rattle.landscape.specs.Objects.{hold, is_field, is_key_table, is_object, is_text};

use crate::tables::{integer_at, items_at, table_with, text_at};
use toml::Value;

/// Whether the value has exactly the keys of an object, each of its kind.
#[tactic(auto, unfolding(crate::specs::Objects::is_object))]
pub(crate) fn is_object(value: &Value) -> bool
    ensures { result ≡ is_object (view value.now) }
{
    match table_with(value, 3) {
        None => false,
        Some(table) => {
            text_at(table, "name").is_some()
                && are_fields(items_at(table, "fields"))
                && are_key_tables(items_at(table, "table"))
        }
    }
}

#[tactic(auto, using(crate::proofs::Views::all_map))]
fn are_fields(values: Option<&[Value]>) -> bool
    ensures { result ≡ hold is_field (option_map (λ vs. map view vs.now) values.entry) }
{
    match values {
        None => false,
        Some(values) => all_fields(values),
    }
}

fn all_fields(values: &[Value]) -> bool
    ensures { result ≡ list_all (λ v. is_field (view v)) values.now }
{
    values.iter().all(|value| is_field(value))
}

#[tactic(auto, unfolding(crate::specs::Objects::is_field))]
fn is_field(value: &Value) -> bool
    ensures { result ≡ is_field (view value.now) }
{
    match table_with(value, 2) {
        None => false,
        Some(table) => text_at(table, "name").is_some() && integer_at(table, "width").is_some(),
    }
}

#[tactic(auto, using(crate::proofs::Views::all_map))]
fn are_key_tables(values: Option<&[Value]>) -> bool
    ensures { result ≡ hold is_key_table (option_map (λ vs. map view vs.now) values.entry) }
{
    match values {
        None => false,
        Some(values) => all_key_tables(values),
    }
}

fn all_key_tables(values: &[Value]) -> bool
    ensures { result ≡ list_all (λ v. is_key_table (view v)) values.now }
{
    values.iter().all(|value| is_key_table(value))
}

#[tactic(auto, unfolding(crate::specs::Objects::is_key_table))]
fn is_key_table(value: &Value) -> bool
    ensures { result ≡ is_key_table (view value.now) }
{
    match table_with(value, 2) {
        None => false,
        Some(table) => text_at(table, "name").is_some() && are_texts(items_at(table, "keys")),
    }
}

#[tactic(auto, using(crate::proofs::Views::all_map))]
fn are_texts(values: Option<&[Value]>) -> bool
    ensures { result ≡ hold is_text (option_map (λ vs. map view vs.now) values.entry) }
{
    match values {
        None => false,
        Some(values) => all_texts(values),
    }
}

fn all_texts(values: &[Value]) -> bool
    ensures { result ≡ list_all (λ v. is_text (view v)) values.now }
{
    values.iter().all(|value| value.is_str())
}
