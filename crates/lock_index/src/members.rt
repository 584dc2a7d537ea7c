ghost use Rattle.std.specs.Prelude.{◌≡◌, ℕ, [], None, Some, IsTrue, OnOk, OnErr, nat_eq, cond};
ghost use Rattle.std.specs.List.{IsDistinct};
ghost use Rattle.indexmap.specs.IndexMap.{get, ContainsKey};
ghost use Rattle.lock_index.specs.declared.key.Key.{Key};
ghost use Rattle.lock_index.specs.Keys.{same_key};
ghost use Rattle.lock_index.specs.Members as spec;

use crate::key::Key;
use enq_base::NoMemory;
use indexmap::{IndexMap, IndexSet};
use std::alloc::Global;
use std::slice;

/// Numbers under keys. Most keys have one number alone: it stands without a set, and takes no memory of its own.
#[derive(Drop)]
pub struct NumberMap {
    alone: IndexMap<Key, usize>,
    /// What stands here counts only where the key has no number alone.
    sets: IndexMap<Key, IndexSet<usize>>,
}

/// No number under any key. It takes no memory.
pub fn no_numbers(alloc: Global) -> NumberMap
    ensures { (k : Key) → spec.members result k ≡ [] }
{
    NumberMap {
        alone: IndexMap::new(alloc),
        sets: IndexMap::new(alloc),
    }
}

/// Puts the number under the key.
pub fn add(alloc: Global, map: &mut NumberMap, key: &Key, number: usize) -> Result<(), NoMemory>
    ensures added { OnOk result (spec.Adds map.old map.new key.now number) }
    ensures unchanged { OnErr result (spec.Keeps map.old map.new) }
{
    match map.alone.get(key).copied() {
        Some(first) => add_second(alloc, map, key, first, number),
        None => add_beside(map, key, number),
    }
}

/// Puts a number under a key that has one alone: both then stand in a set.
fn add_second(
    alloc: Global,
    map: &mut NumberMap,
    key: &Key,
    first: usize,
    number: usize,
) -> Result<(), NoMemory>
    requires { get same_key map.old.alone key.now ≡ Some first }
    ensures added { OnOk result (spec.Adds map.old map.new key.now number) }
    ensures unchanged { OnErr result (spec.Keeps map.old map.new) }
{
    if first == number {
        return Ok(());
    }
    let mut set = IndexSet::new(alloc);
    set.insert(first)?;
    set.insert(number)?;
    map.sets.insert(*key, set)?;
    map.alone.swap_remove(key);
    Ok(())
}

/// Puts a number under a key that has none alone.
fn add_beside(map: &mut NumberMap, key: &Key, number: usize) -> Result<(), NoMemory>
    requires { get same_key map.old.alone key.now ≡ None }
    ensures added { OnOk result (spec.Adds map.old map.new key.now number) }
    ensures unchanged { OnErr result (spec.Keeps map.old map.new) }
{
    if map.sets.contains_key(key) {
        return add_to(&mut map.sets, key, number);
    }
    map.alone.insert(*key, number)?;
    Ok(())
}

fn add_to(
    map: &mut IndexMap<Key, IndexSet<usize>>,
    key: &Key,
    number: usize,
) -> Result<(), NoMemory>
    requires { ContainsKey same_key map.old key.now }
    ensures added { OnOk result (spec.AddsToSet map.old map.new key.now number) }
    ensures unchanged { OnErr result (spec.KeepsSets map.old map.new) }
{
    match map.get_mut(key) {
        Some(set) => match set.insert(number) {
            Ok(_) => Ok(()),
            Err(_) => Err(NoMemory),
        },
        None => unreachable!(),
    }
}

/// Takes the number from under the key. It takes no memory.
pub fn take(map: &mut NumberMap, key: &Key, number: usize)
    ensures { spec.Takes map.old map.new key.now number }
{
    match map.alone.get(key).copied() {
        Some(first) => take_first(map, key, first, number),
        None => take_from_set(&mut map.sets, key, number),
    }
}

/// Takes the number from under a key that has one alone, if it is that one.
fn take_first(map: &mut NumberMap, key: &Key, first: usize, number: usize)
    requires { get same_key map.old.alone key.now ≡ Some first }
    ensures { spec.Takes map.old map.new key.now number }
{
    if first == number {
        clear(map, key);
    }
}

/// Takes all numbers from under the key.
fn clear(map: &mut NumberMap, key: &Key)
    ensures { (k : Key) → spec.members map.new k ≡ cond (same_key key.now k) [] (spec.members map.old k) }
{
    map.alone.swap_remove(key);
    map.sets.swap_remove(key);
}

/// Takes the number from the set under the key.
fn take_from_set(map: &mut IndexMap<Key, IndexSet<usize>>, key: &Key, number: usize)
    ensures { spec.TakesFromSet map.old map.new key.now number }
{
    if take_from(map, key, number) {
        map.swap_remove(key);
    }
}

/// Whether nothing is left in the set under the key.
fn take_from(map: &mut IndexMap<Key, IndexSet<usize>>, key: &Key, number: usize) -> bool
    ensures taken { spec.TakesFromSet map.old map.new key.now number }
    ensures empty { IsTrue result → spec.set_members map.new key.now ≡ [] }
{
    match map.get_mut(key) {
        Some(set) => {
            set.swap_remove(&number);
            set.is_empty()
        }
        None => false,
    }
}

/// The numbers under the key, in no certain order.
pub fn members<'a>(map: &'a NumberMap, key: &Key) -> &'a [usize]
    ensures members { result.now ≡ spec.members map.now key.now }
    ensures distinct { IsDistinct nat_eq result.now }
{
    match map.alone.get(key) {
        Some(number) => slice::from_ref(number),
        None => set_members(&map.sets, key),
    }
}

/// The numbers of the set under the key, in no certain order.
fn set_members<'a>(map: &'a IndexMap<Key, IndexSet<usize>>, key: &Key) -> &'a [usize]
    ensures members { result.now ≡ spec.set_members map.now key.now }
    ensures distinct { IsDistinct nat_eq result.now }
{
    match map.get(key) {
        Some(set) => set.as_slice(),
        None => &[],
    }
}

/// Puts the number under each of the keys. Where memory is wanting it may stand under some of them.
pub fn add_all(
    alloc: Global,
    map: &mut NumberMap,
    keys: &[Key],
    number: usize,
) -> Result<(), NoMemory>
    ensures added { OnOk result (spec.AddsAll map.old map.new keys.now number) }
    ensures some { OnErr result (spec.AddsSome map.old map.new keys.now number) }
{
    for key in keys {
        add(alloc, map, key, number)?;
    }
    Ok(())
}

/// Takes the number from under each of the keys. It takes no memory.
pub fn take_all(map: &mut NumberMap, keys: &[Key], number: usize)
    ensures { spec.TakesAll map.old map.new keys.now number }
{
    for key in keys {
        take(map, key, number);
    }
}
