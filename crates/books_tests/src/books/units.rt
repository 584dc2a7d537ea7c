ghost use Rattle.std.specs.Prelude.{◌≡◌, ◌+◌, ◌≤◌, ◌∷◌, [], IfOk, IsTrue, length};

use enq_base::{Deed, Effect, Items, Key, Name, Parts, Text, UnitKey, read_name};
use std::alloc::Global;
use std::test::Fail;
use update_records::Unit;

/// The unit with this number in the first session of start 1.
pub fn unit_key(luw: u32) -> UnitKey
    ensures { result ≡ record { start = 1; session = 1; luw = luw } }
{
    UnitKey {
        start: 1,
        session: 1,
        luw,
    }
}

pub fn name_of(bytes: &[u8]) -> Result<Name, Fail>
    ensures { IfOk result (λ name. name ≡ bytes.now) }
{
    let Some(name) = read_name(bytes) else {
        return Err(Fail::from("a name"));
    };
    Ok(name)
}

/// An effect on a row of table T, by the row's key.
#[derive(Clone, Copy)]
pub enum Act {
    Put(&'static [u8], &'static [u8]),
    Ins(&'static [u8], &'static [u8]),
    Del(&'static [u8]),
    Add(&'static [u8], i64),
}

fn text_of(alloc: Global, text: &[u8]) -> Result<Text, Fail> {
    let Ok(text) = Text::new(alloc, text) else {
        return Err(Fail::from("a text"));
    };
    Ok(text)
}

fn effect(key: &[u8], deed: Deed) -> Result<Effect, Fail> {
    let (Some(table), Some(key)) = (read_name(b"T"), Key::new(key)) else {
        return Err(Fail::from("words"));
    };
    Ok(Effect { table, key, deed })
}

fn effect_of(alloc: Global, act: &Act) -> Result<Effect, Fail> {
    match act {
        Act::Put(key, text) => effect(key, Deed::Put(text_of(alloc, text)?)),
        Act::Ins(key, text) => effect(key, Deed::Ins(text_of(alloc, text)?)),
        Act::Del(key) => effect(key, Deed::Del),
        Act::Add(key, number) => effect(key, Deed::Add(*number)),
    }
}

fn effects_of(alloc: Global, acts: &[Act]) -> Result<Items<Effect>, Fail> {
    let mut effects = Vec::new(alloc);
    for act in acts {
        effects.push(effect_of(alloc, act)?)?;
    }
    Ok(Items::from_vec(effects))
}

pub fn parts_of(alloc: Global, v1: &[Act], v2: &[Act]) -> Result<Parts, Fail> {
    let v1 = effects_of(alloc, v1)?;
    let v2 = effects_of(alloc, v2)?;
    Ok(Parts { v1, v2 })
}

/// A unit of MILLER that drew no numbers and holds no locks.
pub fn unit_of(alloc: Global, key: &UnitKey, parts: Parts) -> Result<Unit, Fail>
    ensures key { IfOk result (λ unit. unit.key ≡ key.now) }
    ensures parts { IfOk result (λ unit. unit.parts ≡ parts) }
    ensures numbers { IfOk result (λ unit. unit.numbers ≡ []) }
    ensures entries { IfOk result (λ unit. unit.entries ≡ []) }
{
    let user = name_of(b"MILLER")?;
    Ok(Unit {
        key: *key,
        user,
        numbers: Items::from_vec(Vec::new(alloc)),
        parts,
        entries: Items::from_vec(Vec::new(alloc)),
    })
}

/// Whether a unit may have these parts.
pub fn are_few(parts: &Parts) -> bool
    ensures some { IsTrue result → 1 ≤ length parts.now.v1 + length parts.now.v2 }
    ensures few { IsTrue result → length parts.now.v1 + length parts.now.v2 ≤ 200 }
{
    let (v1, v2) = (parts.v1.as_slice().len(), parts.v2.as_slice().len());
    (v1 >= 1 || v2 >= 1) && v1 <= 100 && v2 <= 100
}
