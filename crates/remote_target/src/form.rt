ghost use Rattle.std.specs.Prelude.{◌≡◌, IfOk};
ghost use Rattle.enq_base.specs.declared.unit.Deed.TheVariants.{Del};
ghost use Rattle.remote_target.specs.Calls.{deed_with, effect_of, effect_on, keyed_effect, text_if, verb_effect};

use enq_base::{Deed, Effect, Key, NoMemory, Text, TextFault, cut_at, read_name};
use module_effects::read_integer;
use std::alloc::Global;

/// The effect that a call's text spells. None comes exactly outside the four forms.
#[tactic(auto, unfolding(crate::specs::Calls::effect_of))]
pub fn read_effect(alloc: Global, text: &[u8]) -> Result<Option<Effect>, NoMemory>
    ensures { IfOk result (λ effect. effect ≡ effect_of text.now) }
{
    let Some((verb, rest)) = cut_at(text, b' ') else {
        return Ok(None);
    };
    let Some((table, rest)) = cut_at(rest, b' ') else {
        return Ok(None);
    };
    verb_effect(alloc, verb, table, rest)
}

fn verb_effect(
    alloc: Global,
    verb: &[u8],
    table: &[u8],
    rest: &[u8],
) -> Result<Option<Effect>, NoMemory>
    ensures { IfOk result (λ effect. effect ≡ verb_effect verb.now table.now rest.now) }
{
    if verb == b"DEL".as_slice() {
        return Ok(effect_on(table, rest, Deed::Del));
    }
    keyed_effect(alloc, verb, table, rest)
}

fn keyed_effect(
    alloc: Global,
    verb: &[u8],
    table: &[u8],
    rest: &[u8],
) -> Result<Option<Effect>, NoMemory>
    ensures { IfOk result (λ effect. effect ≡ keyed_effect verb.now table.now rest.now) }
{
    let Some((key, bytes)) = cut_at(rest, b' ') else {
        return Ok(None);
    };
    let Some(deed) = deed_with(alloc, verb, bytes)? else {
        return Ok(None);
    };
    Ok(effect_on(table, key, deed))
}

fn deed_with(alloc: Global, verb: &[u8], bytes: &[u8]) -> Result<Option<Deed>, NoMemory>
    ensures { IfOk result (λ deed. deed ≡ deed_with verb.now bytes.now) }
{
    if verb == b"PUT".as_slice() {
        return Ok(text_if(alloc, bytes)?.map(Deed::Put));
    }
    if verb == b"INS".as_slice() {
        return Ok(text_if(alloc, bytes)?.map(Deed::Ins));
    }
    if verb == b"ADD".as_slice() {
        return Ok(read_integer(bytes).map(Deed::Add));
    }
    Ok(None)
}

fn effect_on(table: &[u8], key: &[u8], deed: Deed) -> Option<Effect>
    ensures { result ≡ effect_on table.now key.now deed }
{
    let table = read_name(table)?;
    let key = Key::new(key)?;
    Some(Effect { table, key, deed })
}

/// The bytes as a text, where they are one.
pub fn text_if(alloc: Global, bytes: &[u8]) -> Result<Option<Text>, NoMemory>
    ensures { IfOk result (λ text. text ≡ text_if bytes.now) }
{
    match Text::new(alloc, bytes) {
        Ok(text) => Ok(Some(text)),
        Err(TextFault::NoMemory) => Err(NoMemory),
        Err(TextFault::Length) => Ok(None),
        Err(TextFault::Byte) => Ok(None),
    }
}
