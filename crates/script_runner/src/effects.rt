ghost use Rattle.std.specs.Prelude.{ℕ, ℤ, List};
ghost use Rattle.enq_base.specs.declared.unit.Deed.{Deed as DeedView};
ghost use Rattle.enq_base.specs.declared.unit.Effect.{Effect as EffectView};
ghost use Rattle.script_runner.specs.Answers.{IsGivenBy};
ghost use Rattle.script_runner.specs.Lines.{deed_in, effect_in, effect_with, key_in, key_with, number_in, text_in};

use crate::filling::part_of;
use dialogue_session::Dialogue;
use enq_base::{ArgKind, Deed, Effect, Key, Name, Refusal, Text, TextFault};
use module_effects::read_integer;
use std::alloc::Global;

/// What a line does to a row.
#[derive(Clone, Copy, Debug, PartialEq, Eq)]
pub(crate) enum Verb {
    Put,
    Ins,
    Del,
    Add,
}

/// The effect of a session's line. The text is what stands behind the key.
pub(crate) fn effect_with(
    alloc: Global,
    side: &Dialogue,
    verb: Verb,
    table: Name,
    key: &[u8],
    text: &[u8],
) -> Result<Effect, Refusal>
    ensures { IsGivenBy (λ (effect : EffectView). effect)
        (effect_with side.now.side.variables verb table key.now text.now) result }
{
    let key = part_of(alloc, side, key)?;
    let text = part_of(alloc, side, text)?;
    effect_in(alloc, verb, table, key.bytes(), text.bytes())
}

fn effect_in(
    alloc: Global,
    verb: Verb,
    table: Name,
    key: &[u8],
    text: &[u8],
) -> Result<Effect, Refusal>
    ensures { IsGivenBy (λ (effect : EffectView). effect) (effect_in verb table key.now text.now) result }
{
    let key = key_in(key)?;
    let deed = deed_in(alloc, verb, text)?;
    Ok(Effect { table, key, deed })
}

fn deed_in(alloc: Global, verb: Verb, text: &[u8]) -> Result<Deed, Refusal>
    ensures { IsGivenBy (λ (deed : DeedView). deed) (deed_in verb text.now) result }
{
    match verb {
        Verb::Put => Ok(Deed::Put(text_in(alloc, text)?)),
        Verb::Ins => Ok(Deed::Ins(text_in(alloc, text)?)),
        Verb::Del => Ok(Deed::Del),
        Verb::Add => Ok(Deed::Add(number_in(text)?)),
    }
}

fn number_in(text: &[u8]) -> Result<i64, Refusal>
    ensures { IsGivenBy (λ (number : ℤ). number) (number_in text.now) result }
{
    match read_integer(text) {
        Some(number) => Ok(number),
        None => Err(Refusal::BadArgument(ArgKind::Number)),
    }
}

/// The key of a row that a session's line names.
pub(crate) fn key_with(alloc: Global, side: &Dialogue, key: &[u8]) -> Result<Key, Refusal>
    ensures { IsGivenBy (λ (key : List ℕ). key) (key_with side.now.side.variables key.now) result }
{
    let filled = part_of(alloc, side, key)?;
    key_in(filled.bytes())
}

fn key_in(bytes: &[u8]) -> Result<Key, Refusal>
    ensures { IsGivenBy (λ (key : List ℕ). key) (key_in bytes.now) result }
{
    if bytes.is_empty() || bytes.len() > 60 {
        return Err(Refusal::BadArgument(ArgKind::Length));
    }
    match Key::new(bytes) {
        Some(key) => Ok(key),
        None => Err(Refusal::BadArgument(ArgKind::Byte)),
    }
}

fn text_in(alloc: Global, bytes: &[u8]) -> Result<Text, Refusal>
    ensures { IsGivenBy (λ (text : List ℕ). text) (text_in bytes.now) result }
{
    match Text::new(alloc, bytes) {
        Ok(text) => Ok(text),
        Err(TextFault::Length) => Err(Refusal::BadArgument(ArgKind::Length)),
        Err(TextFault::Byte) => Err(Refusal::BadArgument(ArgKind::Byte)),
        Err(TextFault::NoMemory) => Err(Refusal::NoMemory),
    }
}
