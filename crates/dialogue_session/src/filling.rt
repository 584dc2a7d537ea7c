ghost use Rattle.std.specs.Prelude.{◌≡◌, ◌≤◌, ◌∷◌, ◌++◌, Ok, drop, length, not, position, take_while, IfErr, IfOk, OnOk};
ghost use Rattle.enq_base.specs.Grammar.{is_name_byte};
ghost use Rattle.dialogue_session.specs.Filling.{IsRefusedAs, filled, filled_from, holds_dollar, joined, name_ahead, name_behind, text_for};

use crate::variables::Variables;
use enq_base::{NAME_BYTES, Name, Refusal, read_name};
use std::alloc::Global;
use std::marker::Model;

/// A part of a line with texts in place of the names of variables. One without `$` stands where it stood.
#[derive(Drop)]
pub struct Resolved<'a> {
    given: &'a [u8],
    made: Option<Vec<u8>>,
}

impl<'a> Model for Resolved<'a> {
    ghost use Rattle.std.specs.Prelude.{ℕ, List};
    ghost use Rattle.std.specs.Global.{Vec};
    ghost use Rattle.std.specs.Option.{option_map_or};

    ghost Value = { List ℕ };

    ghost view = { λ f. option_map_or (λ (v : Vec ℕ). v.items) f.made f.given.now };
}

impl<'a> Resolved<'a> {
    /// The bytes of the part, with the texts.
    pub fn bytes(&self) -> &[u8]
        ensures { result.now ≡ self.now }
    {
        match &self.made {
            Some(text) => text.as_slice(),
            None => self.given,
        }
    }
}

/// A part of a line with texts in place of the names of variables. Without a `$` the variables aren't looked at.
#[tactic(auto, using(crate::proofs::Fillings::as_it_stands))]
pub(crate) fn resolve<'a>(
    alloc: Global,
    variables: &Variables,
    part: &'a [u8],
) -> Result<Resolved<'a>, Refusal>
    ensures filled { IfOk result (λ text. filled variables.now.items part.now ≡ Ok text) }
    ensures refused { IfErr result (IsRefusedAs (filled variables.now.items part.now)) }
{
    if !holds_dollar(part) {
        return Ok(Resolved {
            given: part,
            made: None,
        });
    }
    let text = filled(alloc, variables, part)?;
    Ok(Resolved {
        given: part,
        made: Some(text),
    })
}

fn holds_dollar(part: &[u8]) -> bool
    ensures { result ≡ holds_dollar part.now }
{
    part.iter().any(|b| b'$' == *b)
}

fn filled(alloc: Global, variables: &Variables, part: &[u8]) -> Result<Vec<u8>, Refusal>
    ensures filled { IfOk result (λ text. filled variables.now.items part.now ≡ Ok text.items) }
    ensures refused { IfErr result (IsRefusedAs (filled variables.now.items part.now)) }
{
    let mut text = Vec::new(alloc);
    let mut rest = part;
    'rest: while let Some((first, after)) = rest.split_first() {
        let passed = put_next(&mut text, variables, *first, after)?;
        rest = behind(after, passed);
    }
    Ok(text)
}

/// Puts what the first byte of a rest comes to behind a text, and tells how many bytes behind it are passed over.
fn put_next(
    text: &mut Vec<u8>,
    variables: &Variables,
    first: u8,
    after: &[u8],
) -> Result<usize, Refusal>
    ensures put { IfOk result
        (λ passed. joined (Ok text.new.items) (filled_from variables.now.items passed after.now) ≡ joined
        (Ok text.old.items) (filled variables.now.items (first ∷ after.now))) }
    ensures within { IfOk result (λ passed. passed ≤ length after.now) }
    ensures refused { IfErr result (IsRefusedAs (filled variables.now.items (first ∷ after.now))) }
{
    match name_behind(first, after) {
        Some(name) => {
            put_text(text, variables, name)?;
            Ok(name.bytes().len())
        }
        None => {
            put(text, &[first])?;
            Ok(0)
        }
    }
}

/// Puts the text that stands for a name behind another text.
fn put_text(text: &mut Vec<u8>, variables: &Variables, name: Name) -> Result<(), Refusal>
    ensures put { OnOk result (joined (Ok text.old.items) (text_for variables.now.items name) ≡ Ok text.new.items) }
    ensures refused { IfErr result (IsRefusedAs (text_for variables.now.items name)) }
{
    match variables.text_of(&name) {
        Some(known) => put(text, known),
        None => Err(Refusal::UnknownVariable(name)),
    }
}

fn put(text: &mut Vec<u8>, bytes: &[u8]) -> Result<(), Refusal>
    ensures put { OnOk result (text.new.items ≡ text.old.items ++ bytes.now) }
    ensures refused { IfErr result (λ r. r ≡ Refusal.NoMemory) }
{
    match text.extend_from_slice(bytes) {
        Ok(()) => Ok(()),
        Err(_) => Err(Refusal::NoMemory),
    }
}

/// The name that a `$` in front of the bytes has behind it.
fn name_behind(first: u8, bytes: &[u8]) -> Option<Name>
    ensures { result ≡ name_behind first bytes.now }
{
    if first == b'$' {
        name_ahead(bytes)
    } else {
        None
    }
}

/// The name at the front of the bytes, the longest that stands there.
fn name_ahead(bytes: &[u8]) -> Option<Name>
    ensures { result ≡ name_ahead bytes.now }
{
    let most = bytes.len().min(NAME_BYTES);
    let run = name_bytes(&bytes[..most]);
    read_name(run)
}

/// The bytes of names that the bytes begin with.
fn name_bytes(bytes: &[u8]) -> &[u8]
    ensures { result.now ≡ take_while is_name_byte bytes.now }
{
    match first_other(bytes) {
        Some(end) => &bytes[..end],
        None => bytes,
    }
}

/// The place of the first byte that isn't one of a name.
fn first_other(bytes: &[u8]) -> Option<usize>
    ensures { result ≡ position (λ b. not (is_name_byte b)) bytes.now }
{
    bytes.iter().position(|b| !is_name_byte(*b))
}

/// The bytes behind so many that are passed over.
fn behind(bytes: &[u8], passed: usize) -> &[u8]
    requires { passed ≤ length bytes.now }
    ensures { result.now ≡ drop passed bytes.now }
{
    &bytes[passed..]
}

fn is_name_byte(byte: u8) -> bool
    ensures { result ≡ is_name_byte byte }
{
    byte.is_ascii_uppercase() || byte.is_ascii_digit() || byte == b'_'
}
