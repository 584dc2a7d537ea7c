ghost use Rattle.std.specs.Prelude.{◌≡◌, ◌∷◌, ℕ, IfOk, List};
ghost use Rattle.script_actors.specs.Texts.{reply_text};

use enq_base::{Items, NoMemory};
use hall_model::Reply;
use monitors::Bytes;
use script_runner::{Text, push_reply};
use std::alloc::Global;

/// The text of a reply, in memory of its own.
pub fn text_of_reply(alloc: Global, reply: &Reply) -> Result<Bytes, NoMemory>
    ensures { IfOk result (λ text. text ≡ reply_text reply.now) }
{
    let mut text = Text::new();
    push_reply(&mut text, reply);
    copy_of(alloc, behind_space(text.as_slice()))
}

/// A text without the space in front.
fn behind_space(text: &[u8]) -> &[u8]
    ensures { (rest : List ℕ) → text.now ≡ 32 ∷ rest → result.now ≡ rest }
{
    match text.split_first() {
        Some((_, rest)) => rest,
        None => text,
    }
}

fn copy_of(alloc: Global, bytes: &[u8]) -> Result<Bytes, NoMemory>
    ensures { IfOk result (λ copy. copy ≡ bytes.now) }
{
    let mut copy = Vec::new(alloc);
    copy.extend_from_slice(bytes)?;
    Ok(Items::from_vec(copy))
}
