ghost use Rattle.std.specs.Prelude.{◌≡◌, ◌&&◌, ◌||◌, ◌++◌, ◌∷◌, [], true, Some, IfOk, OnOk, is_some};
ghost use Rattle.script_actors.specs.Doers.{is_done_by};
ghost use Rattle.thread_runner.specs.Answers.{AreInOrder, answers_in, answers_of, full_said, is_full_line, said_in};
ghost use Rattle.thread_runner.specs.Writing.{AllSaid, is_worker};

use actor_threads::Deed;
use enq_base::{Items, NoMemory, Refusal};
use hall_model::{Reply, Who};
use script_actors::{NumberedLine, Said, is_done_by, text_of_reply};
use std::alloc::Global;

/// What the lines are answered beside the history, in their order.
pub(crate) fn say_all(
    alloc: Global,
    lines: &[NumberedLine],
    mut deeds: Vec<Deed>,
) -> Result<Vec<Said>, NoMemory>
    ensures said { IfOk result (λ said. AreInOrder (answers_in lines.now deeds.items) said.items) }
    ensures all { OnOk result (AllSaid deeds.items) }
{
    let mut all = Vec::new(alloc);
    while let Some(deed) = deeds.pop() {
        say_of(alloc, lines, deed, &mut all)?;
    }
    all.sort_by_key(|said: &Said| said.line)?;
    Ok(all)
}

/// Puts behind the others what the lines of one actor are answered.
fn say_of(
    alloc: Global,
    lines: &[NumberedLine],
    deed: Deed,
    all: &mut Vec<Said>,
) -> Result<(), NoMemory>
    ensures said { OnOk result
        (all.new.items ≡ all.old.items ++ answers_of lines.now deed.who deed.said deed.full_at) }
    ensures all { OnOk result ((is_worker deed.who || is_some deed.said) ≡ true) }
{
    let Deed {
        who,
        said,
        full_at,
        ..
    } = deed;
    put_said(&who, said, all)?;
    match full_at {
        Some(line) => say_full(alloc, lines, &who, line, all),
        None => Ok(()),
    }
}

/// Puts behind the others what an actor's lines were answered that came to no call. A worker has no lines.
fn put_said(who: &Who, said: Option<Items<Said>>, all: &mut Vec<Said>) -> Result<(), NoMemory>
    ensures said { OnOk result (all.new.items ≡ all.old.items ++ said_in said) }
    ensures all { OnOk result ((is_worker who.now || is_some said) ≡ true) }
{
    match said {
        Some(said) => {
            let mut said = said.into_vec();
            all.append(&mut said)?;
            Ok(())
        }
        None => match who {
            Who::Worker(_) => Ok(()),
            Who::Session(_) | Who::Admin => Err(NoMemory),
        },
    }
}

/// Answers the line that found the history full, and each later line of a session.
fn say_full(
    alloc: Global,
    lines: &[NumberedLine],
    who: &Who,
    full_at: u32,
    all: &mut Vec<Said>,
) -> Result<(), NoMemory>
    ensures { OnOk result (all.new.items ≡ all.old.items ++ full_said lines.now who.now (Some full_at)) }
{
    for numbered in lines {
        say_full_line(alloc, numbered, who, full_at, all)?;
    }
    Ok(())
}

/// Answers one line, if it found the history full.
fn say_full_line(
    alloc: Global,
    numbered: &NumberedLine,
    who: &Who,
    full_at: u32,
    all: &mut Vec<Said>,
) -> Result<(), NoMemory>
    ensures { OnOk result (all.new.items ≡ all.old.items ++ full_said (numbered.now ∷ []) who.now (Some full_at)) }
{
    if !is_full(numbered, who, full_at) {
        return Ok(());
    }
    let text = text_of_reply(alloc, &Reply::Refused(Refusal::LogFull))?;
    all.push(Said {
        line: numbered.number,
        text,
    })?;
    Ok(())
}

/// Whether the line is the actor's and found the history full.
fn is_full(numbered: &NumberedLine, who: &Who, full_at: u32) -> bool
    ensures { result ≡ (is_done_by who.now numbered.now.line && is_full_line who.now full_at numbered.now) }
{
    is_done_by(&numbered.line, who) && is_full_line(numbered, who, full_at)
}

fn is_full_line(numbered: &NumberedLine, who: &Who, full_at: u32) -> bool
    ensures { result ≡ is_full_line who.now full_at numbered.now }
{
    match who {
        Who::Session(_) => full_at <= numbered.number,
        Who::Worker(_) | Who::Admin => full_at == numbered.number,
    }
}
