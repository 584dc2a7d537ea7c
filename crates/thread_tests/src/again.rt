ghost use Rattle.std.specs.Prelude.{◌≡◌, true};
ghost use Rattle.hall_model.specs.Calls.{call_of};
ghost use Rattle.turn_desks.specs.Asking.{HasNoStock};

use crate::halls::{Failing, MemHall, order_hall};
use hall_model::{Command, PastEntry, Reply};
use script_actors::text_of_reply;
use std::alloc::Global;
use std::test::*;

/// Whether a call has no numbers of a stock, as no line of a script has.
fn has_no_stock(command: &Command) -> bool
    ensures { result ≡ true → HasNoStock (call_of command.now) }
{
    match command {
        Command::Commit { stock, .. } => stock.as_slice().is_empty(),
        _ => true,
    }
}

fn have_same_text(alloc: Global, one: &Reply, other: &Reply) -> bool {
    let Ok(one) = text_of_reply(alloc, one) else {
        return false;
    };
    let Ok(other) = text_of_reply(alloc, other) else {
        return false;
    };
    one.as_slice() == other.as_slice()
}

/// Serves a call, and tells whether it is answered so.
fn is_answered_so(
    alloc: Global,
    hall: &mut MemHall,
    line: u32,
    command: Command,
    reply: &Reply,
) -> bool {
    if !has_no_stock(&command) {
        return false;
    }
    let again = hall.serve(alloc, line, command);
    have_same_text(alloc, &again, reply)
}

/// Serves the calls of a history in their order, and tells whether each is answered as it was.
fn are_answered_so(alloc: Global, mut hall: MemHall, past: Vec<PastEntry>) -> bool {
    let mut so = true;
    for PastEntry {
        line,
        command,
        reply,
        ..
    } in past {
        so = is_answered_so(alloc, &mut hall, line, command, &reply) && so;
    }
    so
}

/// Whether each call of a history is answered as it was where they are made one behind another of another hall, over
/// devices that fail at the same calls.
pub(crate) fn is_served_again(
    alloc: Global,
    failing: Failing,
    past: Vec<PastEntry>,
) -> Result<bool, Fail> {
    match order_hall(alloc, failing)? {
        Some(hall) => Ok(are_answered_so(alloc, hall, past)),
        None => Ok(false),
    }
}
