ghost use Rattle.std.specs.Prelude.{◌≡◌};
ghost use Rattle.lock_entry.specs.Pairs.{are_related, of_one_session};

use enq_base::Owner;

/// Whether two owners are equal, or the dialogue owner of a session and the update owner of one of its units.
pub fn are_related(a: &Owner, b: &Owner) -> bool
    ensures { result ≡ are_related a.now b.now }
{
    a.is(b) || (of_one_session(a, b) || of_one_session(b, a))
}

fn of_one_session(dialogue: &Owner, update: &Owner) -> bool
    ensures { result ≡ of_one_session dialogue.now update.now }
{
    match (dialogue, update) {
        (Owner::Dlg { start, session }, Owner::Upd(unit)) => {
            *start == unit.start && *session == unit.session
        }
        _ => false,
    }
}
