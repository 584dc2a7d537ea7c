ghost use Rattle.std.specs.Prelude.{◌≡◌, ◌||◌, ◌++◌, map, IfOk, OnOk};
ghost use Rattle.coverage.specs.Lacks as lacks;
ghost use Rattle.coverage.specs.Tallies as counting;
ghost use Rattle.coverage.specs.Walked as walked;

use crate::holding::Holding;
use crate::lack::{Finding, Lack, Watch, Wish};
use crate::lines::wish_in;
use crate::tally::{Tally, tally_of};
use enq_base::NoMemory;
use lock_entry::Asked;
use lock_objects::LockObject;
use script_lang::ScriptLine;
use std::alloc::Global;
use std::marker::Model;

/// A session: what it has, and the wishes of its unit, each with the number of locks that cover its row.
#[derive(Drop)]
pub(crate) struct Session {
    holding: Holding,
    tallies: Vec<Tally>,
}

impl Model for Session {
    ghost use Rattle.coverage.specs.Tallies.{AreTallied, watches_of};
    ghost use Rattle.coverage.specs.Walked.{SessionView};

    ghost Value = { SessionView };

    ghost view = { λ s. record { standing = s.holding; watches = watches_of s.tallies.items } };

    ghost invariant = { λ s. AreTallied s.holding s.tallies.items };
}

impl Session {
    /// A session without lines. It takes no memory.
    pub(crate) fn new(alloc: Global) -> Session
        ensures { result ≡ walked.no_lines }
    {
        Session {
            holding: Holding::new(alloc),
            tallies: Vec::new(alloc),
        }
    }

    /// Where the line commits the unit, what was found is told of its watches.
    pub(crate) fn tell(&self, line: &ScriptLine, found: &mut Vec<Option<Finding>>)
        ensures { found.new.items ≡ walked.told_on self.now line.now found.old.items }
    {
        if self.holding.commits(line) {
            tell_all(found, self.tallies.as_slice());
        }
    }

    /// One more line of the session, with its wish.
    pub(crate) fn follow(
        self,
        alloc: Global,
        objects: &[LockObject],
        place: usize,
        number: u32,
        line: &ScriptLine,
    ) -> Result<Session, NoMemory>
        ensures { IfOk result (λ after. after
            ≡ walked.followed objects.now place (walked.wish_in objects.now (number, line.now)) line.now self) }
    {
        let Session { holding, tallies } = self;
        let mut holding = holding;
        let mut tallies = tallies;
        let ends = ends_unit(&holding, line);
        let moved = holding.follow(alloc, objects, line)?;
        turn_tallies(&mut tallies, ends, line, moved.as_slice());
        add_tally(&mut tallies, objects, place, number, line, &holding)?;
        Ok(Session { holding, tallies })
    }
}

fn ends_unit(holding: &Holding, line: &ScriptLine) -> bool
    ensures { result ≡ (lacks.commits holding.now line.now || lacks.abandons line.now) }
{
    holding.commits(line) || abandons(line)
}

fn abandons(line: &ScriptLine) -> bool
    ensures { result ≡ lacks.abandons line.now }
{
    match line {
        ScriptLine::Rollback { .. } | ScriptLine::Logoff { .. } => true,
        _ => false,
    }
}

/// Whether the line may change the locks of its session.
fn moves(line: &ScriptLine) -> bool
    ensures { result ≡ counting.moves line.now }
{
    match line {
        ScriptLine::Enq { .. }
        | ScriptLine::Deq { .. }
        | ScriptLine::Collect { .. }
        | ScriptLine::DeqAll { .. }
        | ScriptLine::Flush { .. }
        | ScriptLine::Reset { .. } => true,
        _ => false,
    }
}

/// At the unit's end no watch is left.
fn turn_tallies(tallies: &mut Vec<Tally>, ends: bool, line: &ScriptLine, moved: &[Asked])
    ensures { tallies.new.items ≡ counting.all_turned ends line.now moved.now tallies.old.items }
{
    if ends {
        tallies.clear();
    } else if moves(line) {
        turn_each(tallies.as_mut_slice(), line, moved);
    }
}

fn turn_each(tallies: &mut [Tally], line: &ScriptLine, moved: &[Asked])
    ensures { tallies.new ≡ map (counting.turned line.now moved.now) tallies.old }
{
    for tally in tallies.iter_mut() {
        tally.turn(line, moved);
    }
}

/// The tally over the wish of the line, if it has one.
fn add_tally(
    tallies: &mut Vec<Tally>,
    objects: &[LockObject],
    place: usize,
    number: u32,
    line: &ScriptLine,
    holding: &Holding,
) -> Result<(), NoMemory>
    ensures { OnOk result (tallies.new.items
        ≡ tallies.old.items ++ counting.new_tally place (walked.wish_in objects.now (number, line.now)) holding.now) }
{
    if let Some(wish) = wish_in(objects, number, line) {
        let lack: Lack = wish.lack;
        let watch = Watch {
            place,
            wish: Wish { lack, ..wish },
            met: true,
        };
        tallies.push(tally_of(&watch, holding))?;
    }
    Ok(())
}

fn tell_all(found: &mut Vec<Option<Finding>>, tallies: &[Tally])
    ensures { found.new.items ≡ counting.told_tallies tallies.now found.old.items }
{
    for tally in tallies {
        tell_one(found, tally);
    }
}

fn tell_one(found: &mut Vec<Option<Finding>>, tally: &Tally)
    ensures { found.new.items ≡ counting.told_tally found.old.items tally.now }
{
    if tally.is_met() || tally.watch.place >= found.len() {
        return;
    }
    found[tally.watch.place] = Some(Finding {
        lack: tally.watch.wish.lack,
        table: Some(tally.watch.wish.table),
    });
}
