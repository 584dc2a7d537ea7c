ghost use Rattle.std.specs.Prelude.{◌≡◌, ℕ, ◌||◌, ◌++◌, ◌∷◌, [], List, cond, length, map, true, IfOk, OnOk};
ghost use Rattle.std.specs.List.{flat_map};
ghost use Rattle.coverage.specs.declared.lack.Lack.TheVariants as lack;
ghost use Rattle.std.specs.Option.{option_map_or};
ghost use Rattle.lock_objects.specs.Objects.{Object};
ghost use Rattle.coverage.specs.Lacks.{Numbered, lack_in, lacks, own_finding, table_read};
ghost use Rattle.script_lang.specs.Sessions.{session_of};
ghost use Rattle.coverage.specs.Walked as walked;
ghost use Rattle.coverage.specs.Walked.{HasWalked, StepsOn, is_among, is_named, name_eq, session_named};

use crate::lack::{Finding, Lack};
use crate::lengths::uneven;
use crate::lines::{own_finding, table_read};
use crate::sessions::Sessions;
use enq_base::{Name, NoMemory};
use lock_objects::LockObject;
use script_lang::{ScriptLine, session_of};
use std::alloc::Global;
use std::collections::HashSet;
use std::marker::Model;

/// A walk over the lines of a script, which tells what they lack.
#[derive(Drop)]
pub struct Cover<'a> {
    objects: &'a [LockObject],
    uneven: Vec<Name>,
    guarded: HashSet<Name>,
    sessions: Sessions,
    found: Vec<Option<Finding>>,
}

impl<'a> Model for Cover<'a> {
    ghost use Rattle.coverage.specs.Walked.{CoverView};

    ghost Value = { CoverView };

    ghost view = { λ c. record {
      objects = c.objects.now;
      uneven = c.uneven.items;
      guards = c.guarded.keys;
      sessions = c.sessions;
      found = c.found.items;
    } };
}

impl<'a> Cover<'a> {
    /// The walk before the first line.
    pub fn new(alloc: Global, objects: &'a [LockObject]) -> Result<Cover<'a>, NoMemory>
        ensures { IfOk result (HasWalked objects.now []) }
    {
        let uneven = uneven(alloc, objects)?;
        Ok(Cover {
            objects,
            uneven,
            guarded: HashSet::new(alloc),
            sessions: Sessions::new(alloc),
            found: Vec::new(alloc),
        })
    }

    /// The next line, with its number. A walk for which memory was wanting is of no more use.
    pub fn line(&mut self, alloc: Global, number: u32, line: &ScriptLine) -> Result<(), NoMemory>
        ensures { (objects : List Object) (lines : List Numbered) → HasWalked objects lines self.old
            → OnOk result (HasWalked objects (lines ++ (number, line.now) ∷ []) self.new) }
    {
        self.step(alloc, number, line)
    }

    fn step(&mut self, alloc: Global, number: u32, line: &ScriptLine) -> Result<(), NoMemory>
        ensures { OnOk result (StepsOn (number, line.now) self.old self.new) }
    {
        let Cover {
            objects,
            guarded,
            sessions,
            found,
            ..
        } = self;
        guard(guarded, line)?;
        turn(alloc, objects, sessions, found, number, line)?;
        note(objects, found, number, line)
    }

    /// What the lines lack: first the tables, by name, then the lines, in their order.
    pub fn end(self, alloc: Global) -> Result<Vec<Lack>, NoMemory>
        ensures { (objects : List Object) (lines : List Numbered) → HasWalked objects lines self.entry
            → IfOk result (λ found. found.items ≡ lacks objects lines) }
    {
        let Cover {
            uneven,
            guarded,
            found,
            ..
        } = self;
        let mut all = lengths(alloc, uneven.as_slice())?;
        add_lacks(&mut all, &guarded, found.as_slice())?;
        Ok(all)
    }
}

/// The table of a READ line is guarded.
fn guard(guarded: &mut HashSet<Name>, line: &ScriptLine) -> Result<(), NoMemory>
    ensures { OnOk result ((t : List ℕ) → is_among guarded.new.keys t
        ≡ (is_named t (table_read line.now) || is_among guarded.old.keys t)) }
{
    if let Some(table) = table_read(line) {
        guarded.insert(table)?;
    }
    Ok(())
}

fn turn(
    alloc: Global,
    objects: &[LockObject],
    sessions: &mut Sessions,
    found: &mut Vec<Option<Finding>>,
    number: u32,
    line: &ScriptLine,
) -> Result<(), NoMemory>
    ensures sessions { OnOk result ((n : List ℕ) → session_named sessions.new n
        ≡ cond (is_named n (session_of line.now))
        (walked.followed objects.now (length found.old.items) (walked.wish_in objects.now (number, line.now))
        line.now (session_named sessions.old n))
        (session_named sessions.old n)) }
    ensures found { OnOk result (found.new.items ≡ option_map_or
        (λ s. walked.told_on (session_named sessions.old s) line.now found.old.items)
        (session_of line.now) found.old.items) }
{
    match session_of(line) {
        Some(name) => {
            let place = found.len();
            sessions.follow(alloc, objects, &name, place, number, line, found)
        }
        None => Ok(()),
    }
}

/// What the line lacks by itself is found at once.
fn note(
    objects: &[LockObject],
    found: &mut Vec<Option<Finding>>,
    number: u32,
    line: &ScriptLine,
) -> Result<(), NoMemory>
    ensures { OnOk result (found.new.items ≡ found.old.items ++ own_finding objects.now (number, line.now) ∷ []) }
{
    match own_finding(objects, number, line) {
        Some(finding) => {
            let lack: Lack = finding.lack;
            let table = finding.table;
            found.push(Some(Finding { lack, table }))?;
        }
        None => {
            found.push(None)?;
        }
    }
    Ok(())
}

fn lengths(alloc: Global, tables: &[Name]) -> Result<Vec<Lack>, NoMemory>
    ensures { IfOk result (λ all. all.items ≡ map lack.Lengths tables.now) }
{
    let mut all = Vec::new(alloc);
    for table in tables {
        all.push(Lack::Lengths(*table))?;
    }
    Ok(all)
}

fn add_lacks(
    all: &mut Vec<Lack>,
    guarded: &HashSet<Name>,
    found: &[Option<Finding>],
) -> Result<(), NoMemory>
    ensures { OnOk result
        (all.new.items ≡ all.old.items ++ flat_map (lack_in (is_among guarded.now.keys)) found.now) }
{
    for finding in found {
        add_lack(all, guarded, finding)?;
    }
    Ok(())
}

fn add_lack(
    all: &mut Vec<Lack>,
    guarded: &HashSet<Name>,
    finding: &Option<Finding>,
) -> Result<(), NoMemory>
    ensures { OnOk result (all.new.items ≡ all.old.items ++ lack_in (is_among guarded.now.keys) finding.now) }
{
    if let Some(finding) = finding {
        if counts(guarded, finding) {
            all.push(finding.lack)?;
        }
    }
    Ok(())
}

fn counts(guarded: &HashSet<Name>, finding: &Finding) -> bool
    ensures { result ≡ option_map_or (is_among guarded.now.keys) finding.now.table true }
{
    match &finding.table {
        Some(table) => guarded.contains(table),
        None => true,
    }
}
