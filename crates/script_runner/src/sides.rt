ghost use Rattle.std.specs.Prelude.{◌≡◌, ◌⊎◌, ◌≤◌, [], false, length, is_some, IfOk, IsTrue, OnErr, OnOk};
ghost use Rattle.std.specs.Option.{option_map};
ghost use Rattle.dialogue_session.specs.Private.{with_variable, without_effects, without_requests};
ghost use Rattle.script_runner.specs.Answers.{IsGivenBy};
ghost use Rattle.script_runner.specs.Lines.{collected, registered};
ghost use Rattle.script_runner.specs.Sides.{container_of, parts_of, side_of, variable_room, with_new_side, with_side, without_side};

use dialogue_session::Dialogue;
use enq_base::{Effect, Items, Name, NoMemory, Parts, Refusal, TEXT_BYTES};
use indexmap::IndexMap;
use lock_entry::Request;
use std::alloc::Global;
use std::marker::Model;

/// The private sides of the sessions that have logged on, in the order of their logons. Each is found by its session's
/// name without a walk.
#[derive(Drop)]
pub struct Sides {
    by_name: IndexMap<Name, Dialogue>,
}

impl Model for Sides {
    ghost use Rattle.std.specs.Prelude.{map};
    ghost use Rattle.indexmap.specs.IndexMap.{spare, values};
    ghost use Rattle.hall_calls.specs.Named.{AreNamed};
    ghost use Rattle.script_runner.specs.Sides.{SidesView};

    ghost Value = { SidesView };

    ghost view = { λ s. record {
      items = map (λ d. d.side) (values s.by_name);
      dialogues = values s.by_name;
      room = spare s.by_name;
    } };

    ghost invariant = { λ s. AreNamed (λ d. d.side.session) s.by_name.entries };
}

impl Sides {
    /// No private side. It takes no memory.
    pub fn new(alloc: Global) -> Sides
        ensures { result.items ≡ [] }
    {
        Sides {
            by_name: IndexMap::new(alloc),
        }
    }

    /// Whether the session has a private side.
    pub fn has_side(&self, name: &Name) -> bool
        ensures { result ≡ is_some (side_of self.now.items name.now) }
    {
        self.side_of(name).is_some()
    }

    /// The private side of the session.
    pub fn side_of(&self, name: &Name) -> Option<&Dialogue>
        ensures { option_map (λ side. side.now.side) result ≡ side_of self.now.items name.now }
    {
        self.by_name.get(name)
    }

    /// What the session has collected, copied.
    pub fn container(&self, alloc: Global, name: &Name) -> Result<Vec<Request>, NoMemory>
        ensures { IfOk result (λ requests. requests.items ≡ container_of self.now.items name.now) }
    {
        match self.side_of(name) {
            Some(side) => copies(alloc, side.requests()),
            None => Ok(Vec::new(alloc)),
        }
    }

    /// What the session has registered, copied.
    pub fn parts(&self, alloc: Global, name: &Name) -> Result<Parts, NoMemory>
        ensures { IfOk result (λ parts. parts ≡ parts_of self.now.items name.now) }
    {
        match self.side_of(name) {
            Some(side) => side.parts(alloc),
            None => Ok(Parts {
                v1: Items::from_vec(Vec::new(alloc)),
                v2: Items::from_vec(Vec::new(alloc)),
            }),
        }
    }

    /// Takes the memory for one more private side.
    pub fn make_room(&mut self) -> Result<(), NoMemory>
        ensures items { self.new.items ≡ self.old.items }
        ensures room { OnOk result (1 ≤ self.new.room) }
    {
        self.by_name.reserve(1)?;
        Ok(())
    }

    /// Takes the memory for one more variable of the session.
    pub fn make_variable_room(&mut self, name: &Name) -> Result<(), NoMemory>
        requires { IsTrue (is_some (side_of self.old.items name.now)) }
        ensures items { self.new.items ≡ self.old.items }
        ensures room { OnOk result (1 ≤ variable_room self.new name.now) }
    {
        let Some(side) = self.by_name.get_mut(name) else {
            unreachable!()
        };
        side.make_room()
    }

    /// Lets a text stand for a variable of the session. There is room for it.
    pub fn set_variable(&mut self, name: &Name, variable: Name, text: &[u8])
        requires room { 1 ≤ variable_room self.old name.now }
        requires text { length text.now ≤ TEXT_BYTES }
        ensures { self.new.items ≡ with_side name.now (with_variable variable text.now) self.old.items }
    {
        let Some(side) = self.by_name.get_mut(name) else {
            unreachable!()
        };
        side.set_variable(variable, text);
    }

    /// Makes the private side of a session that has logged on and has none yet. There is room for it.
    pub fn enter(&mut self, alloc: Global, session: Name)
        requires room { 1 ≤ self.old.room }
        requires free { is_some (side_of self.old.items session) ≡ false }
        ensures { self.new.items ≡ with_new_side session self.old.items }
    {
        let _ = self.by_name.insert(session, Dialogue::new(alloc, session));
    }

    /// Ends the private side of a session that has logged off.
    pub fn leave(&mut self, name: &Name)
        ensures { self.new.items ≡ without_side name.now self.old.items }
    {
        self.by_name.shift_remove(name);
    }

    /// Collects requests for the session, all or none.
    pub fn collect(&mut self, name: &Name, requests: &[Request]) -> Result<(), Refusal>
        requires { IsTrue (is_some (side_of self.old.items name.now)) }
        ensures given { IsGivenBy (λ _. self.new.items) (collected self.old.items name.now requests.now) result }
        ensures unchanged { OnErr result (self.new.items ≡ self.old.items) }
    {
        let Some(side) = self.by_name.get_mut(name) else {
            unreachable!()
        };
        side.collect(requests)
    }

    /// Registers an effect for a part of the session's unit.
    pub fn register(&mut self, name: &Name, part: u8, effect: Effect) -> Result<(), Refusal>
        requires side { IsTrue (is_some (side_of self.old.items name.now)) }
        requires part { (part ≡ 1) ⊎ (part ≡ 2) }
        ensures given { IsGivenBy (λ _. self.new.items) (registered self.old.items name.now part effect) result }
        ensures unchanged { OnErr result (self.new.items ≡ self.old.items) }
    {
        let Some(side) = self.by_name.get_mut(name) else {
            unreachable!()
        };
        side.effect(part, effect)
    }

    /// Drops the session's effects, and keeps its container.
    pub fn drop_effects(&mut self, name: &Name)
        ensures { self.new.items ≡ with_side name.now without_effects self.old.items }
    {
        if let Some(side) = self.by_name.get_mut(name) {
            side.drop_effects();
        }
    }

    /// Empties the session's container.
    pub fn reset(&mut self, name: &Name)
        ensures { self.new.items ≡ with_side name.now without_requests self.old.items }
    {
        if let Some(side) = self.by_name.get_mut(name) {
            side.reset();
        }
    }

    /// Drops the session's effects and empties its container.
    pub fn clear(&mut self, name: &Name)
        ensures { self.new.items ≡ with_side name.now (λ p. without_requests (without_effects p)) self.old.items }
    {
        if let Some(side) = self.by_name.get_mut(name) {
            side.clear();
        }
    }
}

fn copies(alloc: Global, requests: &[Request]) -> Result<Vec<Request>, NoMemory>
    ensures { IfOk result (λ copies. copies.items ≡ requests.now) }
{
    let mut copies = Vec::new(alloc);
    copies.extend_from_slice(requests)?;
    Ok(copies)
}
