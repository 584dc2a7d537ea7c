ghost use Rattle.std.specs.Prelude.{◌≡◌, ◌⊎◌, ◌≤◌, ◌<◌, ◌+◌, ◌↔◌, [], ◌∷◌, ◌++◌, length, Ok, IfOk, IfErr, OnOk, OnErr, IsErrOf};
ghost use Rattle.dialogue_session.specs.Filling.{IsRefusedAs, filled};
ghost use Rattle.dialogue_session.specs.Private.{effect_count, fresh, refused, with_effect, with_requests, with_variable};
ghost use Rattle.dialogue_session.specs.Private.{without_effects, without_requests};

use crate::filling::{Resolved, resolve};
use crate::variables::Variables;
use enq_base::{Effect, Items, Name, NoMemory, Parts, Refusal, TEXT_BYTES};
use lock_collector::{CollectFault, Collector};
use lock_entry::Request;
use std::alloc::Global;
use std::marker::Model;

const EFFECTS_LIMIT: usize = 200;

/// The private side of a session: its variables, at most 200 effects (Updates in the SAP System, update function
/// modules of a unit of work), and a container of at most 64 lock requests (The SAP Lock Concept, lock container).
#[derive(Drop)]
pub struct Dialogue {
    session: Name,
    variables: Variables,
    v1: Vec<Effect>,
    v2: Vec<Effect>,
    collector: Collector,
}

impl Model for Dialogue {
    ghost use Rattle.std.specs.Prelude.{◌≤◌, ◌+◌, length};
    ghost use Rattle.dialogue_session.specs.Private.{DialogueView};

    ghost Value = { DialogueView };

    ghost view = { λ d. record {
      side = record {
        session = d.session;
        variables = d.variables.items;
        v1 = d.v1.items;
        v2 = d.v2.items;
        container = d.collector;
      };
      room = d.variables.room;
    } };

    ghost invariant = { λ d. length d.v1.items + length d.v2.items ≤ 200 };
}

impl Dialogue {
    /// The private side of a session that has just logged on. It takes no memory yet.
    pub fn new(alloc: Global, session: Name) -> Dialogue
        ensures { result.side ≡ fresh session }
    {
        Dialogue {
            session,
            variables: Variables::new(alloc),
            v1: Vec::new(alloc),
            v2: Vec::new(alloc),
            collector: Collector::new(alloc),
        }
    }

    /// The session whose side it is.
    pub fn session(&self) -> Name
        ensures { result ≡ self.now.side.session }
    {
        self.session
    }

    /// Takes the memory for one variable more.
    pub fn make_room(&mut self) -> Result<(), NoMemory>
        ensures side { self.new.side ≡ self.old.side }
        ensures room { OnOk result (1 ≤ self.new.room) }
    {
        self.variables.make_room()
    }

    /// Lets a text stand for the name of a variable. There is room for it, so that it can't fail. The cost is a walk
    /// over the variables.
    pub fn set_variable(&mut self, name: Name, text: &[u8])
        requires room { 1 ≤ self.old.room }
        requires text { length text.now ≤ TEXT_BYTES }
        ensures { self.new.side ≡ with_variable name text.now self.old.side }
    {
        self.variables.set(name, text);
    }

    /// A part of a line with texts in place of the names of variables. The cost is one look at each byte, and a walk
    /// over the variables for each name.
    pub fn resolve<'a>(&self, alloc: Global, part: &'a [u8]) -> Result<Resolved<'a>, Refusal>
        ensures filled { IfOk result (λ text. filled self.now.side.variables part.now ≡ Ok text) }
        ensures refused { IfErr result (IsRefusedAs (filled self.now.side.variables part.now)) }
    {
        resolve(alloc, &self.variables, part)
    }

    /// Registers an effect for a part of the session's unit.
    pub fn effect(&mut self, part: u8, effect: Effect) -> Result<(), Refusal>
        requires { (part ≡ 1) ⊎ (part ≡ 2) }
        ensures registered { OnOk result (self.new.side ≡ with_effect part effect self.old.side) }
        ensures unchanged { OnErr result (self.new ≡ self.old) }
        ensures full { (200 ≤ effect_count self.old.side) ↔ IsErrOf result Refusal.UnitTooLarge }
        ensures refused { IfErr result (λ r. (r ≡ Refusal.UnitTooLarge) ⊎ (r ≡ Refusal.NoMemory)) }
    {
        if self.v1.len() + self.v2.len() >= EFFECTS_LIMIT {
            return Err(Refusal::UnitTooLarge);
        }
        if part == 1 {
            push(&mut self.v1, effect)
        } else {
            push(&mut self.v2, effect)
        }
    }

    /// Collects lock requests, all or none.
    pub fn collect(&mut self, requests: &[Request]) -> Result<(), Refusal>
        ensures collected { OnOk result (self.new.side ≡ with_requests requests.now self.old.side) }
        ensures unchanged { OnErr result (self.new ≡ self.old) }
        ensures full { (64 < length self.old.side.container + length requests.now)
            ↔ IsErrOf result Refusal.ContainerFull }
        ensures refused { IfErr result (λ r. (r ≡ Refusal.ContainerFull) ⊎ (r ≡ Refusal.NoMemory)) }
    {
        refused(self.collector.add(requests))
    }

    /// The requests that were collected, in order.
    pub fn requests(&self) -> &[Request]
        ensures { result.now ≡ self.now.side.container }
    {
        self.collector.requests()
    }

    /// Empties the container. It takes no memory.
    pub fn reset(&mut self)
        ensures { self.new.side ≡ without_requests self.old.side }
    {
        self.collector.reset();
    }

    /// The effects that were registered, copied.
    pub fn parts(&self, alloc: Global) -> Result<Parts, NoMemory>
        ensures { IfOk result (λ parts. parts ≡ record { v1 = self.now.side.v1; v2 = self.now.side.v2 }) }
    {
        let v1 = copies(alloc, self.v1.as_slice())?;
        let v2 = copies(alloc, self.v2.as_slice())?;
        Ok(Parts {
            v1: Items::from_vec(v1),
            v2: Items::from_vec(v2),
        })
    }

    /// Drops the effects, and keeps the container. It takes no memory.
    pub fn drop_effects(&mut self)
        ensures { self.new.side ≡ without_effects self.old.side }
    {
        self.v1.clear();
        self.v2.clear();
    }

    /// Drops the effects and empties the container. It takes no memory.
    pub fn clear(&mut self)
        ensures { self.new.side ≡ without_requests (without_effects self.old.side) }
    {
        self.drop_effects();
        self.reset();
    }
}

fn refused(answer: Result<(), CollectFault>) -> Result<(), Refusal>
    ensures { result ≡ refused answer }
{
    match answer {
        Ok(()) => Ok(()),
        Err(CollectFault::Full(_)) => Err(Refusal::ContainerFull),
        Err(CollectFault::NoMemory) => Err(Refusal::NoMemory),
    }
}

fn push(effects: &mut Vec<Effect>, effect: Effect) -> Result<(), Refusal>
    ensures pushed { OnOk result (effects.new.items ≡ effects.old.items ++ effect ∷ []) }
    ensures unchanged { OnErr result (effects.new.items ≡ effects.old.items) }
    ensures refused { IfErr result (λ r. r ≡ Refusal.NoMemory) }
{
    match effects.push(effect) {
        Ok(()) => Ok(()),
        Err(_) => Err(Refusal::NoMemory),
    }
}

fn copies(alloc: Global, effects: &[Effect]) -> Result<Vec<Effect>, NoMemory>
    ensures { IfOk result (λ copies. copies.items ≡ effects.now) }
{
    let mut copies = Vec::new(alloc);
    for effect in effects {
        copies.push(effect.copy(alloc)?)?;
    }
    Ok(copies)
}
