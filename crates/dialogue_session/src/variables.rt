ghost use Rattle.std.specs.Prelude.{◌≡◌, ◌≤◌, [], length, OnOk};
ghost use Rattle.std.specs.List.{position};
ghost use Rattle.std.specs.Option.{option_map};
ghost use Rattle.dialogue_session.specs.Variables.{is_called, text_of, with_text};

use enq_base::{Name, NoMemory, ShortBytes, TEXT_BYTES};
use std::alloc::Global;
use std::marker::Model;

/// A name, and the text that stands for it.
#[derive(Clone, Copy)]
pub struct Variable {
    pub name: Name,
    pub text: ShortBytes<TEXT_BYTES>,
}

/// A session's variables, each name once, in the order in which the names came. A name is found by a walk over them.
#[derive(Drop)]
pub(crate) struct Variables {
    items: Vec<Variable>,
}

impl Model for Variables {
    ghost use Rattle.std.specs.Prelude.{◌-◌, vec_len, vec_capacity};
    ghost use Rattle.dialogue_session.specs.Variables.{VariablesView};

    ghost Value = { VariablesView };

    ghost view = { λ v. record { items = v.items.items; room = vec_capacity v.items - vec_len v.items } };
}

impl Variables {
    /// No variables. It takes no memory.
    pub(crate) fn new(alloc: Global) -> Variables
        ensures { result.items ≡ [] }
    {
        Variables {
            items: Vec::new(alloc),
        }
    }

    /// Takes the memory for one variable more.
    pub(crate) fn make_room(&mut self) -> Result<(), NoMemory>
        ensures items { self.new.items ≡ self.old.items }
        ensures room { OnOk result (1 ≤ self.new.room) }
    {
        self.items.reserve(1)?;
        Ok(())
    }

    /// Lets the text stand for the name. There is room for it.
    pub(crate) fn set(&mut self, name: Name, text: &[u8])
        requires room { 1 ≤ self.old.room }
        requires text { length text.now ≤ TEXT_BYTES }
        ensures { self.new.items ≡ with_text name text.now self.old.items }
    {
        let Some(text) = ShortBytes::new(text) else {
            unreachable!()
        };
        let variable = Variable { name, text };
        match place_of(self.items.as_slice(), &name) {
            Some(place) => self.items[place] = variable,
            None => self.items.push_reserved(variable),
        }
    }

    /// The text that stands for the name.
    pub(crate) fn text_of(&self, name: &Name) -> Option<&[u8]>
        ensures { option_map (λ text. text.now) result ≡ text_of self.now.items name.now }
    {
        let place = place_of(self.items.as_slice(), name)?;
        Some(self.items[place].text.bytes())
    }
}

fn place_of(variables: &[Variable], name: &Name) -> Option<usize>
    ensures { result ≡ position (is_called name.now) variables.now }
{
    variables.iter().position(|variable| variable.name.is(name))
}
