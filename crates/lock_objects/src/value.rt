ghost use Rattle.std.specs.Prelude.{◌≡◌};
ghost use Rattle.lock_objects.specs.Arguments.{value_of_text};

use enq_base::{Name, NoMemory, Short, Text};
use std::alloc::AllocFailed;

/// What a field is asked for: a text, the initial value (the effect of `X_<field>`), or a text that is too long for any
/// field.
#[derive(Clone, Copy, Debug, PartialEq, Eq)]
pub enum Value {
    Given(Short),
    Initial,
    Long,
}

/// A value of a field.
#[derive(Clone, Copy, Debug, PartialEq, Eq)]
pub struct FieldValue {
    pub field: Name,
    pub value: Value,
}

/// Why values make no lock arguments.
#[derive(Clone, Copy, Debug, PartialEq, Eq)]
pub enum ArgFault {
    /// The object has no such field.
    UnknownField,
    /// The value has more bytes than the field.
    TooWide,
    /// The value has a byte outside 0x20 to 0x7E, or `@`.
    BadByte,
    /// The field has a value already.
    Repeat,
    NoMemory,
}

impl From<NoMemory> for ArgFault {
    ghost use Rattle.std.specs.Prelude.{◌≡◌};
    ghost use Rattle.lock_objects.specs.declared.value.ArgFault.{ArgFault};

    ghost from_gives = { λ _ f. f ≡ ArgFault.NoMemory };

    fn from(_error: NoMemory) -> ArgFault {
        ArgFault::NoMemory
    }
}

impl<T: Drop> From<AllocFailed<T>> for ArgFault {
    ghost use Rattle.std.specs.Prelude.{◌≡◌};
    ghost use Rattle.lock_objects.specs.declared.value.ArgFault.{ArgFault};

    ghost from_gives = { λ _ f. f ≡ ArgFault.NoMemory };

    fn from(_error: AllocFailed<T>) -> ArgFault {
        ArgFault::NoMemory
    }
}

impl Value {
    /// The value that a text gives.
    pub fn of_text(text: &Text) -> Value
        ensures { result ≡ value_of_text text.now }
    {
        match Short::new(text.bytes()) {
            Some(short) => Value::Given(short),
            None => Value::Long,
        }
    }
}
