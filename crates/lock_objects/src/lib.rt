//! Lock objects, and the lock arguments that values of their fields make.
#![tactic(auto)]

mod argument;
mod field;
mod names;
mod object;
mod object_faults;
mod value;
mod value_faults;

pub use field::{Field, KeyTable, ObjectFault};
pub use object::LockObject;
pub use value::{ArgFault, FieldValue, Value};
