ghost use Rattle.std.specs.Prelude.{◌≡◌, ◌<◌, length, IfSome, is_some, not, Some, None};
ghost use Rattle.std.specs.List.{find, list_any, position};
ghost use Rattle.std.specs.Str.{bytes_eq};
ghost use Rattle.lock_objects.specs.Objects as objects;

use crate::field::Field;
use enq_base::Name;

/// Whether two names are one.
pub fn is_name(a: &Name, b: &Name) -> bool
    ensures { result ≡ bytes_eq a.now b.now }
{
    a.is(b)
}

/// The field of this name.
pub fn field_named(fields: &[Field], name: &Name) -> Option<Field>
    ensures { result ≡ objects.field_named fields.now name.now }
{
    match place_of_field(fields, name) {
        Some(place) => Some(fields[place]),
        None => None,
    }
}

fn place_of_field(fields: &[Field], name: &Name) -> Option<usize>
    ensures place { result ≡ position (λ f. bytes_eq f.name name.now) fields.now }
    ensures within { IfSome result (λ i. i < length fields.now) }
{
    fields.iter().position(|f| is_name(&f.name, name))
}

/// The first name that is no field's.
pub fn first_unknown(fields: &[Field], names: &[Name]) -> Option<Name>
    ensures { result ≡ objects.first_unknown fields.now names.now }
{
    match place_of_unknown(fields, names) {
        Some(place) => Some(names[place]),
        None => None,
    }
}

fn place_of_unknown(fields: &[Field], names: &[Name]) -> Option<usize>
    ensures place { result ≡ position (λ n. not (is_some (objects.field_named fields.now n))) names.now }
    ensures within { IfSome result (λ i. i < length names.now) }
{
    names.iter().position(|n| is_unknown(fields, n))
}

fn is_unknown(fields: &[Field], name: &Name) -> bool
    ensures { result ≡ not (is_some (objects.field_named fields.now name.now)) }
{
    field_named(fields, name).is_none()
}
