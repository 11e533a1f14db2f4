// Shapes by their fields.
ghost use Rattle.std.specs.Prelude.{◌≡◌};
ghost use Rattle.fields.specs.Table.{two_of, many_of};

use crate::{Field, Shape};

// The shape of a lead, a byte and two fields.
pub fn two_of(lead: Field, zero: Field, first: Field, second: Field) -> Shape
    ensures { result ≡ two_of lead zero first second }
{
    Shape {
        lead,
        zero,
        first,
        second,
        counted: false,
        one: Field::Nothing,
        two: Field::Nothing,
        last: Field::Nothing,
    }
}

// The shape of a lead, a byte and a field, a count and as many groups of two fields, and a last field.
pub fn many_of(lead: Field, zero: Field, first: Field, one: Field, two: Field, last: Field) -> Shape
    ensures { result ≡ many_of lead zero first one two last }
{
    Shape {
        lead,
        zero,
        first,
        second: Field::Nothing,
        counted: true,
        one,
        two,
        last,
    }
}
