// Kinds 0 to 16: the defined, function and resource types of the component binary document.
#![tactic(auto)]

mod counted;
mod function;
mod optional;
mod resource;
mod small;
pub mod steps;
mod straight;

ghost use Rattle.std.specs.Prelude.{Some, ◌≡◌};
ghost use Rattle.fields.specs.Answers.{left};
ghost use Rattle.types.specs.Table as Table;
ghost use Rattle.types.specs.Write.{shape_of, measured_type, write_type};

use fields::{Answer, Fault, Field, Refusal, Shape};
pub use steps::{write_head, write_result};

// A lead and two fields.
fn two(lead: u8, a: Field, b: Field) -> Shape
    ensures { result ≡ Table.two lead a b }
{
    fields::two_of(Field::Fixed(lead), Field::Nothing, a, b)
}

// A lead, a count and as many groups of two fields.
fn many(lead: u8, c: Field, d: Field) -> Shape
    ensures { result ≡ Table.many lead c d }
{
    fields::many_of(
        Field::Fixed(lead),
        Field::Nothing,
        Field::Nothing,
        c,
        d,
        Field::Nothing,
    )
}

// The shape of a kind: a line of the table for each.
pub fn shape_of(kind: u32) -> Option<Shape>
    ensures { result ≡ shape_of kind }
{
    match kind {
        0 => Some(fields::two_of(
            Field::Nothing,
            Field::Nothing,
            Field::Primitive,
            Field::Nothing,
        )),
        1 => Some(many(0x72, Field::Name, Field::Value)),
        2 => Some(many(0x71, Field::Name, Field::OptionalThenZero)),
        3 => Some(two(0x70, Field::Value, Field::Nothing)),
        4 => Some(two(0x63, Field::Value, Field::Value)),
        5 => Some(two(0x67, Field::Value, Field::Index)),
        6 => Some(many(0x6f, Field::Value, Field::Nothing)),
        7 => Some(many(0x6e, Field::Name, Field::Nothing)),
        8 => Some(many(0x6d, Field::Name, Field::Nothing)),
        9 => Some(two(0x6b, Field::Value, Field::Nothing)),
        10 => Some(two(0x6a, Field::Optional, Field::Optional)),
        11 => Some(two(0x69, Field::Index, Field::Nothing)),
        12 => Some(two(0x68, Field::Index, Field::Nothing)),
        13 => Some(two(0x65, Field::Optional, Field::Nothing)),
        14 => Some(two(0x66, Field::Optional, Field::Nothing)),
        15 => Some(fields::many_of(
            Field::Nothing,
            Field::Nothing,
            Field::Async,
            Field::Name,
            Field::Value,
            Field::Result,
        )),
        16 => Some(two(0x3f, Field::Rep, Field::OptionalIndex)),
        _ => None,
    }
}

// The size of a type row, or why it is refused, room apart.
pub fn measure(row: &[u32], pool: &[u8]) -> Answer
    ensures { result ≡ measured_type row.now pool.now }
{
    if let Some(size) = straight::row_size(row, pool) {
        return Ok(size);
    }
    writing::measure_row(shape_of(fields::kind_of(row)), row, pool)
}

// A type row judged beside its pool, and written into out from `at` on.
pub fn write(row: &[u32], pool: &[u8], out: &mut [u8], at: usize) -> Answer
    ensures { left result out.new ≡ write_type row.now pool.now out.old at }
{
    if let Some(done) = straight::write_small(row, pool, out, at) {
        return Ok(done);
    }
    let size = measure(row, pool)?;
    if writing::fits(size, at, out.len()) {
        straight::put_row(row, pool, out, at);
        return Ok(size);
    }
    Err(Fault {
        why: Refusal::Room,
        value: size,
    })
}
