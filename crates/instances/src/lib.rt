// Kinds 18 to 21: the core instances and the instances of the component binary document.
#![tactic(auto)]

mod component;
mod core_rows;
mod head;

ghost use Rattle.std.specs.Prelude.{Some, ◌≡◌};
ghost use Rattle.fields.specs.Answers.{left};
ghost use Rattle.instances.specs.Write.{core_shape_of, measured_core_instance, write_core_instance, shape_of, measured_instance, write_instance};
ghost use Rattle.instances.specs.inside.Head.{instantiate_shape, export_items_shape};

use fields::{Answer, Fault, Field, Refusal, Shape};

// 00, an index, a count and as many arguments: a name and a field.
fn instantiate(two: Field) -> Shape
    ensures { result ≡ instantiate_shape two }
{
    fields::many_of(
        Field::Fixed(0x00),
        Field::Nothing,
        Field::Index,
        Field::Name,
        two,
        Field::Nothing,
    )
}

// 01, a count and as many items: two fields.
fn export_items(one: Field, two: Field) -> Shape
    ensures { result ≡ export_items_shape one two }
{
    fields::many_of(
        Field::Fixed(0x01),
        Field::Nothing,
        Field::Nothing,
        one,
        two,
        Field::Nothing,
    )
}

// The shape of a kind of core instance: a line of the table for each.
pub fn core_shape_of(kind: u32) -> Option<Shape>
    ensures { result ≡ core_shape_of kind }
{
    match kind {
        18 => Some(instantiate(Field::Argument)),
        20 => Some(export_items(Field::Name, Field::CoreSortIndex)),
        _ => None,
    }
}

// The shape of a kind of instance: a line of the table for each.
pub fn shape_of(kind: u32) -> Option<Shape>
    ensures { result ≡ shape_of kind }
{
    match kind {
        19 => Some(instantiate(Field::SortIndex)),
        21 => Some(export_items(Field::ExternName, Field::SortIndex)),
        _ => None,
    }
}

// The size of a core instance's row, or why it is refused, room apart.
pub fn measure_core(row: &[u32], pool: &[u8]) -> Answer
    ensures { result ≡ measured_core_instance row.now pool.now }
{
    if let Some(size) = core_rows::row_size(row, pool) {
        return Ok(size);
    }
    writing::measure_row(core_shape_of(fields::kind_of(row)), row, pool)
}

// A core instance's row judged beside its pool, and written into out from `at` on.
pub fn write_core(row: &[u32], pool: &[u8], out: &mut [u8], at: usize) -> Answer
    ensures { left result out.new ≡ write_core_instance row.now pool.now out.old at }
{
    let size = measure_core(row, pool)?;
    if writing::fits(size, at, out.len()) {
        core_rows::put_row(row, pool, out, at);
        return Ok(size);
    }
    Err(Fault {
        why: Refusal::Room,
        value: size,
    })
}

// The size of an instance's row, or why it is refused, room apart.
pub fn measure(row: &[u32], pool: &[u8]) -> Answer
    ensures { result ≡ measured_instance row.now pool.now }
{
    if let Some(size) = component::row_size(row, pool) {
        return Ok(size);
    }
    writing::measure_row(shape_of(fields::kind_of(row)), row, pool)
}

// An instance's row judged beside its pool, and written into out from `at` on.
pub fn write(row: &[u32], pool: &[u8], out: &mut [u8], at: usize) -> Answer
    ensures { left result out.new ≡ write_instance row.now pool.now out.old at }
{
    let size = measure(row, pool)?;
    if writing::fits(size, at, out.len()) {
        component::put_row(row, pool, out, at);
        return Ok(size);
    }
    Err(Fault {
        why: Refusal::Room,
        value: size,
    })
}
