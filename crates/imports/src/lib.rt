// Kind 17: the imports of the component binary document.
#![tactic(auto)]

mod straight;

ghost use Rattle.std.specs.Prelude.{◌<◌, ◌≡◌};
ghost use Rattle.fields.specs.Answers.{left};
ghost use Rattle.imports.specs.Write.{shape_of, measured_import, write_import};

use fields::{Answer, Fault, Field, Refusal, Shape};

// The shape of a kind: an extern name and a reference.
pub fn shape_of(kind: u32) -> Option<Shape>
    ensures { result ≡ shape_of kind }
{
    match kind {
        17 => Some(fields::two_of(
            Field::Nothing,
            Field::Nothing,
            Field::ExternName,
            Field::Reference,
        )),
        _ => None,
    }
}

// The size of an import row, or why it is refused, room apart.
pub fn measure(row: &[u32], pool: &[u8]) -> Answer
    ensures { result ≡ measured_import row.now pool.now }
{
    let kind = fields::kind_of(row);
    if kind == 17 {
        if let Some(size) = straight::import_size(row, pool) {
            return Ok(size);
        }
    }
    writing::measure_row(shape_of(kind), row, pool)
}

// An import row judged beside its pool, and written into out from `at` on.
pub fn write(row: &[u32], pool: &[u8], out: &mut [u8], at: usize) -> Answer
    ensures { left result out.new ≡ write_import row.now pool.now out.old at }
{
    let size = measure(row, pool)?;
    if writing::fits(size, at, out.len()) {
        straight::put_import(row, pool, out, at);
        return Ok(size);
    }
    Err(Fault {
        why: Refusal::Room,
        value: size,
    })
}
