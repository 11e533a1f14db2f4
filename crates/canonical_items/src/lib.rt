// Canonicals at the front of an input, read by straight code of each class; what it does not read is refused by the walk.
#![tactic(auto)]

mod options;
mod short;

ghost use Rattle.std.specs.Prelude.{ℕ, ◌<◌, ◌≤◌, ◌≡◌, length};
ghost use Rattle.fields.specs.Answers.{left_row};
ghost use Rattle.fields.specs.Limits.{input_bytes};
ghost use Rattle.reading.specs.Scan.{byte};
ghost use Rattle.reading.specs.Read.{scanned, filled};
ghost use Rattle.reading.specs.inside.Tried.{left_tried, tried, tried_found};
ghost use Rattle.canonicals.specs.inside.Class.{shape_for};
ghost use Rattle.canonicals.specs.Table.{lift_bytes};
ghost use Rattle.canonical_items.specs.ReadCanonical.{type_third, read_lift, read_canonical};

use crate::options::{behind_zero, read_lift, read_options};
use crate::short::{Short, short_item, store_short};
use canonicals::Class;
use fields::{Extent, Field, Read, Site};

// The item of a class, whose lead is of no grade above.
fn read_class(class: Class, kind: u32, grade: u32, input: &[u8], row: &mut [u32]) -> Option<Extent>
    requires { (0 < length input.now) × (length input.now ≤ input_bytes) × (1 ≤ grade) }
    ensures { (lead b : ℕ) → lead ≤ grade → byte input.now 0 ≡ b → left_tried result row.new ≡ tried_found (shape_for class b) kind lead grade input.now row.old }
{
    match class {
        Class::Nothing => store_short(
            kind,
            1,
            short_item(Short::Nothing, Short::Nothing, 1, input),
            row,
        ),
        Class::Zero => {
            let from = behind_zero(input)?;
            store_short(
                kind,
                1,
                short_item(Short::Nothing, Short::Nothing, from, input),
                row,
            )
        }
        Class::Index => store_short(
            kind,
            2,
            short_item(Short::Index, Short::Nothing, 1, input),
            row,
        ),
        Class::ZeroIndex => {
            let from = behind_zero(input)?;
            store_short(
                kind,
                2,
                short_item(Short::Index, Short::Nothing, from, input),
                row,
            )
        }
        Class::Indices => store_short(
            kind,
            3,
            short_item(Short::Index, Short::Index, 1, input),
            row,
        ),
        Class::Flag => store_short(
            kind,
            2,
            short_item(Short::Flag, Short::Nothing, 1, input),
            row,
        ),
        Class::IndexFlag => store_short(
            kind,
            3,
            short_item(Short::Index, Short::Flag, 1, input),
            row,
        ),
        Class::RepIndex => store_short(
            kind,
            3,
            short_item(Short::Rep, Short::Index, 1, input),
            row,
        ),
        Class::Options => read_options(kind, grade, 1, input, row),
        Class::ZeroOptions => {
            let from = behind_zero(input)?;
            read_options(kind, grade, from, input, row)
        }
        Class::Not => None,
    }
}

// The lift at the front of the input, where its two bytes 00 are there.
fn try_lift(grade: u32, input: &[u8], row: &mut [u32]) -> Option<Extent>
    requires { (0 < length input.now) × (length input.now ≤ input_bytes) × (1 ≤ grade) × (byte input.now 0 ≡ 0) }
    ensures { left_tried result row.new ≡ tried (scanned 1 grade lift_bytes input.now) (type_third (filled 256 1 grade lift_bytes input.now)) row.old }
{
    let from = behind_zero(input)?;
    read_lift(grade, from, input, row)
}

// A lift, or why there is none.
fn lift(input: &[u8], grade: u32, row: &mut [u32]) -> Read
    requires { byte input.now 0 ≡ 0 }
    ensures { left_row result row.new ≡ read_lift grade input.now row.old }
{
    if reading::is_within(1, grade, input) {
        if let Some(item) = try_lift(grade, input, row) {
            return Ok(item);
        }
    }
    let shape = fields::many_of(
        Field::Fixed(0x00),
        Field::Fixed(0x00),
        Field::Index,
        Field::Choice,
        Field::Nothing,
        Field::Index,
    );
    reading::item_refusal(Some(shape), 1, grade, input)
}

// The canonical at the front of the input, filled into the row.
pub fn read_canonical(input: &[u8], grade: u32, row: &mut [u32]) -> Read
    ensures { left_row result row.new ≡ read_canonical grade input.now row.old }
{
    let first = fields::first_of(input);
    if first == 0x00 {
        return lift(input, grade, row);
    }
    let kind = 256 + (first as u32);
    let class = canonicals::class_of(kind);
    let lead = fields::grade_of(Site::CanonLead, first);
    if reading::is_within(lead, grade, input) {
        if let Some(item) = read_class(class, kind, grade, input, row) {
            return Ok(item);
        }
    }
    reading::item_refusal(canonicals::shape_of(kind), lead, grade, input)
}
