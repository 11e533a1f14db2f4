// Straight reading: an arm for every first byte, with the component binary document's names.
ghost use Rattle.std.specs.Prelude.{◌<◌, ◌≤◌, ◌∷◌, [], ◌≡◌, length};
ghost use Rattle.fields.specs.declared.Field.TheVariants as field;
ghost use Rattle.fields.specs.Leaf.{Fine};
ghost use Rattle.reading.specs.Fill.{fill};
ghost use Rattle.reading.specs.Read.{scanned, filled};
ghost use Rattle.reading.specs.inside.Stages.{counted_scan, counted_fill};
ghost use Rattle.reading.specs.Scan.{byte, scan};
ghost use Rattle.reading.specs.inside.Tried.{left_tried, tried, tried_found};
ghost use Rattle.items.specs.inside.Group.{counted_of};
ghost use Rattle.items.specs.ReadType.{kind_of, lead_grade};
ghost use Rattle.types.specs.Write.{shape_of};
ghost use Rattle.types.specs.inside.Function.{function_shape};
ghost use Rattle.fields.specs.Limits.{input_bytes};

use crate::groups::{fields_end, fill_fields, fill_groups, group_wide, groups_end};
use crate::item::{
    fixed_item, index_item, optional_item, optionals_item, primitive_item, store_item, value_item,
    values_item,
};
use crate::resource::resource_item;
use fields::Extent;
use numbers::seen_unsigned;

// record, variant, tuple, flags, enum: a count and as many groups.
fn read_counted(kind: u32, grade: u32, input: &[u8], row: &mut [u32]) -> Option<Extent>
    requires { (0 < length input.now) × (length input.now ≤ input_bytes) }
    ensures { left_tried result row.new ≡ tried (counted_scan 1 grade (counted_of kind) input.now 1 1) (kind ∷ counted_fill 1 grade (counted_of kind) input.now 1) row.old }
{
    let count = seen_unsigned(&input[1..])?;
    let n = count.value as usize;
    let from = 1 + count.took;
    let end = groups_end(kind, grade, input, from, n)?;
    let words = 2 + n * group_wide(kind);
    if !reading::has_room(words, row.len()) {
        return None;
    }
    row[0] = kind;
    row[1] = count.value;
    fill_groups(kind, grade, input, from, n, row);
    Some(Extent { words, took: end })
}

// function: its first byte, parameters and a result, which is read with the parameters and stored behind them.
fn read_function(a: u32, grade: u32, input: &[u8], row: &mut [u32]) -> Option<Extent>
    requires input_nonzero { (0 < length input.now) × (length input.now ≤ input_bytes) }
    requires input_value { (scan 1 grade field.Async input.now ≡ Fine 1 1) × (fill grade field.Async 0 input.now ≡ a ∷ []) }
    ensures { left_tried result row.new ≡ tried (scanned 1 grade function_shape input.now) (filled 15 1 grade function_shape input.now) row.old }
{
    let count = seen_unsigned(&input[1..])?;
    let n = count.value as usize;
    let from = 1 + count.took;
    let end = fields_end(grade, input, from, n)?;
    let last = reading::result(grade, &input[end..])?;
    let words = 5 + n * 4;
    if !reading::has_room(words, row.len()) {
        return None;
    }
    row[0] = 15;
    row[1] = a;
    row[2] = count.value;
    fill_fields(grade, input, from, n, row, 3);
    row[3 + n * 4] = last.a;
    row[4 + n * 4] = last.b;
    Some(Extent {
        words,
        took: end + last.took,
    })
}

// The item that begins with a byte, whose kind is of no grade above.
pub fn by_first(first: u8, grade: u32, input: &[u8], row: &mut [u32]) -> Option<Extent>
    requires input_nonzero { (0 < length input.now) × (length input.now ≤ input_bytes) × (byte input.now 0 ≡ first) }
    requires le_grade { (1 ≤ grade) × (lead_grade (kind_of first) ≤ grade) }
    ensures { left_tried result row.new ≡ tried_found (shape_of (kind_of first)) (kind_of first) (lead_grade (kind_of first)) grade input.now row.old }
{
    match first {
        // record
        0x72 => read_counted(1, grade, input, row),
        // variant
        0x71 => read_counted(2, grade, input, row),
        // list
        0x70 => store_item(3, value_item(grade, input), row),
        // map
        0x63 => store_item(4, values_item(grade, input), row),
        // list of fixed length
        0x67 => store_item(5, fixed_item(grade, input), row),
        // tuple
        0x6f => read_counted(6, grade, input, row),
        // flags
        0x6e => read_counted(7, grade, input, row),
        // enum
        0x6d => read_counted(8, grade, input, row),
        // option
        0x6b => store_item(9, value_item(grade, input), row),
        // result
        0x6a => store_item(10, optionals_item(grade, input), row),
        // own
        0x69 => store_item(11, index_item(input), row),
        // borrow
        0x68 => store_item(12, index_item(input), row),
        // future
        0x65 => store_item(13, optional_item(grade, input), row),
        // stream
        0x66 => store_item(14, optional_item(grade, input), row),
        // function
        0x40 => read_function(0, grade, input, row),
        // async function
        0x43 => {
            if grade < 2 {
                return None;
            }
            read_function(1, grade, input, row)
        }
        // resource
        0x3f => store_item(16, resource_item(input), row),
        // a primitive
        _ => store_item(0, primitive_item(grade, input), row),
    }
}
