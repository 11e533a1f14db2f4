// Straight code by kind: an arm a kind, with the component binary document's names. Kinds are numbers, as in the rows that C hands over.
ghost use Rattle.std.specs.Prelude.{IfSome, ◌<◌, ◌≡◌, length, Ok};
ghost use Rattle.std.proofs.lemmas.List.Edits.{sets};
ghost use Rattle.fields.specs.Words.{word};
ghost use Rattle.writing.specs.Row.{measured_row, row_bytes};
ghost use Rattle.types.specs.Write.{shape_of};
ghost use Rattle.writing.specs.inside.Rows.{Fits, Tried};

use crate::{counted, function, resource, small};
use fields::{POOL_BYTES, ROW_WORDS};
use writing::fits;

// How many bytes a row makes, if all of it is seen to be right.
pub fn row_size(row: &[u32], pool: &[u8]) -> Option<usize>
    ensures { IfSome result (λ r. measured_row (shape_of (word row.now 0)) row.now pool.now ≡ Ok r) }
{
    if ROW_WORDS < row.len() {
        return None;
    }
    if POOL_BYTES < pool.len() {
        return None;
    }
    match fields::kind_of(row) {
        // a primitive
        0 => small::primitive_size(row),
        // record
        1 => counted::record_size(row, pool),
        // variant
        2 => counted::variant_size(row, pool),
        // list
        3 => small::value_row_size(row),
        // map
        4 => small::values_row_size(row),
        // list of fixed length
        5 => small::fixed_row_size(row),
        // tuple
        6 => counted::tuple_size(row),
        // flags
        7 => counted::labels_row_size(row, pool),
        // enum
        8 => counted::labels_row_size(row, pool),
        // option
        9 => small::value_row_size(row),
        // result
        10 => small::optionals_row_size(row),
        // own
        11 => small::index_row_size(row),
        // borrow
        12 => small::index_row_size(row),
        // future
        13 => small::optional_row_size(row),
        // stream
        14 => small::optional_row_size(row),
        // function
        15 => function::function_size(row, pool),
        // resource
        16 => resource::resource_size(row),
        _ => None,
    }
}

// The bytes of a row that is right and has room.
pub fn put_row(row: &[u32], pool: &[u8], out: &mut [u8], to: usize)
    requires { Fits (shape_of (word row.now 0)) row.now pool.now to (length out.old) }
    ensures { out.new ≡ sets out.old to (row_bytes (shape_of (word row.now 0)) pool.now row.now) }
{
    match fields::kind_of(row) {
        // a primitive
        0 => small::put_primitive(row, out, to),
        // record
        1 => counted::put_record(row, pool, out, to),
        // variant
        2 => counted::put_variant(row, pool, out, to),
        // list
        3 => small::put_value_row(0x70, row, out, to),
        // map
        4 => small::put_values_row(0x63, row, out, to),
        // list of fixed length
        5 => small::put_fixed_row(0x67, row, out, to),
        // tuple
        6 => counted::put_tuple(row, out, to),
        // flags
        7 => counted::put_labels_row(0x6e, row, pool, out, to),
        // enum
        8 => counted::put_labels_row(0x6d, row, pool, out, to),
        // option
        9 => small::put_value_row(0x6b, row, out, to),
        // result
        10 => small::put_optionals_row(0x6a, row, out, to),
        // own
        11 => small::put_index_row(0x69, row, out, to),
        // borrow
        12 => small::put_index_row(0x68, row, out, to),
        // future
        13 => small::put_optional_row(0x65, row, out, to),
        // stream
        14 => small::put_optional_row(0x66, row, out, to),
        // function
        15 => function::put_function(row, pool, out, to),
        // resource
        16 => resource::put_resource(0x3f, row, out, to),
        _ => {}
    }
}

// A row of a kind without names and counts; its size, or none where nothing was done. Both passes stand in the kind's own arm, which is
// faster than asking for the kind twice.
pub fn write_small(row: &[u32], pool: &[u8], out: &mut [u8], at: usize) -> Option<usize>
    ensures { Tried (shape_of (word row.now 0)) row.now pool.now out.old at result out.new }
{
    if POOL_BYTES < pool.len() {
        return None;
    }
    match fields::kind_of(row) {
        // a primitive
        0 => {
            let size = small::primitive_size(row)?;
            if fits(size, at, out.len()) {
                small::put_primitive(row, out, at);
                return Some(size);
            }
        }
        // list
        3 => {
            let size = small::value_row_size(row)?;
            if fits(size, at, out.len()) {
                small::put_value_row(0x70, row, out, at);
                return Some(size);
            }
        }
        // map
        4 => {
            let size = small::values_row_size(row)?;
            if fits(size, at, out.len()) {
                small::put_values_row(0x63, row, out, at);
                return Some(size);
            }
        }
        // list of fixed length
        5 => {
            let size = small::fixed_row_size(row)?;
            if fits(size, at, out.len()) {
                small::put_fixed_row(0x67, row, out, at);
                return Some(size);
            }
        }
        // option
        9 => {
            let size = small::value_row_size(row)?;
            if fits(size, at, out.len()) {
                small::put_value_row(0x6b, row, out, at);
                return Some(size);
            }
        }
        // result
        10 => {
            let size = small::optionals_row_size(row)?;
            if fits(size, at, out.len()) {
                small::put_optionals_row(0x6a, row, out, at);
                return Some(size);
            }
        }
        // own
        11 => {
            let size = small::index_row_size(row)?;
            if fits(size, at, out.len()) {
                small::put_index_row(0x69, row, out, at);
                return Some(size);
            }
        }
        // borrow
        12 => {
            let size = small::index_row_size(row)?;
            if fits(size, at, out.len()) {
                small::put_index_row(0x68, row, out, at);
                return Some(size);
            }
        }
        // future
        13 => {
            let size = small::optional_row_size(row)?;
            if fits(size, at, out.len()) {
                small::put_optional_row(0x65, row, out, at);
                return Some(size);
            }
        }
        // stream
        14 => {
            let size = small::optional_row_size(row)?;
            if fits(size, at, out.len()) {
                small::put_optional_row(0x66, row, out, at);
                return Some(size);
            }
        }
        // resource
        16 => {
            let size = resource::resource_size(row)?;
            if fits(size, at, out.len()) {
                resource::put_resource(0x3f, row, out, at);
                return Some(size);
            }
        }
        _ => {}
    }
    None
}
