// An instance of a kind: its index where it has one, a count and as many groups.
ghost use Rattle.std.specs.Prelude.{◌<◌, ◌≤◌, ◌∷◌, [], ◌++◌, ◌≡◌, length, take, Some};
ghost use Rattle.reading.specs.inside.Stages.{counted_scan, counted_fill};
ghost use Rattle.reading.specs.Scan.{byte};
ghost use Rattle.reading.specs.inside.Tried.{left_tried, tried, tried_found};
ghost use Rattle.instance_items.specs.inside.Group.{counted_of, instantiate_of, shape_by, Begins};
ghost use Rattle.fields.specs.Limits.{input_bytes};

use crate::fields_of::{one_wide, two_wide};
use crate::groups::{fill_groups, groups_end};
use fields::Extent;
use numbers::seen_unsigned;

// The count at a place and as many groups, stored behind the kind and, where `base` is 2, an index.
fn read_counted(
    kind: u32,
    index: u32,
    at: usize,
    base: usize,
    grade: u32,
    input: &[u8],
    row: &mut [u32],
) -> Option<Extent>
    requires at_in_bounds { (at ≤ length input.now) × (length input.now ≤ input_bytes) × (1 ≤ grade) × (grade ≤ 3) }
    requires le_base { (1 ≤ base) × (base ≤ 2) }
    ensures { left_tried result row.new ≡ tried (counted_scan 1 grade (counted_of kind) input.now at base) (take base (kind ∷ index ∷ []) ++ counted_fill 1 grade (counted_of kind) input.now at) row.old }
{
    let count = seen_unsigned(&input[at..])?;
    let n = count.value as usize;
    let from = at + count.took;
    let end = groups_end(kind, grade, input, from, n)?;
    let words = base + 1 + n * (one_wide(kind) + two_wide(kind));
    if !reading::has_room(words, row.len()) {
        return None;
    }
    row[0] = kind;
    row[1] = index;
    row[base] = count.value;
    fill_groups(kind, grade, input, from, n, row, base + 1);
    Some(Extent { words, took: end })
}

// 00, an index, and what is counted.
fn instantiate(kind: u32, grade: u32, input: &[u8], row: &mut [u32]) -> Option<Extent>
    requires { (0 < length input.now) × (length input.now ≤ input_bytes) × (1 ≤ grade) × (grade ≤ 3) × (byte input.now 0 ≡ 0) }
    ensures { left_tried result row.new ≡ tried_found (Some (instantiate_of kind)) kind 1 grade input.now row.old }
{
    let index = seen_unsigned(&input[1..])?;
    read_counted(kind, index.value, 1 + index.took, 2, grade, input, row)
}

// The instance of a kind that begins with its byte.
pub fn by_kind(kind: u32, grade: u32, input: &[u8], row: &mut [u32]) -> Option<Extent>
    requires { (0 < length input.now) × (length input.now ≤ input_bytes) × (1 ≤ grade) × (grade ≤ 3) × Begins kind (byte input.now 0) }
    ensures { left_tried result row.new ≡ tried_found (shape_by kind) kind 1 grade input.now row.old }
{
    match kind {
        18 => instantiate(18, grade, input, row),
        19 => instantiate(19, grade, input, row),
        20 => read_counted(20, 0, 1, 1, grade, input, row),
        21 => read_counted(21, 0, 1, 1, grade, input, row),
        _ => None,
    }
}
