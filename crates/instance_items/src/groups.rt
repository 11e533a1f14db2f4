// Groups: where n of them end, if each is right; and their words, of groups that are right.
ghost use Rattle.std.specs.Prelude.{◌≤◌, ◌+◌, ◌*◌, ◌≡◌, IsSome, length};
ghost use Rattle.std.proofs.lemmas.List.Edits.{sets};
ghost use Rattle.fields.specs.Shape.{repeated, widths};
ghost use Rattle.reading.specs.inside.Steps.{scans, fills, end_of};
ghost use Rattle.instance_items.specs.inside.Group.{group_of};
ghost use Rattle.fields.specs.Limits.{input_bytes};

use crate::fields_of::{first_took, one_wide, second, two_wide};
use crate::stores::{store_one, store_two};

pub fn groups_end(kind: u32, grade: u32, input: &[u8], from: usize, n: usize) -> Option<usize>
    requires { (length input.now ≤ input_bytes) × (from ≤ length input.now) × (1 ≤ grade) × (grade ≤ 3) }
    ensures { result ≡ end_of (scans grade input.now (repeated n (group_of kind)) from 0) }
{
    let mut at = from;
    for _ in 0..n {
        let one = first_took(kind, grade, &input[at..])?;
        at += one;
        let two = second(kind, &input[at..])?;
        at += two.took;
    }
    Some(at)
}

pub fn fill_groups(
    kind: u32,
    grade: u32,
    input: &[u8],
    from: usize,
    n: usize,
    row: &mut [u32],
    base: usize,
)
    requires input_len_bound { (length input.now ≤ input_bytes) × (from ≤ length input.now) × (base + n * widths (group_of kind) ≤ length row.old) × (1 ≤ grade) × (grade ≤ 3) }
    requires right { IsSome (end_of (scans grade input.now (repeated n (group_of kind)) from 0)) }
    ensures { row.new ≡ sets row.old base (fills grade input.now (repeated n (group_of kind)) from) }
{
    let mut at = from;
    let mut to = base;
    for _ in 0..n {
        at += store_one(kind, grade, &input[at..], at, row, to);
        to += one_wide(kind);
        at += store_two(kind, &input[at..], row, to);
        to += two_wide(kind);
    }
}
