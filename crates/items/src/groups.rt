// Groups of the kinds with a count: where n of them end, if each is right; and their words, of groups that are right. Each field's
// reader is lent the input from its place on.
ghost use Rattle.std.specs.Prelude.{IsSome, ◌<◌, ◌≤◌, ◌+◌, ◌*◌, ◌∷◌, [], ◌≡◌, length};
ghost use Rattle.std.proofs.lemmas.List.Edits.{sets};
ghost use Rattle.fields.specs.declared.Field.TheVariants as field;
ghost use Rattle.reading.specs.Scan.{scan};
ghost use Rattle.fields.specs.Shape.{repeated, widths};
ghost use Rattle.reading.specs.inside.Steps.{scans, fills, end_of};
ghost use Rattle.items.specs.inside.Group.{group_of};
ghost use Rattle.fields.specs.Limits.{input_bytes};

use numbers::seen_unsigned;
use reading::{name, optional, value};

// Labels.
fn labels_end(input: &[u8], from: usize, n: usize) -> Option<usize>
    requires { (length input.now ≤ input_bytes) × (0 < from) × (from ≤ length input.now) }
    ensures { result ≡ end_of (scans 1 input.now (repeated n (field.Name ∷ field.Nothing ∷ [])) from 0) }
{
    let mut at = from;
    for _ in 0..n {
        let one = name(&input[at..])?;
        at += one.took;
    }
    Some(at)
}

fn fill_labels(input: &[u8], from: usize, n: usize, row: &mut [u32], base: usize)
    requires input_len_bound { (length input.now ≤ input_bytes) × (from ≤ length input.now) × (base + n * 2 ≤ length row.old) }
    requires right { IsSome (end_of (scans 1 input.now (repeated n (field.Name ∷ field.Nothing ∷ [])) from 0)) }
    ensures { row.new ≡ sets row.old base (fills 1 input.now (repeated n (field.Name ∷ field.Nothing ∷ [])) from) }
{
    let mut at = from;
    let mut to = base;
    for _ in 0..n {
        let one = seen_unsigned(&input[at..]).unwrap();
        let start = at + one.took;
        row[to] = start as u32;
        row[to + 1] = one.value;
        at = start + (one.value as usize);
        to += 2;
    }
}

// V, most often indices of two or three bytes.
fn values_end(grade: u32, input: &[u8], from: usize, n: usize) -> Option<usize>
    requires { (length input.now ≤ input_bytes) × (0 < from) × (from ≤ length input.now) }
    ensures { result ≡ end_of (scans grade input.now (repeated n (field.Value ∷ field.Nothing ∷ [])) from 0) }
{
    let mut at = from;
    for _ in 0..n {
        if let Some(short) = numbers::short_signed(&input[at..]) {
            at += short.took;
        } else {
            let one = value(grade, &input[at..])?;
            at += one.took;
        }
    }
    Some(at)
}

fn fill_values(grade: u32, input: &[u8], from: usize, n: usize, row: &mut [u32], base: usize)
    requires input_len_bound { (length input.now ≤ input_bytes) × (from ≤ length input.now) × (base + n * 2 ≤ length row.old) }
    requires right { IsSome (end_of (scans grade input.now (repeated n (field.Value ∷ field.Nothing ∷ [])) from 0)) }
    ensures { row.new ≡ sets row.old base (fills grade input.now (repeated n (field.Value ∷ field.Nothing ∷ [])) from) }
{
    let mut at = from;
    let mut to = base;
    for _ in 0..n {
        if let Some(short) = numbers::short_signed(&input[at..]) {
            row[to] = 1;
            row[to + 1] = short.value;
            at += short.took;
        } else {
            let one = value(grade, &input[at..]).unwrap();
            row[to] = one.a;
            row[to + 1] = one.b;
            at += one.took;
        }
        to += 2;
    }
}

// Fields of a record, or parameters: a label and a V.
pub fn fields_end(grade: u32, input: &[u8], from: usize, n: usize) -> Option<usize>
    requires { (length input.now ≤ input_bytes) × (0 < from) × (from ≤ length input.now) }
    ensures { result ≡ end_of (scans grade input.now (repeated n (field.Name ∷ field.Value ∷ [])) from 0) }
{
    let mut at = from;
    for _ in 0..n {
        let one = name(&input[at..])?;
        at += one.took;
        let two = value(grade, &input[at..])?;
        at += two.took;
    }
    Some(at)
}

pub fn fill_fields(grade: u32, input: &[u8], from: usize, n: usize, row: &mut [u32], base: usize)
    requires input_len_bound { (length input.now ≤ input_bytes) × (from ≤ length input.now) × (base + n * 4 ≤ length row.old) }
    requires right { IsSome (end_of (scans grade input.now (repeated n (field.Name ∷ field.Value ∷ [])) from 0)) }
    ensures { row.new ≡ sets row.old base (fills grade input.now (repeated n (field.Name ∷ field.Value ∷ [])) from) }
{
    let mut at = from;
    let mut to = base;
    for _ in 0..n {
        let one = seen_unsigned(&input[at..]).unwrap();
        let start = at + one.took;
        row[to] = start as u32;
        row[to + 1] = one.value;
        at = start + (one.value as usize);
        let two = value(grade, &input[at..]).unwrap();
        row[to + 2] = two.a;
        row[to + 3] = two.b;
        at += two.took;
        to += 4;
    }
}

// An O and then 00.
fn case_took(grade: u32, bs: &[u8]) -> Option<usize>
    requires { length bs.now ≤ input_bytes }
    ensures { result ≡ end_of (scan 1 grade field.OptionalThenZero bs.now) }
{
    let one = optional(grade, bs)?;
    let took = one.took;
    if took < bs.len() {
        if bs[took] == 0x00 {
            return Some(took + 1);
        }
    }
    None
}

// Cases of a variant: a label, an O and 00.
fn cases_end(grade: u32, input: &[u8], from: usize, n: usize) -> Option<usize>
    requires { (length input.now ≤ input_bytes) × (0 < from) × (from ≤ length input.now) }
    ensures { result ≡ end_of (scans grade input.now (repeated n (field.Name ∷ field.OptionalThenZero ∷ [])) from 0) }
{
    let mut at = from;
    for _ in 0..n {
        let one = name(&input[at..])?;
        at += one.took;
        let took = case_took(grade, &input[at..])?;
        at += took;
    }
    Some(at)
}

fn fill_cases(grade: u32, input: &[u8], from: usize, n: usize, row: &mut [u32], base: usize)
    requires input_len_bound { (length input.now ≤ input_bytes) × (from ≤ length input.now) × (base + n * 4 ≤ length row.old) }
    requires right { IsSome (end_of (scans grade input.now (repeated n (field.Name ∷ field.OptionalThenZero ∷ [])) from 0)) }
    ensures { row.new ≡ sets row.old base (fills grade input.now (repeated n (field.Name ∷ field.OptionalThenZero ∷ [])) from) }
{
    let mut at = from;
    let mut to = base;
    for _ in 0..n {
        let one = seen_unsigned(&input[at..]).unwrap();
        let start = at + one.took;
        row[to] = start as u32;
        row[to + 1] = one.value;
        at = start + (one.value as usize);
        let two = optional(grade, &input[at..]).unwrap();
        row[to + 2] = two.a;
        row[to + 3] = two.b;
        at += two.took + 1;
        to += 4;
    }
}

// The groups of a kind: a record's, a variant's, a tuple's, or labels.
pub fn groups_end(kind: u32, grade: u32, input: &[u8], from: usize, n: usize) -> Option<usize>
    requires { (length input.now ≤ input_bytes) × (0 < from) × (from ≤ length input.now) }
    ensures { result ≡ end_of (scans grade input.now (repeated n (group_of kind)) from 0) }
{
    match kind {
        1 => fields_end(grade, input, from, n),
        2 => cases_end(grade, input, from, n),
        6 => values_end(grade, input, from, n),
        _ => labels_end(input, from, n),
    }
}

pub fn fill_groups(kind: u32, grade: u32, input: &[u8], from: usize, n: usize, row: &mut [u32])
    requires input_len_bound { (length input.now ≤ input_bytes) × (from ≤ length input.now) × (2 + n * widths (group_of kind) ≤ length row.old) }
    requires right { IsSome (end_of (scans grade input.now (repeated n (group_of kind)) from 0)) }
    ensures { row.new ≡ sets row.old 2 (fills grade input.now (repeated n (group_of kind)) from) }
{
    match kind {
        1 => fill_fields(grade, input, from, n, row, 2),
        2 => fill_cases(grade, input, from, n, row, 2),
        6 => fill_values(grade, input, from, n, row, 2),
        _ => fill_labels(input, from, n, row, 2),
    }
}

// How many words a group has.
pub fn group_wide(kind: u32) -> usize
    ensures { result ≡ widths (group_of kind) }
{
    match kind {
        1 => 4,
        2 => 4,
        _ => 2,
    }
}
