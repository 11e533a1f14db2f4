// Canonicals with options: an index, a count and as many options, each read where it stands; the words are stored once all are right.
ghost use Rattle.std.specs.Prelude.{ℕ, ◌≤◌, ◌+◌, ◌*◌, ◌∷◌, [], ◌≡◌, length, IsSome, MatchOption};
ghost use Rattle.std.proofs.lemmas.List.Edits.{sets};
ghost use Rattle.fields.specs.declared.Field.{Field};
ghost use Rattle.fields.specs.declared.Field.TheVariants as field;
ghost use Rattle.fields.specs.Limits.{input_bytes};
ghost use Rattle.fields.specs.Shape.{repeated};
ghost use Rattle.reading.specs.Read.{scanned, filled};
ghost use Rattle.reading.specs.Scan.{byte};
ghost use Rattle.reading.specs.Seen.{pair};
ghost use Rattle.reading.specs.inside.Steps.{scans, fills, end_of};
ghost use Rattle.reading.specs.inside.Tried.{left_tried, tried};
ghost use Rattle.canonicals.specs.Table.{optioned, lift_bytes};
ghost use Rattle.canonical_items.specs.ReadCanonical.{type_third};
ghost use Rattle.canonical_items.specs.inside.Begun.{Begun, behind_zero};
ghost use Rattle.canonical_items.specs.inside.Short.{Opened, Unopened, is_option};

use fields::{Extent, Site, grade_of, is_indexed};
use numbers::seen_unsigned;
use reading::Pair;

// An index and a count, and the place past them.
#[derive(Clone, Copy)]
pub struct Head {
    pub next: usize,
    pub index: u32,
    pub count: u32,
}

// Whether a byte is an option's, at a grade.
fn is_option(grade: u32, k: u8) -> bool
    ensures { result ≡ is_option grade k }
{
    if k < 10 {
        return grade_of(Site::CanonOption, k) <= grade;
    }
    false
}

// An option: its byte, and its index where it has one.
fn option(grade: u32, bs: &[u8]) -> Option<Pair>
    ensures { result ≡ pair grade field.Choice bs.now }
{
    if 0 < bs.len() {
        let k = bs[0];
        if is_option(grade, k) {
            if is_indexed(k as u32) {
                let n = seen_unsigned(&bs[1..])?;
                return Some(Pair {
                    took: 1 + n.took,
                    a: k as u32,
                    b: n.value,
                });
            }
            return Some(Pair {
                took: 1,
                a: k as u32,
                b: 0,
            });
        }
    }
    None
}

// Where n options end, if each is right.
fn options_end(grade: u32, input: &[u8], from: usize, n: usize) -> Option<usize>
    requires { (length input.now ≤ input_bytes) × (from ≤ length input.now) }
    ensures { result ≡ end_of (scans grade input.now (repeated n (field.Choice ∷ field.Nothing ∷ [])) from 0) }
{
    let mut at = from;
    for _ in 0..n {
        let one = option(grade, &input[at..])?;
        at += one.took;
    }
    Some(at)
}

// The words of n options that are right.
fn fill_options(grade: u32, input: &[u8], from: usize, n: usize, row: &mut [u32], base: usize)
    requires input_len_bound { (length input.now ≤ input_bytes) × (from ≤ length input.now) × (base + n * 2 ≤ length row.old) }
    requires right { IsSome (end_of (scans grade input.now (repeated n (field.Choice ∷ field.Nothing ∷ [])) from 0)) }
    ensures { row.new ≡ sets row.old base (fills grade input.now (repeated n (field.Choice ∷ field.Nothing ∷ [])) from) }
{
    let mut at = from;
    let mut to = base;
    for _ in 0..n {
        let one = option(grade, &input[at..]).unwrap();
        row[to] = one.a;
        row[to + 1] = one.b;
        at += one.took;
        to += 2;
    }
}

// An index and a count, the first at `from`.
fn opens(from: usize, input: &[u8]) -> Option<Head>
    requires { (length input.now ≤ input_bytes) × (from ≤ length input.now) }
    ensures { MatchOption result (Unopened input.now from) (λ r. Opened input.now from r) }
{
    let one = seen_unsigned(&input[from..])?;
    let mid = from + one.took;
    let two = seen_unsigned(&input[mid..])?;
    Some(Head {
        next: mid + two.took,
        index: one.value,
        count: two.value,
    })
}

// A canonical of an index and options, the index at `from`.
pub fn read_options(
    kind: u32,
    grade: u32,
    from: usize,
    input: &[u8],
    row: &mut [u32],
) -> Option<Extent>
    requires { (length input.now ≤ input_bytes) × (from ≤ length input.now) }
    ensures { (lead b : ℕ) (z : Field) → Begun lead grade b z input.now from → left_tried result row.new ≡ tried (scanned lead grade (optioned b z) input.now) (filled kind lead grade (optioned b z) input.now) row.old }
{
    let start = opens(from, input)?;
    let next = start.next;
    let n = start.count as usize;
    let end = options_end(grade, input, next, n)?;
    let words = 3 + n * 2;
    if reading::has_room(words, row.len()) {
        row[0] = kind;
        row[1] = start.index;
        row[2] = start.count;
        fill_options(grade, input, next, n, row, 3);
        return Some(Extent { words, took: end });
    }
    None
}

// The place past a byte 00 behind the first, if there is one.
pub fn behind_zero(input: &[u8]) -> Option<usize>
    ensures { result ≡ behind_zero input.now }
{
    if 1 < input.len() {
        if input[1] == 0x00 {
            return Some(2);
        }
    }
    None
}

// A lift behind its two bytes 00: function, options and type; the type stands third in the row.
pub fn read_lift(grade: u32, from: usize, input: &[u8], row: &mut [u32]) -> Option<Extent>
    requires { (length input.now ≤ input_bytes) × (from ≤ length input.now) × Begun 1 grade 0 (field.Fixed 0) input.now from }
    ensures { left_tried result row.new ≡ tried (scanned 1 grade lift_bytes input.now) (type_third (filled 256 1 grade lift_bytes input.now)) row.old }
{
    let start = opens(from, input)?;
    let next = start.next;
    let n = start.count as usize;
    let end = options_end(grade, input, next, n)?;
    let last = seen_unsigned(&input[end..])?;
    let words = 4 + n * 2;
    if reading::has_room(words, row.len()) {
        row[0] = 256;
        row[1] = start.index;
        row[2] = last.value;
        row[3] = start.count;
        fill_options(grade, input, next, n, row, 4);
        return Some(Extent {
            words,
            took: end + last.took,
        });
    }
    None
}
