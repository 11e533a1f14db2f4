// Canonicals with at most two words behind the kind, read once: where one ends and its words, by value, and then stored.
ghost use Rattle.std.specs.Prelude.{ℕ, ◌≤◌, ◌∷◌, [], ◌≡◌, length, drop};
ghost use Rattle.fields.specs.Limits.{input_bytes};
ghost use Rattle.reading.specs.Fill.{fill};
ghost use Rattle.reading.specs.Scan.{scan};
ghost use Rattle.reading.specs.inside.Steps.{scans, fills};
ghost use Rattle.reading.specs.inside.Tried.{left_tried};
ghost use Rattle.canonical_items.specs.inside.Short.{field_of, Stepped, either_step, Told, stored};

use fields::Extent;
use numbers::seen_unsigned;
use reading::Pair;

// A field of at most one word.
#[derive(Clone, Copy)]
pub enum Short {
    Nothing,
    Index,
    Flag,
    Rep,
}

// The place past a field, and its word.
#[derive(Clone, Copy)]
pub struct Step {
    pub next: usize,
    pub value: u32,
}

// One of two bytes, at `at` of the input.
fn either(a: u8, b: u8, at: usize, input: &[u8]) -> Option<Step>
    requires { (length input.now ≤ input_bytes) × (at ≤ length input.now) }
    ensures { result ≡ either_step a b at (drop at input.now) }
{
    if at < input.len() {
        if input[at] == a {
            return Some(Step {
                next: at + 1,
                value: 0,
            });
        }
        if input[at] == b {
            return Some(Step {
                next: at + 1,
                value: 1,
            });
        }
    }
    None
}

// An index, at `at` of the input.
fn index(at: usize, input: &[u8]) -> Option<Step>
    requires { (length input.now ≤ input_bytes) × (at ≤ length input.now) }
    ensures { (g : ℕ) → Stepped at (scan 1 g (field_of Short.Index) (drop at input.now)) (fill g (field_of Short.Index) at (drop at input.now)) result }
{
    let one = seen_unsigned(&input[at..])?;
    Some(Step {
        next: at + one.took,
        value: one.value,
    })
}

// A field, at `at` of the input.
fn take_step(f: Short, at: usize, input: &[u8]) -> Option<Step>
    requires { (length input.now ≤ input_bytes) × (at ≤ length input.now) }
    ensures { (g : ℕ) → 1 ≤ g → Stepped at (scan 1 g (field_of f) (drop at input.now)) (fill g (field_of f) at (drop at input.now)) result }
{
    match f {
        Short::Nothing => Some(Step { next: at, value: 0 }),
        Short::Index => index(at, input),
        Short::Flag => either(0x00, 0x01, at, input),
        Short::Rep => either(0x7f, 0x7e, at, input),
    }
}

// Two fields, the first at `from`.
pub fn short_item(f: Short, h: Short, from: usize, input: &[u8]) -> Option<Pair>
    requires { (length input.now ≤ input_bytes) × (from ≤ length input.now) }
    ensures { (g : ℕ) → 1 ≤ g → Told f h (scans g input.now (field_of f ∷ field_of h ∷ []) from 1) (fills g input.now (field_of f ∷ field_of h ∷ []) from) result }
{
    let one = take_step(f, from, input)?;
    let two = take_step(h, one.next, input)?;
    Some(Pair {
        took: two.next,
        a: one.value,
        b: two.value,
    })
}

// An item stored, where there is one and it has room.
pub fn store_short(kind: u32, words: usize, item: Option<Pair>, row: &mut [u32]) -> Option<Extent>
    requires { (1 ≤ words) × (words ≤ 3) }
    ensures { left_tried result row.new ≡ stored kind words item row.old }
{
    let Pair { took, a, b } = item?;
    if row.len() < words {
        return None;
    }
    row[0] = kind;
    if 1 < words {
        row[1] = a;
    }
    if 2 < words {
        row[2] = b;
    }
    Some(Extent { words, took })
}
