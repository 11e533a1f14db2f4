// Bytes to rows: the walk over an item that finds what is wrong with it, and the steps that the straight code of every kind uses. Each
// step is lent the input from its place on, and says how many bytes its field takes and its words, if that is right.
#![tactic(auto)]

mod item;
mod scan;

ghost use Rattle.std.specs.Prelude.{◌≤◌, ◌≡◌};
ghost use Rattle.fields.specs.declared.Field.TheVariants as field;
ghost use Rattle.reading.specs.Seen.{one, pair, within, roomy};
ghost use Rattle.reading.specs.inside.Steps.{behind_one, is_primitive};
ghost use Rattle.reading.specs.Fill as words;

use fields::{INPUT_BYTES, ROW_WORDS, Site, grade_of};
pub use item::item_refusal;
use numbers::Number;

// A field of two words: how many bytes it takes, and its words.
#[derive(Clone, Copy)]
pub struct Pair {
    pub took: usize,
    pub a: u32,
    pub b: u32,
}

// Whether a byte is a primitive's, at a grade.
fn is_primitive(grade: u32, b: u8) -> bool
    ensures { result ≡ is_primitive grade b }
{
    if b == 0x64 {
        return grade_of(Site::Primitive, 0x64) <= grade;
    }
    if b < 0x73 {
        return false;
    }
    b < 0x80
}

fn primitive_of(b: u8) -> u32
    ensures { result ≡ words.primitive b }
{
    if b == 0x64 {
        return 13;
    }
    if b < 0x7f {
        return (0x7f - b) as u32;
    }
    0
}

// A primitive.
pub fn primitive(grade: u32, bs: &[u8]) -> Option<Number>
    ensures { result ≡ one grade field.Primitive bs.now }
{
    if 0 < bs.len() {
        let b = bs[0];
        if is_primitive(grade, b) {
            return Some(Number {
                value: primitive_of(b),
                took: 1,
            });
        }
    }
    None
}

// A V: an index as an s33, or a primitive.
pub fn value(grade: u32, bs: &[u8]) -> Option<Pair>
    ensures { result ≡ pair grade field.Value bs.now }
{
    if let Some(n) = numbers::seen_signed(bs) {
        return Some(Pair {
            took: n.took,
            a: 1,
            b: n.value,
        });
    }
    let p = primitive(grade, bs)?;
    Some(Pair {
        took: p.took,
        a: 0,
        b: p.value,
    })
}

// What stands behind a byte, with that byte.
fn behind(v: Pair) -> Pair
    requires { v.took ≤ 8 }
    ensures { result ≡ behind_one v }
{
    Pair {
        took: 1 + v.took,
        a: v.a,
        b: v.b,
    }
}

// An O: 00, or 01 and a V. It stands in its callers' code, which would have to wait for an answer that goes through memory.
#[inline(always)]
pub fn optional(grade: u32, bs: &[u8]) -> Option<Pair>
    ensures { result ≡ pair grade field.Optional bs.now }
{
    if 0 < bs.len() {
        let b = bs[0];
        if b == 0x01 {
            let v = value(grade, &bs[1..])?;
            return Some(behind(v));
        }
        if b == 0x00 {
            return Some(Pair {
                took: 1,
                a: 2,
                b: 0,
            });
        }
    }
    None
}

// A function's result: 00 and a V, or 01 00.
pub fn result(grade: u32, bs: &[u8]) -> Option<Pair>
    ensures { result ≡ pair grade field.Result bs.now }
{
    if 1 < bs.len() {
        let b = bs[0];
        if b == 0x00 {
            let v = value(grade, &bs[1..])?;
            return Some(behind(v));
        }
        if b == 0x01 {
            if bs[1] == 0x00 {
                return Some(Pair {
                    took: 2,
                    a: 2,
                    b: 0,
                });
            }
        }
    }
    None
}

// A name: its length and its bytes, which are UTF-8. Its first word is how many bytes stand before them.
pub fn name(bs: &[u8]) -> Option<Pair>
    ensures { result ≡ pair 1 field.Name bs.now }
{
    let n = numbers::seen_unsigned(bs)?;
    let start = n.took;
    let end = start + (n.value as usize);
    if end <= bs.len() {
        if numbers::is_text(&bs[start..end]) {
            return Some(Pair {
                took: end,
                a: start as u32,
                b: n.value,
            });
        }
    }
    None
}

// Whether an input and a grade pass no limit, the grade is not below that of the lead, and there is an input.
pub fn is_within(lead: u32, grade: u32, input: &[u8]) -> bool
    ensures { result ≡ within lead grade input.now }
{
    if INPUT_BYTES < input.len() {
        return false;
    }
    if grade < 1 {
        return false;
    }
    if 3 < grade {
        return false;
    }
    if grade < lead {
        return false;
    }
    0 < input.len()
}

// Whether an item of so many words is one, and has room.
pub fn has_room(words: usize, room: usize) -> bool
    ensures { result ≡ roomy words room }
{
    if ROW_WORDS < words {
        return false;
    }
    words <= room
}
