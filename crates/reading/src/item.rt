// An item of a shape, scanned whole: what is wrong with it.
ghost use Rattle.std.specs.Prelude.{◌≡◌, ◌∷◌, [], ◌<◌, ◌≤◌, ◌^◌, length, drop};
ghost use Rattle.reading.specs.Read.{scanned, scanned_item, refusal_of};
ghost use Rattle.reading.specs.inside.Stages.{counted_scan};
ghost use Rattle.fields.specs.inside.Run.{along, after, Under};
ghost use Rattle.reading.specs.Scan.{scan};
ghost use Rattle.fields.specs.Shape.{group, repeated};
ghost use Rattle.fields.specs.Limits.{input_bytes};

use crate::scan::{rest_at, scan_field};
use fields::{Fault, Field, INPUT_BYTES, Read, Refusal, Shape, Span};
use numbers::{NoNumber, Number};

// One field at `at`, with `made` words before it: the input from there on is lent to the field's reader.
fn scan_one(
    f: Field,
    lead: u32,
    grade: u32,
    input: &[u8],
    at: usize,
    made: usize,
) -> Result<Span, Fault>
    requires input_len_bound { length input.now ≤ input_bytes }
    requires at_bound { (at ≤ 2 ^ 31) × (made ≤ 2 ^ 61) }
    ensures { result ≡ along (scan lead grade) (f ∷ []) (drop at input.now) at made }
{
    match scan_field(f, lead, grade, rest_at(input, at)) {
        Ok(Span { took, made: words }) => {
            let next = at + took;
            let more = made + words;
            Ok(Span {
                took: next,
                made: more,
            })
        }
        Err(Fault { why, value: j }) => {
            let place = at + j;
            Err(Fault { why, value: place })
        }
    }
}

// One field more, after what was scanned before it.
fn scan_next(
    so: Result<Span, Fault>,
    f: Field,
    lead: u32,
    grade: u32,
    input: &[u8],
) -> Result<Span, Fault>
    requires input_len_bound { length input.now ≤ input_bytes }
    requires under { Under so (2 ^ 31) (2 ^ 61) }
    ensures { result ≡ after so (λ at made. along (scan lead grade) (f ∷ []) (drop at input.now) at made) }
{
    let Span { took: at, made } = so?;
    scan_one(f, lead, grade, input, at, made)
}

fn scan_two(
    so: Result<Span, Fault>,
    a: Field,
    b: Field,
    lead: u32,
    grade: u32,
    input: &[u8],
) -> Result<Span, Fault>
    requires input_len_bound { length input.now ≤ input_bytes }
    requires under { Under so (2 ^ 30) (2 ^ 60) }
    ensures { result ≡ after so (λ at made. along (scan lead grade) (a ∷ b ∷ []) (drop at input.now) at made) }
{
    let one = scan_next(so, a, lead, grade, input);
    scan_next(one, b, lead, grade, input)
}

// n groups; the loop ends where the input does, whatever n says.
fn scan_groups(
    s: Shape,
    n: usize,
    lead: u32,
    grade: u32,
    input: &[u8],
    from: usize,
    base: usize,
) -> Result<Span, Fault>
    requires input_len_bound { length input.now ≤ input_bytes }
    requires n_bound { (n < 2 ^ 32) × (from ≤ length input.now) × (base ≤ 2 ^ 40) }
    ensures { result ≡ along (scan lead grade) (repeated n (group s)) (drop from input.now) from base }
{
    let one = s.one;
    let two = s.two;
    let mut at = from;
    let mut made = base;
    for _ in 0..n {
        let next = scan_two(Ok(Span { took: at, made }), one, two, lead, grade, input)?;
        at = next.took;
        made = next.made;
    }
    Ok(Span { took: at, made })
}

// The count at `at`, as many groups, and the closing.
fn scan_counted(
    s: Shape,
    lead: u32,
    grade: u32,
    input: &[u8],
    at: usize,
    made: usize,
) -> Result<Span, Fault>
    requires input_len_bound { length input.now ≤ input_bytes }
    requires at_in_bounds { (at ≤ length input.now) × (made ≤ 2 ^ 39) }
    ensures { result ≡ counted_scan lead grade s input.now at made }
{
    let rest = rest_at(input, at);
    let last = s.last;
    match numbers::take_unsigned(rest) {
        Ok(Number { value: n, took }) => {
            let from = at + took;
            let base = made + 1;
            let groups = scan_groups(s, n as usize, lead, grade, input, from, base);
            scan_next(groups, last, lead, grade, input)
        }
        Err(NoNumber::Cut) => Err(Fault {
            why: Refusal::Cut,
            value: input.len(),
        }),
        Err(NoNumber::Bad) => Err(Fault {
            why: Refusal::Number,
            value: at,
        }),
    }
}

// The fields of an item, behind the word of its kind.
fn scan_shape(s: Shape, lead: u32, grade: u32, input: &[u8]) -> Result<Span, Fault>
    requires { length input.now ≤ input_bytes }
    ensures { result ≡ scanned lead grade s input.now }
{
    let first = s.first;
    let second = s.second;
    let last = s.last;
    let start = s.lead;
    let zero = s.zero;
    let leads = scan_two(
        Ok(Span { took: 0, made: 1 }),
        start,
        zero,
        lead,
        grade,
        input,
    );
    let opening = scan_two(leads, first, second, lead, grade, input);
    if s.counted {
        let Span { took: at, made } = opening?;
        return scan_counted(s, lead, grade, input, at, made);
    }
    scan_next(opening, last, lead, grade, input)
}

// Why an item that is not read is refused: what is wrong with it, or, where it is whole, that it needs more room.
pub fn item_refusal(found: Option<Shape>, lead: u32, grade: u32, input: &[u8]) -> Read
    ensures { result ≡ refusal_of (scanned_item found lead grade input.now) }
{
    if INPUT_BYTES < input.len() {
        return Err(Fault {
            why: Refusal::Limit,
            value: 0,
        });
    }
    if grade < 1 {
        return Err(Fault {
            why: Refusal::Limit,
            value: 0,
        });
    }
    if 3 < grade {
        return Err(Fault {
            why: Refusal::Limit,
            value: 0,
        });
    }
    if input.len() == 0 {
        return Err(Fault {
            why: Refusal::Cut,
            value: 0,
        });
    }
    match found {
        Some(s) => {
            let whole = scan_shape(s, lead, grade, input)?;
            Err(Fault {
                why: Refusal::Room,
                value: whole.made,
            })
        }
        None => Err(Fault {
            why: Refusal::Code,
            value: 0,
        }),
    }
}
