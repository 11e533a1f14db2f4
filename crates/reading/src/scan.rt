// Bytes to words: what stands at the front of the input, at a grade.
ghost use Rattle.fields.specs.Leaf.{Fine};
ghost use Rattle.std.specs.Prelude.{◌≡◌, cond, ◌<◌, ◌≤◌, ◌+◌, ◌^◌, length, get_or, drop};
ghost use Rattle.reading.specs.Scan.{cut, there, asked, past, scan_index, scan_name, scan_primitive, scan_value, zero_at, scan_optional, then_zero, scan_result, scan_choice, onward, string_at, count_at, slot_scan, end_scan, head_scan, first_scan, second_scan, scan_extern, scan_bound, scan_module, three, scan_reference, scan_either, scan_optional_index, scan_argument, scan_core_sort_index, scan_sort_index, scan};
ghost use Rattle.reading.specs.inside.Stages.{Inside};
ghost use Rattle.fields.specs.Limits.{input_bytes};
ghost use Rattle.fields.specs.Words.{indexed};

use fields::{Fault, Field, Refusal, Site, Span, grade_of, is_indexed, offset_of};
use numbers::{NoNumber, NotText, Number};

// The byte at i, 0 past the end.
fn byte_at(bs: &[u8], i: usize) -> u8
    ensures { result ≡ get_or bs.now i 0 }
{
    if i < bs.len() {
        return bs[i];
    }
    0
}

// The input from i on, nothing past its end.
pub fn rest_at(bs: &[u8], i: usize) -> &[u8]
    ensures { result.now ≡ drop i bs.now }
{
    if i <= bs.len() { &bs[i..] } else { &bs[..0] }
}

fn cut_short(bs: &[u8]) -> Result<Span, Fault>
    ensures { result ≡ cut bs.now }
{
    Err(Fault {
        why: Refusal::Cut,
        value: bs.len(),
    })
}

// A form of grade n, marked by the byte at j.
fn asked_at(grade: u32, n: u32, j: usize, l: Result<Span, Fault>) -> Result<Span, Fault>
    ensures { result ≡ asked grade n j l }
{
    if grade < n {
        return Err(Fault {
            why: Refusal::Newer,
            value: j,
        });
    }
    l
}

// What stands behind k bytes.
fn past_by(k: usize, l: Result<Span, Fault>) -> Result<Span, Fault>
    requires k_bound { k ≤ 2 ^ 31 }
    requires inside { Inside l (2 ^ 31) }
    ensures { result ≡ past k l }
{
    match l {
        Ok(Span { took, made }) => Ok(Span {
            took: k + took,
            made,
        }),
        Err(Fault { why, value }) => Err(Fault {
            why,
            value: k + value,
        }),
    }
}

fn scan_index(m: usize, bs: &[u8]) -> Result<Span, Fault>
    ensures { result ≡ scan_index m bs.now }
{
    match numbers::take_unsigned(bs) {
        Ok(Number { value: _, took: t }) => Ok(Span { took: t, made: m }),
        Err(NoNumber::Cut) => cut_short(bs),
        Err(NoNumber::Bad) => Err(Fault {
            why: Refusal::Number,
            value: 0,
        }),
    }
}

fn scan_name(bs: &[u8]) -> Result<Span, Fault>
    ensures { result ≡ scan_name bs.now }
{
    match numbers::take_unsigned(bs) {
        Ok(Number { value: n, took: t }) => {
            let end = t + (n as usize);
            if end <= bs.len() {
                return match numbers::spelling_of(&bs[t..end]) {
                    Ok(()) => Ok(Span { took: end, made: 2 }),
                    Err(NotText { stop: byte }) => Err(Fault {
                        why: Refusal::Text(offset_of(byte as u32)),
                        value: t,
                    }),
                };
            }
            cut_short(bs)
        }
        Err(NoNumber::Cut) => cut_short(bs),
        Err(NoNumber::Bad) => Err(Fault {
            why: Refusal::Number,
            value: 0,
        }),
    }
}

fn primitive_or(grade: u32, b: u8, l: Result<Span, Fault>) -> Result<Span, Fault>
    ensures { result ≡ scan_primitive grade b l }
{
    if b == 0x64 {
        return asked_at(grade, grade_of(Site::Primitive, 0x64), 0, l);
    }
    if b < 0x73 {
        return Err(Fault {
            why: Refusal::Code,
            value: 0,
        });
    }
    if b < 0x80 {
        return l;
    }
    Err(Fault {
        why: Refusal::Code,
        value: 0,
    })
}

fn scan_value(grade: u32, bs: &[u8]) -> Result<Span, Fault>
    ensures { result ≡ scan_value grade bs.now }
{
    if bs.len() <= 0 {
        return cut_short(bs);
    }
    let b = byte_at(bs, 0);
    if b < 0x40 {
        return Ok(Span { took: 1, made: 2 });
    }
    if b < 0x80 {
        return primitive_or(grade, b, Ok(Span { took: 1, made: 2 }));
    }
    match numbers::take_signed(bs) {
        Ok(Number { value: _, took: t }) => Ok(Span { took: t, made: 2 }),
        Err(NoNumber::Cut) => cut_short(bs),
        Err(NoNumber::Bad) => Err(Fault {
            why: Refusal::Number,
            value: 0,
        }),
    }
}

// The byte at i is 00.
fn zero_at(bs: &[u8], i: usize, l: Result<Span, Fault>) -> Result<Span, Fault>
    ensures { result ≡ zero_at bs.now i l }
{
    if bs.len() <= i {
        return cut_short(bs);
    }
    if byte_at(bs, i) == 0 {
        return l;
    }
    Err(Fault {
        why: Refusal::Code,
        value: i,
    })
}

// A value behind the first byte.
fn value_behind(grade: u32, bs: &[u8]) -> Result<Span, Fault>
    requires { length bs.now ≤ input_bytes }
    ensures { result ≡ past 1 (scan_value grade (drop 1 bs.now)) }
{
    past_by(1, scan_value(grade, rest_at(bs, 1)))
}

// An index behind k bytes, which makes m words.
fn index_behind(m: usize, k: usize, bs: &[u8]) -> Result<Span, Fault>
    requires { (length bs.now ≤ input_bytes) × (k ≤ 2) }
    ensures { result ≡ past k (scan_index m (drop k bs.now)) }
{
    past_by(k, scan_index(m, rest_at(bs, k)))
}

fn scan_optional(grade: u32, bs: &[u8]) -> Result<Span, Fault>
    requires { length bs.now ≤ input_bytes }
    ensures { result ≡ scan_optional grade bs.now }
{
    if bs.len() <= 0 {
        return cut_short(bs);
    }
    let b = byte_at(bs, 0);
    if b == 0x00 {
        return Ok(Span { took: 1, made: 2 });
    }
    if b == 0x01 {
        return value_behind(grade, bs);
    }
    Err(Fault {
        why: Refusal::Code,
        value: 0,
    })
}

fn scan_case(grade: u32, bs: &[u8]) -> Result<Span, Fault>
    requires { length bs.now ≤ input_bytes }
    ensures { result ≡ then_zero bs.now (scan_optional grade bs.now) }
{
    let Span { took, made } = scan_optional(grade, bs)?;
    let next = took + 1;
    zero_at(bs, took, Ok(Span { took: next, made }))
}

fn scan_result(grade: u32, bs: &[u8]) -> Result<Span, Fault>
    requires { length bs.now ≤ input_bytes }
    ensures { result ≡ scan_result grade bs.now }
{
    if bs.len() <= 0 {
        return cut_short(bs);
    }
    let b = byte_at(bs, 0);
    if b == 0x00 {
        return value_behind(grade, bs);
    }
    if b == 0x01 {
        return zero_at(bs, 1, Ok(Span { took: 2, made: 2 }));
    }
    Err(Fault {
        why: Refusal::Code,
        value: 0,
    })
}

// An option: its byte, and its index where it has one.
fn choose(k: u8, bs: &[u8]) -> Result<Span, Fault>
    requires { length bs.now ≤ input_bytes }
    ensures { result ≡ cond (indexed k) (past 1 (scan_index 2 (drop 1 bs.now))) (Fine 1 2) }
{
    if is_indexed(k as u32) {
        return index_behind(2, 1, bs);
    }
    Ok(Span { took: 1, made: 2 })
}

fn scan_choice(grade: u32, bs: &[u8]) -> Result<Span, Fault>
    requires { length bs.now ≤ input_bytes }
    ensures { result ≡ scan_choice grade bs.now }
{
    if bs.len() <= 0 {
        return cut_short(bs);
    }
    let k = byte_at(bs, 0);
    if k < 10 {
        return asked_at(grade, grade_of(Site::CanonOption, k), 0, choose(k, bs));
    }
    Err(Fault {
        why: Refusal::Code,
        value: 0,
    })
}

// A string at `at` of an extern name, with `due` handed on.
fn string_at(bs: &[u8], at: usize, due: usize) -> Result<Span, Fault>
    requires { (length bs.now ≤ input_bytes) × (at ≤ 2 ^ 31) }
    ensures { result ≡ string_at bs.now at due }
{
    let name = past_by(at, scan_name(rest_at(bs, at)))?;
    Ok(Span {
        took: name.took,
        made: due,
    })
}

fn count_at(bs: &[u8], at: usize) -> Result<Span, Fault>
    requires { (length bs.now ≤ input_bytes) × (at ≤ 2 ^ 31) }
    ensures { result ≡ count_at bs.now at }
{
    match numbers::take_unsigned(rest_at(bs, at)) {
        Ok(Number { value: n, took: t }) => {
            if n == 0 {
                return Err(Fault {
                    why: Refusal::Code,
                    value: at,
                });
            }
            if n < 4 {
                let next = at + t;
                return Ok(Span {
                    took: next,
                    made: n as usize,
                });
            }
            Err(Fault {
                why: Refusal::Code,
                value: at,
            })
        }
        Err(NoNumber::Cut) => cut_short(bs),
        Err(NoNumber::Bad) => Err(Fault {
            why: Refusal::Number,
            value: at,
        }),
    }
}

// Option k, with `due` options still to come.
fn slot_scan(k: u8, bs: &[u8], at: usize, due: usize) -> Result<Span, Fault>
    requires { (length bs.now ≤ input_bytes) × (at < 2 ^ 31) }
    ensures { result ≡ slot_scan k bs.now at due }
{
    if due == 0 {
        return Ok(Span { took: at, made: 0 });
    }
    if bs.len() <= at {
        return cut_short(bs);
    }
    if byte_at(bs, at) == k {
        return string_at(bs, at + 1, due - 1);
    }
    Ok(Span {
        took: at,
        made: due,
    })
}

fn end_scan(bs: &[u8], at: usize, due: usize) -> Result<Span, Fault>
    ensures { result ≡ end_scan bs.now at due }
{
    if due == 0 {
        return Ok(Span { took: at, made: 11 });
    }
    if bs.len() <= at {
        return cut_short(bs);
    }
    Err(Fault {
        why: Refusal::Code,
        value: at,
    })
}

// The count behind a name.
fn and_count(so: Result<Span, Fault>, bs: &[u8]) -> Result<Span, Fault>
    requires { (length bs.now ≤ input_bytes) × Inside so (2 ^ 31) }
    ensures { result ≡ onward so (λ at due. count_at bs.now at) }
{
    count_at(bs, so?.took)
}

// Lead, name and count of an extern name.
fn head_scan(grade: u32, bs: &[u8]) -> Result<Span, Fault>
    requires { length bs.now ≤ input_bytes }
    ensures { result ≡ head_scan grade bs.now }
{
    if bs.len() <= 0 {
        return cut_short(bs);
    }
    let b = byte_at(bs, 0);
    if b == 0x00 {
        return string_at(bs, 1, 0);
    }
    if b == 0x02 {
        return asked_at(
            grade,
            grade_of(Site::NameLead, 0x02),
            0,
            and_count(string_at(bs, 1, 0), bs),
        );
    }
    Err(Fault {
        why: Refusal::Code,
        value: 0,
    })
}

// Option k, after what was found before it.
fn and_slot(so: Result<Span, Fault>, k: u8, bs: &[u8]) -> Result<Span, Fault>
    requires { (length bs.now ≤ input_bytes) × Inside so (2 ^ 30) }
    ensures { result ≡ onward so (slot_scan k bs.now) }
{
    let Span {
        took: at,
        made: due,
    } = so?;
    slot_scan(k, bs, at, due)
}

fn first_scan(grade: u32, bs: &[u8]) -> Result<Span, Fault>
    requires { length bs.now ≤ input_bytes }
    ensures { result ≡ first_scan grade bs.now }
{
    and_slot(head_scan(grade, bs), 0x00, bs)
}

fn second_scan(grade: u32, bs: &[u8]) -> Result<Span, Fault>
    requires { length bs.now ≤ input_bytes }
    ensures { result ≡ second_scan grade bs.now }
{
    and_slot(first_scan(grade, bs), 0x01, bs)
}

fn scan_extern(grade: u32, bs: &[u8]) -> Result<Span, Fault>
    requires { length bs.now ≤ input_bytes }
    ensures { result ≡ scan_extern grade bs.now }
{
    let Span {
        took: at,
        made: due,
    } = and_slot(second_scan(grade, bs), 0x02, bs)?;
    end_scan(bs, at, due)
}

fn scan_bound(bs: &[u8]) -> Result<Span, Fault>
    requires { length bs.now ≤ input_bytes }
    ensures { result ≡ scan_bound bs.now }
{
    if bs.len() <= 1 {
        return cut_short(bs);
    }
    let b = byte_at(bs, 1);
    if b == 0 {
        return index_behind(3, 2, bs);
    }
    if b == 1 {
        return Ok(Span { took: 2, made: 3 });
    }
    Err(Fault {
        why: Refusal::Code,
        value: 1,
    })
}

// 00 11 and an index, which make m words.
fn scan_module(m: usize, bs: &[u8]) -> Result<Span, Fault>
    requires { length bs.now ≤ input_bytes }
    ensures { result ≡ scan_module m bs.now }
{
    if bs.len() <= 1 {
        return cut_short(bs);
    }
    if byte_at(bs, 1) == 0x11 {
        return index_behind(m, 2, bs);
    }
    Err(Fault {
        why: Refusal::Code,
        value: 1,
    })
}

// A value type as a reference has three words.
fn scan_value_reference(grade: u32, bs: &[u8]) -> Result<Span, Fault>
    requires { length bs.now ≤ input_bytes }
    ensures { result ≡ three (past 1 (scan_value grade (drop 1 bs.now))) }
{
    let value = value_behind(grade, bs)?;
    Ok(Span {
        took: value.took,
        made: 3,
    })
}

fn scan_reference(grade: u32, bs: &[u8]) -> Result<Span, Fault>
    requires { length bs.now ≤ input_bytes }
    ensures { result ≡ scan_reference grade bs.now }
{
    if bs.len() <= 0 {
        return cut_short(bs);
    }
    let sort = byte_at(bs, 0);
    if sort == 0 {
        return scan_module(3, bs);
    }
    if sort == 2 {
        return scan_value_reference(grade, bs);
    }
    if sort == 3 {
        return scan_bound(bs);
    }
    if sort < 6 {
        return index_behind(3, 1, bs);
    }
    Err(Fault {
        why: Refusal::Code,
        value: 0,
    })
}

// One of two bytes, the second of grade n.
fn scan_either(grade: u32, n: u32, a: u8, b: u8, bs: &[u8]) -> Result<Span, Fault>
    ensures { result ≡ scan_either grade n a b bs.now }
{
    if bs.len() <= 0 {
        return cut_short(bs);
    }
    let c = byte_at(bs, 0);
    if c == a {
        return Ok(Span { took: 1, made: 1 });
    }
    if c == b {
        return asked_at(grade, n, 0, Ok(Span { took: 1, made: 1 }));
    }
    Err(Fault {
        why: Refusal::Code,
        value: 0,
    })
}

fn scan_optional_index(bs: &[u8]) -> Result<Span, Fault>
    requires { length bs.now ≤ input_bytes }
    ensures { result ≡ scan_optional_index bs.now }
{
    if bs.len() <= 0 {
        return cut_short(bs);
    }
    let b = byte_at(bs, 0);
    if b == 0x00 {
        return Ok(Span { took: 1, made: 2 });
    }
    if b == 0x01 {
        return index_behind(2, 1, bs);
    }
    Err(Fault {
        why: Refusal::Code,
        value: 0,
    })
}

// A byte b of grade `lead`, which makes no word.
fn scan_fixed(lead: u32, grade: u32, b: u8, bs: &[u8]) -> Result<Span, Fault>
    ensures { result ≡ scan lead grade (Field.Fixed b) bs.now }
{
    if bs.len() <= 0 {
        return cut_short(bs);
    }
    if byte_at(bs, 0) == b {
        return asked_at(grade, lead, 0, Ok(Span { took: 1, made: 0 }));
    }
    Err(Fault {
        why: Refusal::Code,
        value: 0,
    })
}

fn scan_primitive(grade: u32, bs: &[u8]) -> Result<Span, Fault>
    ensures { result ≡ there bs.now 0 (scan_primitive grade (get_or bs.now 0 0) (Fine 1 1)) }
{
    if bs.len() <= 0 {
        return cut_short(bs);
    }
    primitive_or(grade, byte_at(bs, 0), Ok(Span { took: 1, made: 1 }))
}

// 12 and an index.
fn scan_argument(bs: &[u8]) -> Result<Span, Fault>
    requires { length bs.now ≤ input_bytes }
    ensures { result ≡ scan_argument bs.now }
{
    if bs.len() <= 0 {
        return cut_short(bs);
    }
    if byte_at(bs, 0) == 0x12 {
        return index_behind(1, 1, bs);
    }
    Err(Fault {
        why: Refusal::Code,
        value: 0,
    })
}

// A core sort and an index.
fn scan_core_sort_index(bs: &[u8]) -> Result<Span, Fault>
    requires { length bs.now ≤ input_bytes }
    ensures { result ≡ scan_core_sort_index bs.now }
{
    if bs.len() <= 0 {
        return cut_short(bs);
    }
    if byte_at(bs, 0) < 5 {
        return index_behind(2, 1, bs);
    }
    Err(Fault {
        why: Refusal::Code,
        value: 0,
    })
}

// A sort and an index.
fn scan_sort_index(bs: &[u8]) -> Result<Span, Fault>
    requires { length bs.now ≤ input_bytes }
    ensures { result ≡ scan_sort_index bs.now }
{
    if bs.len() <= 0 {
        return cut_short(bs);
    }
    let sort = byte_at(bs, 0);
    if sort == 0 {
        return scan_module(2, bs);
    }
    if sort < 6 {
        return index_behind(2, 1, bs);
    }
    Err(Fault {
        why: Refusal::Code,
        value: 0,
    })
}

// What stands at the front of the input, as that field.
pub fn scan_field(f: Field, lead: u32, grade: u32, bs: &[u8]) -> Result<Span, Fault>
    requires { length bs.now ≤ input_bytes }
    ensures { result ≡ scan lead grade f bs.now }
{
    match f {
        Field::Nothing => Ok(Span { took: 0, made: 0 }),
        Field::Fixed(b) => scan_fixed(lead, grade, b, bs),
        Field::Primitive => scan_primitive(grade, bs),
        Field::Value => scan_value(grade, bs),
        Field::Optional => scan_optional(grade, bs),
        Field::OptionalThenZero => scan_case(grade, bs),
        Field::Result => scan_result(grade, bs),
        Field::Name => scan_name(bs),
        Field::Index => scan_index(1, bs),
        Field::Async => scan_either(grade, grade_of(Site::TypeLead, 0x43), 0x40, 0x43, bs),
        Field::Flag => scan_either(grade, 1, 0x00, 0x01, bs),
        Field::Rep => scan_either(grade, 1, 0x7f, 0x7e, bs),
        Field::OptionalIndex => scan_optional_index(bs),
        Field::Choice => scan_choice(grade, bs),
        Field::ExternName => scan_extern(grade, bs),
        Field::Reference => scan_reference(grade, bs),
        Field::Argument => scan_argument(bs),
        Field::CoreSortIndex => scan_core_sort_index(bs),
        Field::SortIndex => scan_sort_index(bs),
    }
}
