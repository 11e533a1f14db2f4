// Whether the words of a field are right.
ghost use Rattle.std.specs.Prelude.{true, ◌≡◌, ◌<◌, ◌+◌, ◌^◌, get_or};
ghost use Rattle.fields.specs.Words.{wide};
ghost use Rattle.writing.specs.Judge.{then, below, unused, value, optional_value, named, optional_index, choice, optional_name, reference, flaw};
ghost use Rattle.writing.specs.inside.Extern.{option_words};

use fields::{Fault, Field, Refusal, is_indexed, offset_of};
use numbers::NotText;

// How many words a field has.
pub fn wide_of(f: Field) -> usize
    ensures { result ≡ wide f }
{
    match f {
        Field::Nothing => 0,
        Field::Fixed(_) => 0,
        Field::Primitive => 1,
        Field::Value => 2,
        Field::Optional => 2,
        Field::OptionalThenZero => 2,
        Field::Result => 2,
        Field::Name => 2,
        Field::Index => 1,
        Field::Async => 1,
        Field::Flag => 1,
        Field::Rep => 1,
        Field::OptionalIndex => 2,
        Field::Choice => 2,
        Field::ExternName => 11,
        Field::Reference => 3,
        Field::Argument => 1,
        Field::CoreSortIndex => 2,
        Field::SortIndex => 2,
    }
}

// The word at i, 0 past the end.
pub fn word_at(ws: &[u32], i: usize) -> u32
    ensures { result ≡ get_or ws.now i 0 }
{
    if i < ws.len() {
        return ws[i];
    }
    0
}

fn below_at(n: u32, ws: &[u32], i: usize) -> Result<(), Fault>
    ensures { result ≡ below n ws.now i }
{
    if word_at(ws, i) < n {
        return Ok(());
    }
    Err(Fault {
        why: Refusal::Tag,
        value: i,
    })
}

fn unused_at(ws: &[u32], i: usize) -> Result<(), Fault>
    ensures { result ≡ unused ws.now i }
{
    if word_at(ws, i) == 0 {
        return Ok(());
    }
    Err(Fault {
        why: Refusal::Tag,
        value: i,
    })
}

fn value_at(ws: &[u32], i: usize) -> Result<(), Fault>
    requires { i < 2 ^ 42 }
    ensures { result ≡ value ws.now i }
{
    let tag = word_at(ws, i);
    if tag == 0 {
        return below_at(14, ws, i + 1);
    }
    if tag == 1 {
        return Ok(());
    }
    Err(Fault {
        why: Refusal::Tag,
        value: i,
    })
}

fn optional_value_at(ws: &[u32], i: usize) -> Result<(), Fault>
    requires { i < 2 ^ 42 }
    ensures { result ≡ optional_value ws.now i }
{
    if word_at(ws, i) == 2 {
        return unused_at(ws, i + 1);
    }
    value_at(ws, i)
}

fn named_at(pool: &[u8], ws: &[u32], i: usize) -> Result<(), Fault>
    requires { i < 2 ^ 42 }
    ensures { result ≡ named pool.now ws.now i }
{
    let start = word_at(ws, i) as usize;
    let size = word_at(ws, i + 1) as usize;
    let end = start + size;
    if pool.len() < end {
        return Err(Fault {
            why: Refusal::Range,
            value: i,
        });
    }
    match numbers::spelling_of(&pool[start..end]) {
        Ok(()) => Ok(()),
        Err(NotText { stop: byte }) => Err(Fault {
            why: Refusal::Text(offset_of(byte as u32)),
            value: i,
        }),
    }
}

fn optional_index_of(ws: &[u32]) -> Result<(), Fault>
    ensures { result ≡ optional_index ws.now }
{
    let present = word_at(ws, 0);
    if present == 0 {
        return unused_at(ws, 1);
    }
    if present == 1 {
        return Ok(());
    }
    Err(Fault {
        why: Refusal::Tag,
        value: 0,
    })
}

fn choice_of(ws: &[u32]) -> Result<(), Fault>
    ensures { result ≡ choice ws.now }
{
    let k = word_at(ws, 0);
    if k < 10 {
        if is_indexed(k) {
            return Ok(());
        }
        return unused_at(ws, 1);
    }
    Err(Fault {
        why: Refusal::Tag,
        value: 0,
    })
}

fn first_flaw(a: Result<(), Fault>, b: Result<(), Fault>) -> Result<(), Fault>
    ensures { result ≡ then a b }
{
    a.and(b)
}

fn optional_name_at(pool: &[u8], ws: &[u32], i: usize) -> Result<(), Fault>
    requires { i < 99 }
    ensures { result ≡ optional_name pool.now ws.now i }
{
    let present = word_at(ws, i);
    if present == 0 {
        return first_flaw(unused_at(ws, i + 1), unused_at(ws, i + 2));
    }
    if present == 1 {
        return named_at(pool, ws, i + 1);
    }
    Err(Fault {
        why: Refusal::Tag,
        value: i,
    })
}

// The three words of an option together: 0 where each is.
fn three_at(ws: &[u32], i: usize) -> u64
    requires { i < 100 }
    ensures { (result ≡ get_or ws.now i 0 + get_or ws.now (i + 1) 0 + get_or ws.now (i + 2) 0) × (result < 2 ^ 34) }
{
    let present = word_at(ws, i) as u64;
    let start = word_at(ws, i + 1) as u64;
    let size = word_at(ws, i + 2) as u64;
    present + start + size
}

// Whether no option is present, as in most imports: then none needs to be judged.
pub fn is_bare(ws: &[u32]) -> bool
    ensures { result ≡ true → option_words ws.now ≡ 0 }
{
    if ws.len() < 11 {
        return false;
    }
    let sum = three_at(ws, 2) + three_at(ws, 5) + three_at(ws, 8);
    if sum == 0 {
        return true;
    }
    false
}

pub fn extern_name_of(pool: &[u8], ws: &[u32]) -> Result<(), Fault>
    ensures { result ≡ flaw pool.now Field.ExternName ws.now }
{
    let name = named_at(pool, ws, 0);
    if is_bare(ws) {
        return name;
    }
    let implements = optional_name_at(pool, ws, 2);
    let suffix = optional_name_at(pool, ws, 5);
    let id = optional_name_at(pool, ws, 8);
    first_flaw(name, first_flaw(implements, first_flaw(suffix, id)))
}

fn reference_of(ws: &[u32]) -> Result<(), Fault>
    ensures { result ≡ reference ws.now }
{
    let sort = word_at(ws, 0);
    if sort == 2 {
        return value_at(ws, 1);
    }
    if sort == 3 {
        let bound = word_at(ws, 1);
        if bound == 0 {
            return Ok(());
        }
        if bound == 1 {
            return unused_at(ws, 2);
        }
        return Err(Fault {
            why: Refusal::Tag,
            value: 1,
        });
    }
    if sort < 6 {
        return unused_at(ws, 2);
    }
    Err(Fault {
        why: Refusal::Tag,
        value: 0,
    })
}

// The first word of a field that is not right.
pub fn flaw_of(f: Field, pool: &[u8], ws: &[u32]) -> Result<(), Fault>
    ensures { result ≡ flaw pool.now f ws.now }
{
    match f {
        Field::Nothing => Ok(()),
        Field::Fixed(_) => Ok(()),
        Field::Primitive => below_at(14, ws, 0),
        Field::Value => value_at(ws, 0),
        Field::Optional => optional_value_at(ws, 0),
        Field::OptionalThenZero => optional_value_at(ws, 0),
        Field::Result => optional_value_at(ws, 0),
        Field::Name => named_at(pool, ws, 0),
        Field::Index => Ok(()),
        Field::Async => below_at(2, ws, 0),
        Field::Flag => below_at(2, ws, 0),
        Field::Rep => below_at(2, ws, 0),
        Field::OptionalIndex => optional_index_of(ws),
        Field::Choice => choice_of(ws),
        Field::ExternName => extern_name_of(pool, ws),
        Field::Reference => reference_of(ws),
        Field::Argument => Ok(()),
        Field::CoreSortIndex => below_at(5, ws, 0),
        Field::SortIndex => below_at(6, ws, 0),
    }
}
