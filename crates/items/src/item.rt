// Kinds without names and counts, read once: where an item ends and its words, by value, and then stored. Kinds with the same fields
// share a reader; resource's stands in resource.rt.
ghost use Rattle.std.specs.Prelude.{ℕ, ◌<◌, ◌≤◌, ◌∷◌, [], ◌≡◌, length, IfSome};
ghost use Rattle.fields.specs.declared.Field.TheVariants as field;
ghost use Rattle.reading.specs.inside.Steps.{scans, fills};
ghost use Rattle.reading.specs.inside.Tried.{left_tried};
ghost use Rattle.items.specs.inside.Item.{Told, stored};
ghost use Rattle.fields.specs.Limits.{input_bytes};

use fields::Extent;
use numbers::seen_unsigned;
use reading::{optional, value};

// An item that is right: the bytes it takes and its words, of which those behind the kind's are a, b, c and d.
#[derive(Clone, Copy)]
pub struct Item {
    pub took: usize,
    pub words: usize,
    pub a: u32,
    pub b: u32,
    pub c: u32,
    pub d: u32,
}

// primvaltype
pub fn primitive_item(grade: u32, input: &[u8]) -> Option<Item>
    ensures { Told (scans grade input.now (field.Primitive ∷ field.Nothing ∷ []) 0 1) (fills grade input.now (field.Primitive ∷ field.Nothing ∷ []) 0) result }
{
    let one = reading::primitive(grade, input)?;
    Some(Item {
        took: one.took,
        words: 2,
        a: one.value,
        b: 0,
        c: 0,
        d: 0,
    })
}

// list, option: a V.
pub fn value_item(grade: u32, input: &[u8]) -> Option<Item>
    requires { (0 < length input.now) × (length input.now ≤ input_bytes) }
    ensures { Told (scans grade input.now (field.Value ∷ field.Nothing ∷ []) 1 1) (fills grade input.now (field.Value ∷ field.Nothing ∷ []) 1) result }
{
    let one = value(grade, &input[1..])?;
    Some(Item {
        took: 1 + one.took,
        words: 3,
        a: one.a,
        b: one.b,
        c: 0,
        d: 0,
    })
}

// map: two V.
pub fn values_item(grade: u32, input: &[u8]) -> Option<Item>
    requires { (0 < length input.now) × (length input.now ≤ input_bytes) }
    ensures { Told (scans grade input.now (field.Value ∷ field.Value ∷ []) 1 1) (fills grade input.now (field.Value ∷ field.Value ∷ []) 1) result }
{
    let one = value(grade, &input[1..])?;
    let next = 1 + one.took;
    let two = value(grade, &input[next..])?;
    Some(Item {
        took: next + two.took,
        words: 5,
        a: one.a,
        b: one.b,
        c: two.a,
        d: two.b,
    })
}

// list of fixed length: a V and a length.
pub fn fixed_item(grade: u32, input: &[u8]) -> Option<Item>
    requires { (0 < length input.now) × (length input.now ≤ input_bytes) }
    ensures { Told (scans grade input.now (field.Value ∷ field.Index ∷ []) 1 1) (fills grade input.now (field.Value ∷ field.Index ∷ []) 1) result }
{
    let one = value(grade, &input[1..])?;
    let next = 1 + one.took;
    let two = seen_unsigned(&input[next..])?;
    Some(Item {
        took: next + two.took,
        words: 4,
        a: one.a,
        b: one.b,
        c: two.value,
        d: 0,
    })
}

// future, stream: an O.
pub fn optional_item(grade: u32, input: &[u8]) -> Option<Item>
    requires { (0 < length input.now) × (length input.now ≤ input_bytes) }
    ensures { Told (scans grade input.now (field.Optional ∷ field.Nothing ∷ []) 1 1) (fills grade input.now (field.Optional ∷ field.Nothing ∷ []) 1) result }
{
    let one = optional(grade, &input[1..])?;
    Some(Item {
        took: 1 + one.took,
        words: 3,
        a: one.a,
        b: one.b,
        c: 0,
        d: 0,
    })
}

// result: two O.
pub fn optionals_item(grade: u32, input: &[u8]) -> Option<Item>
    requires { (0 < length input.now) × (length input.now ≤ input_bytes) }
    ensures { Told (scans grade input.now (field.Optional ∷ field.Optional ∷ []) 1 1) (fills grade input.now (field.Optional ∷ field.Optional ∷ []) 1) result }
{
    let one = optional(grade, &input[1..])?;
    let next = 1 + one.took;
    let two = optional(grade, &input[next..])?;
    Some(Item {
        took: next + two.took,
        words: 5,
        a: one.a,
        b: one.b,
        c: two.a,
        d: two.b,
    })
}

// own, borrow: an index.
pub fn index_item(input: &[u8]) -> Option<Item>
    requires { (0 < length input.now) × (length input.now ≤ input_bytes) }
    ensures { (g : ℕ) → Told (scans g input.now (field.Index ∷ field.Nothing ∷ []) 1 1) (fills g input.now (field.Index ∷ field.Nothing ∷ []) 1) result }
{
    let one = seen_unsigned(&input[1..])?;
    Some(Item {
        took: 1 + one.took,
        words: 2,
        a: one.value,
        b: 0,
        c: 0,
        d: 0,
    })
}

// An item stored, where there is one and it has room.
pub fn store_item(kind: u32, item: Option<Item>, row: &mut [u32]) -> Option<Extent>
    requires { IfSome item (λ r. (2 ≤ r.words) × (r.words ≤ 5)) }
    ensures { left_tried result row.new ≡ stored kind item row.old }
{
    let Item {
        took,
        words,
        a,
        b,
        c,
        d,
    } = item?;
    if row.len() < words {
        return None;
    }
    row[0] = kind;
    row[1] = a;
    if 2 < words {
        row[2] = b;
    }
    if 3 < words {
        row[3] = c;
    }
    if 4 < words {
        row[4] = d;
    }
    Some(Extent { words, took })
}
