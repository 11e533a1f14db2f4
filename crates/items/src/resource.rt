// resource: a representation and perhaps a destructor, read once.
ghost use Rattle.std.specs.Prelude.{ℕ, ◌<◌, ◌≤◌, ◌+◌, ◌∷◌, [], ◌≡◌, length};
ghost use Rattle.fields.specs.declared.Field.TheVariants as field;
ghost use Rattle.writing.specs.Binary.{destructor};
ghost use Rattle.reading.specs.Seen.{one, pair};
ghost use Rattle.reading.specs.inside.Steps.{scans, fills};
ghost use Rattle.items.specs.inside.Item.{Told};
ghost use Rattle.types.specs.Table.{two};
ghost use Rattle.fields.specs.Limits.{input_bytes};

use crate::item::Item;
use numbers::{Number, seen_unsigned};
use reading::Pair;

// A representation: 7f or 7e.
fn rep(bs: &[u8]) -> Option<Number>
    ensures { (g : ℕ) → 1 ≤ g → result ≡ one g field.Rep bs.now }
{
    if 0 < bs.len() {
        if bs[0] == 0x7f {
            return Some(Number { value: 0, took: 1 });
        }
        if bs[0] == 0x7e {
            return Some(Number { value: 1, took: 1 });
        }
    }
    None
}

// A destructor: 00, or 01 and an index.
fn destructor(bs: &[u8]) -> Option<Pair>
    ensures { (g : ℕ) → result ≡ pair g field.OptionalIndex bs.now }
{
    if 0 < bs.len() {
        if bs[0] == 0x00 {
            return Some(Pair {
                took: 1,
                a: 0,
                b: 0,
            });
        }
        if bs[0] == 0x01 {
            let n = seen_unsigned(&bs[1..])?;
            return Some(Pair {
                took: 1 + n.took,
                a: 1,
                b: n.value,
            });
        }
    }
    None
}

// Where an item ends, and its words.
pub fn resource_item(input: &[u8]) -> Option<Item>
    requires { (0 < length input.now) × (length input.now ≤ input_bytes) }
    ensures { (g : ℕ) → 1 ≤ g → Told (scans g input.now (field.Rep ∷ field.OptionalIndex ∷ []) 1 1) (fills g input.now (field.Rep ∷ field.OptionalIndex ∷ []) 1) result }
{
    let one = rep(&input[1..])?;
    let two = destructor(&input[2..])?;
    Some(Item {
        took: 2 + two.took,
        words: 4,
        a: one.value,
        b: two.a,
        c: two.b,
        d: 0,
    })
}
