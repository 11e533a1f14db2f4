// An import read once: an extern name and a reference, by value. Each field's reader is lent the input from its place on.
ghost use Rattle.std.specs.Prelude.{ℕ, ◌<◌, ◌≤◌, ◌+◌, ◌≡◌, length, ◌∷◌, [], ◌++◌};
ghost use Rattle.fields.specs.Leaf.{Fine};
ghost use Rattle.reading.specs.Fill.{fill_slot};
ghost use Rattle.reading.specs.Scan.{byte, slot_scan};
ghost use Rattle.items.specs.inside.Import.{three, indexed_three, no_slot, SlotTold, ExternTold, OptionsTold};
ghost use Rattle.items.specs.ReadExtern.{slot_words, extern_words};
ghost use Rattle.fields.specs.Limits.{input_bytes};
ghost use Rattle.std.proofs.lemmas.List.Edits.{sets};
ghost use Rattle.fields.specs.Answers.{left};
ghost use Rattle.reading.specs.inside.Tried.{left_tried, tried_found};
ghost use Rattle.imports.specs.Write.{shape_of};

use fields::Extent;
use numbers::seen_unsigned;
use reading::{Pair, name, value};

// A reference: how many bytes it takes, and its words.
#[derive(Clone, Copy)]
pub struct Three {
    pub took: usize,
    pub a: u32,
    pub b: u32,
    pub c: u32,
}

// An option of an extern name: the place behind it, how many options are still to come, and its words.
#[derive(Clone, Copy)]
pub struct Slot {
    pub next: usize,
    pub due: u32,
    pub present: u32,
    pub start: u32,
    pub size: u32,
}

// An extern name: how many bytes it takes, its name, and its options implements, suffix and id.
#[derive(Clone, Copy)]
pub struct Extern {
    pub took: usize,
    pub start: u32,
    pub size: u32,
    pub implements: Slot,
    pub suffix: Slot,
    pub id: Slot,
}

// A sort and, behind k bytes, an index.
fn indexed(sort: u32, k: usize, bs: &[u8]) -> Option<Three>
    requires { (k ≤ 2) × (k ≤ length bs.now) }
    ensures { result ≡ indexed_three sort k bs.now }
{
    let n = seen_unsigned(&bs[k..])?;
    Some(Three {
        took: k + n.took,
        a: sort,
        b: n.value,
        c: 0,
    })
}

// core module: 00 11 and an index.
fn module(bs: &[u8]) -> Option<Three>
    requires { (0 < length bs.now) × (byte bs.now 0 ≡ 0) }
    ensures { (g : ℕ) → result ≡ three g bs.now }
{
    if 1 < bs.len() {
        if bs[1] == 0x11 {
            return indexed(0, 2, bs);
        }
    }
    None
}

// value: 02 and a V.
fn valued(grade: u32, bs: &[u8]) -> Option<Three>
    requires { (0 < length bs.now) × (byte bs.now 0 ≡ 2) }
    ensures { result ≡ three grade bs.now }
{
    let v = value(grade, &bs[1..])?;
    Some(Three {
        took: 1 + v.took,
        a: 2,
        b: v.a,
        c: v.b,
    })
}

// type: 03 and a bound: 00 and an index, or 01.
fn bound(bs: &[u8]) -> Option<Three>
    requires { (0 < length bs.now) × (byte bs.now 0 ≡ 3) }
    ensures { (g : ℕ) → result ≡ three g bs.now }
{
    if 1 < bs.len() {
        if bs[1] == 0x00 {
            let n = seen_unsigned(&bs[2..])?;
            return Some(Three {
                took: 2 + n.took,
                a: 3,
                b: 0,
                c: n.value,
            });
        }
        if bs[1] == 0x01 {
            return Some(Three {
                took: 2,
                a: 3,
                b: 1,
                c: 0,
            });
        }
    }
    None
}

// What is imported.
pub fn reference(grade: u32, bs: &[u8]) -> Option<Three>
    ensures { result ≡ three grade bs.now }
{
    if 0 < bs.len() {
        let sort = bs[0];
        if sort == 3 {
            return bound(bs);
        }
        if sort == 2 {
            return valued(grade, bs);
        }
        if sort == 0 {
            return module(bs);
        }
        if sort < 6 {
            return indexed(sort as u32, 1, bs);
        }
    }
    None
}

// An option that is not there: the place itself, and how many are still to come.
fn no_slot(next: usize, due: u32) -> Slot
    ensures { result ≡ no_slot next due }
{
    Slot {
        next,
        due,
        present: 0,
        start: 0,
        size: 0,
    }
}

// Option k at a place, with so many options still to come, if it is right: its byte and a string, or not there. It stands in its caller's
// code, which would have to wait for an answer that goes through memory.
#[inline(always)]
fn slot_at(k: u8, input: &[u8], at: usize, due: u32) -> Option<Slot>
    requires { (length input.now ≤ input_bytes) × (0 < at) × (at ≤ length input.now) }
    ensures { SlotTold (slot_scan k input.now at due) (fill_slot k 0 input.now (Fine at due)) result }
{
    if due == 0 {
        return Some(no_slot(at, 0));
    }
    if input.len() <= at {
        return None;
    }
    if input[at] == k {
        let begin = at + 1;
        let n = name(&input[begin..])?;
        return Some(Slot {
            next: begin + n.took,
            due: due - 1,
            present: 1,
            start: begin as u32 + n.a,
            size: n.b,
        });
    }
    Some(no_slot(at, due))
}

// 00 and a name.
fn bare(input: &[u8]) -> Option<Extern>
    requires { (0 < length input.now) × (length input.now ≤ input_bytes) × (byte input.now 0 ≡ 0) }
    ensures { (g : ℕ) → ExternTold g input.now result }
{
    let n = name(&input[1..])?;
    let took = 1 + n.took;
    let absent = no_slot(took, 0);
    Some(Extern {
        took,
        start: 1 + n.a,
        size: n.b,
        implements: absent,
        suffix: absent,
        id: absent,
    })
}

// The options at a place, so many, behind a name.
fn options(name: Pair, input: &[u8], at: usize, count: u32) -> Option<Extern>
    requires { (length input.now ≤ input_bytes) × (0 < at) × (at ≤ length input.now) × (name.a ≤ 5) }
    ensures { OptionsTold name input.now at count result }
{
    let one = slot_at(0x00, input, at, count)?;
    let two = slot_at(0x01, input, one.next, one.due)?;
    let three = slot_at(0x02, input, two.next, two.due)?;
    if 0 < three.due {
        return None;
    }
    Some(Extern {
        took: three.next,
        start: 1 + name.a,
        size: name.b,
        implements: one,
        suffix: two,
        id: three,
    })
}

// 02, a name, and one to three options, each of a byte above the one before.
fn optioned(input: &[u8]) -> Option<Extern>
    requires { (0 < length input.now) × (length input.now ≤ input_bytes) × (byte input.now 0 ≡ 2) }
    ensures { ExternTold 3 input.now result }
{
    let n = name(&input[1..])?;
    let at = 1 + n.took;
    let count = seen_unsigned(&input[at..])?;
    if count.value == 0 {
        return None;
    }
    if 3 < count.value {
        return None;
    }
    options(n, input, at + count.took, count.value)
}

// An extern name; that of 02 is of grade 3.
pub fn extern_name(grade: u32, input: &[u8]) -> Option<Extern>
    requires { (0 < length input.now) × (length input.now ≤ input_bytes) × (1 ≤ grade) × (grade ≤ 3) }
    ensures { ExternTold grade input.now result }
{
    let first = input[0];
    if first == 0x00 {
        return bare(input);
    }
    if first == 0x02 {
        if grade == 3 {
            return optioned(input);
        }
    }
    None
}

// The words of an option.
fn store_slot(s: Slot, row: &mut [u32], to: usize)
    requires { to + 3 ≤ length row.old }
    ensures { row.new ≡ sets row.old to (slot_words s) }
{
    row[to] = s.present;
    row[to + 1] = s.start;
    row[to + 2] = s.size;
}

// The words of an import.
fn store_import(e: Extern, r: Three, row: &mut [u32])
    requires { 15 ≤ length row.old }
    ensures { row.new ≡ sets row.old 0 (17 ∷ (extern_words e ++ (r.a ∷ r.b ∷ r.c ∷ []))) }
{
    row[0] = 17;
    row[1] = e.start;
    row[2] = e.size;
    store_slot(e.implements, row, 3);
    store_slot(e.suffix, row, 6);
    store_slot(e.id, row, 9);
    row[12] = r.a;
    row[13] = r.b;
    row[14] = r.c;
}

// An import read once, and then stored where there is room.
pub fn read_straight(grade: u32, input: &[u8], row: &mut [u32]) -> Option<Extent>
    requires { (0 < length input.now) × (length input.now ≤ input_bytes) × (1 ≤ grade) × (grade ≤ 3) }
    ensures { left_tried result row.new ≡ tried_found (shape_of 17) 17 1 grade input.now row.old }
{
    let e = extern_name(grade, input)?;
    let next = e.took;
    let r = reference(grade, &input[next..])?;
    if row.len() < 15 {
        return None;
    }
    store_import(e, r, row);
    Some(Extent {
        words: 15,
        took: next + r.took,
    })
}
