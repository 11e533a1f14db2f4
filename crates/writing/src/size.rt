// How many bytes a field has, by its words alone.
ghost use Rattle.std.specs.Prelude.{◌≡◌, ◌<◌, ◌≤◌, ◌+◌, ◌^◌, get_or, length};
ghost use Rattle.numbers.specs.Leb.{unsigned};
ghost use Rattle.writing.specs.Binary.{slots, flag};
ghost use Rattle.writing.specs.inside.Size.{value_size, optional_size, name_size, slot_size, slots_size, extern_size, reference_size, sort_index_size, size};

use crate::judge::word_at;
use fields::{Field, is_indexed};

// The index at i as a u32.
fn index_size(ws: &[u32], i: usize) -> usize
    ensures { (result ≡ length (unsigned (get_or ws.now i 0))) × (result ≤ 5) }
{
    numbers::unsigned_size(word_at(ws, i))
}

fn value_size(ws: &[u32], i: usize) -> usize
    requires { i < 2 ^ 42 }
    ensures { (result ≡ value_size ws.now i) × (result ≤ 5) }
{
    if word_at(ws, i) == 0 {
        return 1;
    }
    numbers::signed_size(word_at(ws, i + 1))
}

fn optional_size(absent: usize, ws: &[u32], i: usize) -> usize
    requires { (absent ≤ 2) × (i < 2 ^ 42) }
    ensures { (result ≡ optional_size absent ws.now i) × (result ≤ 6) }
{
    if word_at(ws, i) == 2 {
        return absent;
    }
    1 + value_size(ws, i)
}

fn name_size(ws: &[u32], i: usize) -> usize
    requires { i < 2 ^ 42 }
    ensures { (result ≡ name_size ws.now i) × (result ≤ 2 ^ 32 + 5) }
{
    let size = word_at(ws, i + 1);
    numbers::unsigned_size(size) + (size as usize)
}

fn slot_size(ws: &[u32], i: usize) -> usize
    requires { i < 99 }
    ensures { (result ≡ slot_size ws.now i) × (result ≤ 2 ^ 32 + 6) }
{
    if word_at(ws, i) == 0 {
        return 0;
    }
    1 + name_size(ws, i + 1)
}

fn slots_size(ws: &[u32]) -> usize
    ensures { (result ≡ slots_size ws.now) × (result ≤ 2 ^ 34) }
{
    slot_size(ws, 2) + (slot_size(ws, 5) + slot_size(ws, 8))
}

// 1 where the word at i is not 0.
fn present_at(ws: &[u32], i: usize) -> usize
    ensures { (result ≡ flag (get_or ws.now i 0)) × (result ≤ 1) }
{
    if word_at(ws, i) == 0 {
        return 0;
    }
    1
}

// How many options of an extern name are present.
pub fn slots_of(ws: &[u32]) -> usize
    ensures { (result ≡ slots ws.now) × (result ≤ 3) }
{
    present_at(ws, 2) + (present_at(ws, 5) + present_at(ws, 8))
}

pub fn extern_size(ws: &[u32]) -> usize
    ensures { (result ≡ extern_size ws.now) × (result ≤ 2 ^ 35) }
{
    if slots_of(ws) == 0 {
        return 1 + name_size(ws, 0);
    }
    2 + (name_size(ws, 0) + slots_size(ws))
}

fn reference_size(ws: &[u32]) -> usize
    ensures { (result ≡ reference_size ws.now) × (result ≤ 7) }
{
    let sort = word_at(ws, 0);
    if sort == 0 {
        return 2 + index_size(ws, 1);
    }
    if sort == 2 {
        return 1 + value_size(ws, 1);
    }
    if sort == 3 {
        if word_at(ws, 1) == 0 {
            return 2 + index_size(ws, 2);
        }
        return 2;
    }
    1 + index_size(ws, 1)
}

fn optional_index_size(ws: &[u32]) -> usize
    ensures { (result ≡ size Field.OptionalIndex ws.now) × (result ≤ 6) }
{
    if word_at(ws, 0) == 0 {
        return 1;
    }
    1 + index_size(ws, 1)
}

fn choice_size(ws: &[u32]) -> usize
    ensures { (result ≡ size Field.Choice ws.now) × (result ≤ 6) }
{
    if is_indexed(word_at(ws, 0)) {
        return 1 + index_size(ws, 1);
    }
    1
}

fn sort_index_size(ws: &[u32]) -> usize
    ensures { (result ≡ sort_index_size ws.now) × (result ≤ 7) }
{
    if word_at(ws, 0) == 0 {
        return 2 + index_size(ws, 1);
    }
    1 + index_size(ws, 1)
}

pub fn size_of(f: Field, ws: &[u32]) -> usize
    ensures { (result ≡ size f ws.now) × (result ≤ 2 ^ 35) }
{
    match f {
        Field::Nothing => 0,
        Field::Fixed(_) => 1,
        Field::Primitive => 1,
        Field::Value => value_size(ws, 0),
        Field::Optional => optional_size(1, ws, 0),
        Field::OptionalThenZero => optional_size(1, ws, 0) + 1,
        Field::Result => optional_size(2, ws, 0),
        Field::Name => name_size(ws, 0),
        Field::Index => index_size(ws, 0),
        Field::Async => 1,
        Field::Flag => 1,
        Field::Rep => 1,
        Field::OptionalIndex => optional_index_size(ws),
        Field::Choice => choice_size(ws),
        Field::ExternName => extern_size(ws),
        Field::Reference => reference_size(ws),
        Field::Argument => 1 + index_size(ws, 0),
        Field::CoreSortIndex => 1 + index_size(ws, 1),
        Field::SortIndex => sort_index_size(ws),
    }
}
