// The words of a field that is right, stored in a row: it answers how many bytes the field takes.
ghost use Rattle.std.specs.Prelude.{◌<◌, ◌≤◌, ◌+◌, ◌≡◌, IsSome, Some, length};
ghost use Rattle.std.proofs.lemmas.List.Edits.{sets};
ghost use Rattle.fields.specs.Limits.{input_bytes};
ghost use Rattle.fields.specs.Words.{wide};
ghost use Rattle.reading.specs.Fill.{fill};
ghost use Rattle.reading.specs.Scan.{scan};
ghost use Rattle.reading.specs.inside.Steps.{end_of};
ghost use Rattle.instance_items.specs.inside.Group.{group_one, group_two};
ghost use Rattle.instance_items.specs.inside.Extern.{moved_start, moved_slot, moved_extern, Near};

use crate::fields_of::second;
use items::{Extern, Slot};
use numbers::seen_unsigned;

// The start of an option, whose extern name stands at a place.
fn moved(s: Slot, at: usize) -> u32
    requires { at + s.start < 4294967296 }
    ensures { result ≡ moved_start at s }
{
    if s.present == 0 {
        return 0;
    }
    at as u32 + s.start
}

// The words of an option.
fn store_slot(s: Slot, at: usize, row: &mut [u32], to: usize)
    requires { (to + 3 ≤ length row.old) × (at + s.start < 4294967296) }
    ensures { row.new ≡ sets row.old to (moved_slot at s) }
{
    row[to] = s.present;
    row[to + 1] = moved(s, at);
    row[to + 2] = s.size;
}

// The words of an extern name that stands at a place.
fn store_extern(e: Extern, at: usize, row: &mut [u32], to: usize)
    requires { (to + 11 ≤ length row.old) × Near at e }
    ensures { row.new ≡ sets row.old to (moved_extern at e) }
{
    row[to] = at as u32 + e.start;
    row[to + 1] = e.size;
    store_slot(e.implements, at, row, to + 2);
    store_slot(e.suffix, at, row, to + 5);
    store_slot(e.id, at, row, to + 8);
}

// The first field, which starts at a place: a name, or an extern name.
pub fn store_one(kind: u32, grade: u32, bs: &[u8], at: usize, row: &mut [u32], to: usize) -> usize
    requires bs_bound { (at + length bs.now ≤ input_bytes) × (to + wide (group_one kind) ≤ length row.old) × (1 ≤ grade) × (grade ≤ 3) }
    requires right { IsSome (end_of (scan 1 grade (group_one kind) bs.now)) }
    ensures { (Some result ≡ end_of (scan 1 grade (group_one kind) bs.now)) × (row.new ≡ sets row.old to (fill grade (group_one kind) at bs.now)) }
{
    if kind == 21 {
        let e = items::extern_name(grade, bs).unwrap();
        store_extern(e, at, row, to);
        return e.took;
    }
    let n = seen_unsigned(bs).unwrap();
    row[to] = (at + n.took) as u32;
    row[to + 1] = n.value;
    n.took + (n.value as usize)
}

// The second field.
pub fn store_two(kind: u32, bs: &[u8], row: &mut [u32], to: usize) -> usize
    requires kind_in_bounds { to + wide (group_two kind) ≤ length row.old }
    requires right { IsSome (end_of (scan 1 1 (group_two kind) bs.now)) }
    ensures { (Some result ≡ end_of (scan 1 1 (group_two kind) bs.now)) × (row.new ≡ sets row.old to (fill 1 (group_two kind) 0 bs.now)) }
{
    let two = second(kind, bs).unwrap();
    row[to] = two.a;
    if kind == 18 {
        return two.took;
    }
    row[to + 1] = two.b;
    two.took
}
