// What stands before a row's elements: a byte, the index of what is instantiated, and the count.
ghost use Rattle.std.specs.Prelude.{IfSome, ◌+◌, ◌<◌, ◌≤◌, ◌∷◌, length};
ghost use Rattle.numbers.specs.Leb.{unsigned};
ghost use Rattle.fields.specs.Words.{word};
ghost use Rattle.writing.specs.inside.Wrote.{Wrote};
ghost use Rattle.instances.specs.inside.Head.{instantiate_head, export_items_head, Headed};

use numbers::{stored_size, unsigned_size};

// A byte and an index; the place past them.
pub fn put_lead(lead: u8, x: u32, out: &mut [u8], to: usize) -> usize
    requires { to + (1 + length (unsigned x)) ≤ length out.old }
    ensures { Wrote out.old to (lead ∷ unsigned x) result out.new }
{
    out[to] = lead;
    to + 1 + stored_size(numbers::put_unsigned(x, to + 1, out))
}

// 00, an index and a count; none where the row is not as long as so many elements of `wide` words make it.
pub fn instantiate_head_size(row: &[u32], wide: usize) -> Option<usize>
    requires { wide ≤ 16 }
    ensures headed { IfSome result (λ r. Headed (instantiate_head row.now) row.now 3 (word row.now 2) wide r) }
    ensures upper_bound { IfSome result (λ r. r ≤ 16) }
{
    if row.len() < 3 {
        return None;
    }
    let n = row[2] as usize;
    if row.len() != 3 + n * wide {
        return None;
    }
    Some(1 + unsigned_size(row[1]) + unsigned_size(row[2]))
}

pub fn put_instantiate_head(row: &[u32], out: &mut [u8], to: usize) -> usize
    requires in_bounds { 3 ≤ length row.now }
    requires row_in_bounds { to + length (instantiate_head row.now) ≤ length out.old }
    ensures { Wrote out.old to (instantiate_head row.now) result out.new }
{
    let next = put_lead(0x00, row[1], out, to);
    next + stored_size(numbers::put_unsigned(row[2], next, out))
}

// 01 and a count; none where the row is not as long as so many elements of `wide` words make it.
pub fn export_items_head_size(row: &[u32], wide: usize) -> Option<usize>
    requires { wide ≤ 16 }
    ensures headed { IfSome result (λ r. Headed (export_items_head row.now) row.now 2 (word row.now 1) wide r) }
    ensures upper_bound { IfSome result (λ r. r ≤ 16) }
{
    if row.len() < 2 {
        return None;
    }
    let n = row[1] as usize;
    if row.len() != 2 + n * wide {
        return None;
    }
    Some(1 + unsigned_size(row[1]))
}
