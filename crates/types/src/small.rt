// Kinds without names and counts, but for resource, in straight code: how many bytes a row makes, if all of it is seen
// to be right, and its bytes. Kinds with the same fields share both.
ghost use Rattle.std.specs.Prelude.{IfSome, ℕ, ◌<◌, ◌≤◌, ◌+◌, List, ◌∷◌, [], ◌++◌, ◌≡◌, length, Ok, Some};
ghost use Rattle.std.proofs.lemmas.List.Edits.{sets};
ghost use Rattle.numbers.specs.Leb.{unsigned};
ghost use Rattle.fields.specs.Words.{word};
ghost use Rattle.writing.specs.Binary.{primvaltype, valtype, optional};
ghost use Rattle.writing.specs.Row.{measured_row};
ghost use Rattle.fields.specs.Table.{two_of};
ghost use Rattle.types.specs.Table.{two};
ghost use Rattle.fields.specs.Limits.{pool_bytes};

use crate::optional::{optional_size, put_optional};
use fields::Field;
use numbers::{stored_size, unsigned_size};
use writing::value_size;

// primvaltype
pub fn primitive_size(row: &[u32]) -> Option<usize>
    ensures { IfSome result (λ r. (pool : List ℕ) → length pool ≤ pool_bytes → measured_row (Some (two_of Field.Nothing Field.Nothing Field.Primitive Field.Nothing)) row.now pool ≡ Ok r) }
{
    if row.len() != 2 {
        return None;
    }
    if row[1] < 14 {
        return Some(1);
    }
    None
}

pub fn put_primitive(row: &[u32], out: &mut [u8], to: usize)
    requires { (length row.now ≡ 2) × (to + 1 ≤ length out.old) }
    ensures { out.new ≡ sets out.old to (primvaltype (word row.now 1) ∷ []) }
{
    let _ = writing::put_value(0, row[1], to, out);
}

// list, option: a V.
pub fn value_row_size(row: &[u32]) -> Option<usize>
    ensures { IfSome result (λ r. (lead : ℕ) (pool : List ℕ) → length pool ≤ pool_bytes → measured_row (Some (two lead Field.Value Field.Nothing)) row.now pool ≡ Ok r) }
{
    if row.len() != 3 {
        return None;
    }
    Some(1 + value_size(row[1], row[2])?)
}

// In its callers' code, as the put of a row of this size costs little more than a call.
#[inline(always)]
pub fn put_value_row(lead: u8, row: &[u32], out: &mut [u8], to: usize)
    requires row_len { length row.now ≡ 3 }
    requires row_in_bounds { to + (1 + length (valtype (word row.now 1) (word row.now 2))) ≤ length out.old }
    ensures { out.new ≡ sets out.old to (lead ∷ valtype (word row.now 1) (word row.now 2)) }
{
    out[to] = lead;
    let _ = writing::put_value(row[1], row[2], to + 1, out);
}

// map: two V.
pub fn values_row_size(row: &[u32]) -> Option<usize>
    ensures { IfSome result (λ r. (lead : ℕ) (pool : List ℕ) → length pool ≤ pool_bytes → measured_row (Some (two lead Field.Value Field.Value)) row.now pool ≡ Ok r) }
{
    if row.len() != 5 {
        return None;
    }
    Some(1 + value_size(row[1], row[2])? + value_size(row[3], row[4])?)
}

pub fn put_values_row(lead: u8, row: &[u32], out: &mut [u8], to: usize)
    requires row_len { length row.now ≡ 5 }
    requires row_in_bounds { to + (1 + (length (valtype (word row.now 1) (word row.now 2)) + length (valtype (word row.now 3) (word row.now 4)))) ≤ length out.old }
    ensures { out.new ≡ sets out.old to (lead ∷ (valtype (word row.now 1) (word row.now 2) ++ valtype (word row.now 3) (word row.now 4))) }
{
    out[to] = lead;
    let next = to + 1 + stored_size(writing::put_value(row[1], row[2], to + 1, out));
    let _ = writing::put_value(row[3], row[4], next, out);
}

// list of fixed length: a V and a length.
pub fn fixed_row_size(row: &[u32]) -> Option<usize>
    ensures { IfSome result (λ r. (lead : ℕ) (pool : List ℕ) → length pool ≤ pool_bytes → measured_row (Some (two lead Field.Value Field.Index)) row.now pool ≡ Ok r) }
{
    if row.len() != 4 {
        return None;
    }
    Some(1 + value_size(row[1], row[2])? + unsigned_size(row[3]))
}

pub fn put_fixed_row(lead: u8, row: &[u32], out: &mut [u8], to: usize)
    requires row_len { length row.now ≡ 4 }
    requires row_in_bounds { to + (1 + (length (valtype (word row.now 1) (word row.now 2)) + length (unsigned (word row.now 3)))) ≤ length out.old }
    ensures { out.new ≡ sets out.old to (lead ∷ (valtype (word row.now 1) (word row.now 2) ++ unsigned (word row.now 3))) }
{
    out[to] = lead;
    let next = to + 1 + stored_size(writing::put_value(row[1], row[2], to + 1, out));
    let _ = numbers::put_unsigned(row[3], next, out);
}

// result: two O.
pub fn optionals_row_size(row: &[u32]) -> Option<usize>
    ensures { IfSome result (λ r. (lead : ℕ) (pool : List ℕ) → length pool ≤ pool_bytes → measured_row (Some (two lead Field.Optional Field.Optional)) row.now pool ≡ Ok r) }
{
    if row.len() != 5 {
        return None;
    }
    Some(1 + optional_size(1, row[1], row[2])? + optional_size(1, row[3], row[4])?)
}

pub fn put_optionals_row(lead: u8, row: &[u32], out: &mut [u8], to: usize)
    requires row_len { length row.now ≡ 5 }
    requires row_in_bounds { to + (1 + (length (optional (word row.now 1) (word row.now 2)) + length (optional (word row.now 3) (word row.now 4)))) ≤ length out.old }
    ensures { out.new ≡ sets out.old to (lead ∷ (optional (word row.now 1) (word row.now 2) ++ optional (word row.now 3) (word row.now 4))) }
{
    out[to] = lead;
    let next = put_optional(row[1], row[2], out, to + 1);
    put_optional(row[3], row[4], out, next);
}

// own, borrow: an index.
pub fn index_row_size(row: &[u32]) -> Option<usize>
    ensures { IfSome result (λ r. (lead : ℕ) (pool : List ℕ) → length pool ≤ pool_bytes → measured_row (Some (two lead Field.Index Field.Nothing)) row.now pool ≡ Ok r) }
{
    if row.len() != 2 {
        return None;
    }
    Some(1 + unsigned_size(row[1]))
}

pub fn put_index_row(lead: u8, row: &[u32], out: &mut [u8], to: usize)
    requires row_len { length row.now ≡ 2 }
    requires row_in_bounds { to + (1 + length (unsigned (word row.now 1))) ≤ length out.old }
    ensures { out.new ≡ sets out.old to (lead ∷ unsigned (word row.now 1)) }
{
    out[to] = lead;
    let _ = numbers::put_unsigned(row[1], to + 1, out);
}

// future, stream: an O.
pub fn optional_row_size(row: &[u32]) -> Option<usize>
    ensures { IfSome result (λ r. (lead : ℕ) (pool : List ℕ) → length pool ≤ pool_bytes → measured_row (Some (two lead Field.Optional Field.Nothing)) row.now pool ≡ Ok r) }
{
    if row.len() != 3 {
        return None;
    }
    Some(1 + optional_size(1, row[1], row[2])?)
}

pub fn put_optional_row(lead: u8, row: &[u32], out: &mut [u8], to: usize)
    requires row_len { length row.now ≡ 3 }
    requires row_in_bounds { to + (1 + length (optional (word row.now 1) (word row.now 2))) ≤ length out.old }
    ensures { out.new ≡ sets out.old to (lead ∷ optional (word row.now 1) (word row.now 2)) }
{
    out[to] = lead;
    put_optional(row[1], row[2], out, to + 1);
}
