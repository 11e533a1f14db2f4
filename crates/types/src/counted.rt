// Kinds with a count in straight code: how many bytes a row makes, if all of it is seen to be right, and its bytes. Each has loops of
// its own: of one loop over a closure, each closure needs clauses as long as the loop.
ghost use Rattle.std.specs.Prelude.{IfSome, ℕ, ◌<◌, ◌≤◌, ◌+◌, ◌*◌, ◌^◌, List, ◌∷◌, [], ◌++◌, ◌≡◌, length, drop, Ok, Some};
ghost use Rattle.std.proofs.lemmas.List.Edits.{sets};
ghost use Rattle.numbers.specs.Leb.{unsigned};
ghost use Rattle.fields.specs.Words.{word};
ghost use Rattle.writing.specs.Binary.{valtype};
ghost use Rattle.writing.specs.Row.{measured_row};
ghost use Rattle.writing.specs.inside.Wrote.{Wrote};
ghost use Rattle.fields.specs.Shape.{repeated};
ghost use Rattle.fields.specs.Table.{elements};
ghost use Rattle.types.specs.Table.{label, labelvaltype, case, many};
ghost use Rattle.writing.specs.inside.Rows.{Rights, Groups};
ghost use Rattle.fields.specs.Limits.{row_words, pool_bytes};

use crate::optional::{optional_size, put_optional};
use fields::Field;
use numbers::{stored_size, unsigned_size};
use writing::{name_size, value_size};

// n labels, whose words stand from `from` on, with `base` bytes before them.
fn labels_size(row: &[u32], from: usize, n: usize, pool: &[u8], base: usize) -> Option<usize>
    requires pool_len_bound { (length pool.now ≤ pool_bytes) × (length row.now ≤ row_words) }
    requires n_in_bounds { (from + n * 2 ≤ length row.now) × (base ≤ 16) }
    ensures { IfSome result (λ r. Groups pool.now (Field.Name ∷ Field.Nothing ∷ []) (label pool.now) n (drop from row.now) base r) }
{
    let mut at = from;
    let mut made = base;
    for _ in 0..n {
        made += name_size(pool, row[at], row[at + 1])?;
        at += 2;
    }
    Some(made)
}

fn put_labels(row: &[u32], from: usize, n: usize, pool: &[u8], out: &mut [u8], base: usize)
    requires n_in_bounds { from + n * 2 ≤ length row.now }
    requires rights { Rights pool.now (repeated n (Field.Name ∷ Field.Nothing ∷ [])) (drop from row.now) }
    requires row_in_bounds { base + length (elements n 2 (label pool.now) (drop from row.now)) ≤ length out.old }
    ensures { out.new ≡ sets out.old base (elements n 2 (label pool.now) (drop from row.now)) }
{
    let mut at = from;
    let mut to = base;
    for _ in 0..n {
        to += stored_size(writing::put_name(pool, row[at], row[at + 1], to, out));
        at += 2;
    }
}

// n V.
fn values_size(row: &[u32], from: usize, n: usize, base: usize) -> Option<usize>
    requires row_len_bound { length row.now ≤ row_words }
    requires n_in_bounds { (from + n * 2 ≤ length row.now) × (base ≤ 16) }
    ensures { IfSome result (λ r. (pool : List ℕ) → Groups pool (Field.Value ∷ Field.Nothing ∷ []) (λ ws. valtype (word ws 0) (word ws 1)) n (drop from row.now) base r) }
{
    let mut at = from;
    let mut made = base;
    for _ in 0..n {
        made += value_size(row[at], row[at + 1])?;
        at += 2;
    }
    Some(made)
}

fn put_values(row: &[u32], from: usize, n: usize, out: &mut [u8], base: usize)
    requires n_in_bounds { from + n * 2 ≤ length row.now }
    requires row_in_bounds { base + length (elements n 2 (λ ws. valtype (word ws 0) (word ws 1)) (drop from row.now)) ≤ length out.old }
    ensures { out.new ≡ sets out.old base (elements n 2 (λ ws. valtype (word ws 0) (word ws 1)) (drop from row.now)) }
{
    let mut at = from;
    let mut to = base;
    for _ in 0..n {
        to += stored_size(writing::put_value(row[at], row[at + 1], to, out));
        at += 2;
    }
}

// n fields of a record, or parameters: a label and a V.
pub fn fields_size(row: &[u32], from: usize, n: usize, pool: &[u8], base: usize) -> Option<usize>
    requires pool_len_bound { (length pool.now ≤ pool_bytes) × (length row.now ≤ row_words) }
    requires n_in_bounds { (from + n * 4 ≤ length row.now) × (base ≤ 16) }
    ensures { IfSome result (λ r. Groups pool.now (Field.Name ∷ Field.Value ∷ []) (labelvaltype pool.now) n (drop from row.now) base r) }
{
    let mut at = from;
    let mut made = base;
    for _ in 0..n {
        made += name_size(pool, row[at], row[at + 1])? + value_size(row[at + 2], row[at + 3])?;
        at += 4;
    }
    Some(made)
}

pub fn put_fields(
    row: &[u32],
    from: usize,
    n: usize,
    pool: &[u8],
    out: &mut [u8],
    base: usize,
) -> usize
    requires n_in_bounds { from + n * 4 ≤ length row.now }
    requires rights { Rights pool.now (repeated n (Field.Name ∷ Field.Value ∷ [])) (drop from row.now) }
    requires row_in_bounds { base + length (elements n 4 (labelvaltype pool.now) (drop from row.now)) ≤ length out.old }
    ensures { Wrote out.old base (elements n 4 (labelvaltype pool.now) (drop from row.now)) result out.new }
{
    let mut at = from;
    let mut to = base;
    for _ in 0..n {
        to += stored_size(writing::put_name(pool, row[at], row[at + 1], to, out));
        to += stored_size(writing::put_value(row[at + 2], row[at + 3], to, out));
        at += 4;
    }
    to
}

// n cases of a variant: a label, an O and 00.
fn cases_size(row: &[u32], from: usize, n: usize, pool: &[u8], base: usize) -> Option<usize>
    requires pool_len_bound { (length pool.now ≤ pool_bytes) × (length row.now ≤ row_words) }
    requires n_in_bounds { (from + n * 4 ≤ length row.now) × (base ≤ 16) }
    ensures { IfSome result (λ r. Groups pool.now (Field.Name ∷ Field.OptionalThenZero ∷ []) (case pool.now) n (drop from row.now) base r) }
{
    let mut at = from;
    let mut made = base;
    for _ in 0..n {
        let label = name_size(pool, row[at], row[at + 1])?;
        made += label + optional_size(1, row[at + 2], row[at + 3])? + 1;
        at += 4;
    }
    Some(made)
}

fn put_cases(row: &[u32], from: usize, n: usize, pool: &[u8], out: &mut [u8], base: usize)
    requires n_in_bounds { from + n * 4 ≤ length row.now }
    requires rights { Rights pool.now (repeated n (Field.Name ∷ Field.OptionalThenZero ∷ [])) (drop from row.now) }
    requires row_in_bounds { base + length (elements n 4 (case pool.now) (drop from row.now)) ≤ length out.old }
    ensures { out.new ≡ sets out.old base (elements n 4 (case pool.now) (drop from row.now)) }
{
    let mut at = from;
    let mut to = base;
    for _ in 0..n {
        to += stored_size(writing::put_name(pool, row[at], row[at + 1], to, out));
        to = put_optional(row[at + 2], row[at + 3], out, to);
        out[to] = 0x00;
        to += 1;
        at += 4;
    }
}

// record
pub fn record_size(row: &[u32], pool: &[u8]) -> Option<usize>
    requires { (length pool.now ≤ pool_bytes) × (length row.now ≤ row_words) }
    ensures { IfSome result (λ r. measured_row (Some (many 0x72 Field.Name Field.Value)) row.now pool.now ≡ Ok r) }
{
    if row.len() < 2 {
        return None;
    }
    let n = row[1] as usize;
    if row.len() != 2 + n * 4 {
        return None;
    }
    fields_size(row, 2, n, pool, 1 + unsigned_size(row[1]))
}

pub fn put_record(row: &[u32], pool: &[u8], out: &mut [u8], to: usize)
    requires row_len { length row.now ≡ 2 + word row.now 1 * 4 }
    requires rights { Rights pool.now (repeated (word row.now 1) (Field.Name ∷ Field.Value ∷ [])) (drop 2 row.now) }
    requires row_in_bounds { to + length (0x72 ∷ (unsigned (word row.now 1) ++ elements (word row.now 1) 4 (labelvaltype pool.now) (drop 2 row.now))) ≤ length out.old }
    ensures { out.new ≡ sets out.old to (0x72 ∷ (unsigned (word row.now 1) ++ elements (word row.now 1) 4 (labelvaltype pool.now) (drop 2 row.now))) }
{
    out[to] = 0x72;
    let next = to + 1 + stored_size(numbers::put_unsigned(row[1], to + 1, out));
    put_fields(row, 2, row[1] as usize, pool, out, next);
}

// variant
pub fn variant_size(row: &[u32], pool: &[u8]) -> Option<usize>
    requires { (length pool.now ≤ pool_bytes) × (length row.now ≤ row_words) }
    ensures { IfSome result (λ r. measured_row (Some (many 0x71 Field.Name Field.OptionalThenZero)) row.now pool.now ≡ Ok r) }
{
    if row.len() < 2 {
        return None;
    }
    let n = row[1] as usize;
    if row.len() != 2 + n * 4 {
        return None;
    }
    cases_size(row, 2, n, pool, 1 + unsigned_size(row[1]))
}

pub fn put_variant(row: &[u32], pool: &[u8], out: &mut [u8], to: usize)
    requires row_len { length row.now ≡ 2 + word row.now 1 * 4 }
    requires rights { Rights pool.now (repeated (word row.now 1) (Field.Name ∷ Field.OptionalThenZero ∷ [])) (drop 2 row.now) }
    requires row_in_bounds { to + length (0x71 ∷ (unsigned (word row.now 1) ++ elements (word row.now 1) 4 (case pool.now) (drop 2 row.now))) ≤ length out.old }
    ensures { out.new ≡ sets out.old to (0x71 ∷ (unsigned (word row.now 1) ++ elements (word row.now 1) 4 (case pool.now) (drop 2 row.now))) }
{
    out[to] = 0x71;
    let next = to + 1 + stored_size(numbers::put_unsigned(row[1], to + 1, out));
    put_cases(row, 2, row[1] as usize, pool, out, next);
}

// tuple
pub fn tuple_size(row: &[u32]) -> Option<usize>
    requires { length row.now ≤ row_words }
    ensures { IfSome result (λ r. (pool : List ℕ) → length pool ≤ pool_bytes → measured_row (Some (many 0x6f Field.Value Field.Nothing)) row.now pool ≡ Ok r) }
{
    if row.len() < 2 {
        return None;
    }
    let n = row[1] as usize;
    if row.len() != 2 + n * 2 {
        return None;
    }
    values_size(row, 2, n, 1 + unsigned_size(row[1]))
}

pub fn put_tuple(row: &[u32], out: &mut [u8], to: usize)
    requires row_len { length row.now ≡ 2 + word row.now 1 * 2 }
    requires row_in_bounds { to + length (0x6f ∷ (unsigned (word row.now 1) ++ elements (word row.now 1) 2 (λ ws. valtype (word ws 0) (word ws 1)) (drop 2 row.now))) ≤ length out.old }
    ensures { out.new ≡ sets out.old to (0x6f ∷ (unsigned (word row.now 1) ++ elements (word row.now 1) 2 (λ ws. valtype (word ws 0) (word ws 1)) (drop 2 row.now))) }
{
    out[to] = 0x6f;
    let next = to + 1 + stored_size(numbers::put_unsigned(row[1], to + 1, out));
    put_values(row, 2, row[1] as usize, out, next);
}

// flags, enum: labels.
pub fn labels_row_size(row: &[u32], pool: &[u8]) -> Option<usize>
    requires { (length pool.now ≤ pool_bytes) × (length row.now ≤ row_words) }
    ensures { IfSome result (λ r. (lead : ℕ) → measured_row (Some (many lead Field.Name Field.Nothing)) row.now pool.now ≡ Ok r) }
{
    if row.len() < 2 {
        return None;
    }
    let n = row[1] as usize;
    if row.len() != 2 + n * 2 {
        return None;
    }
    labels_size(row, 2, n, pool, 1 + unsigned_size(row[1]))
}

pub fn put_labels_row(lead: u8, row: &[u32], pool: &[u8], out: &mut [u8], to: usize)
    requires row_len { length row.now ≡ 2 + word row.now 1 * 2 }
    requires rights { Rights pool.now (repeated (word row.now 1) (Field.Name ∷ Field.Nothing ∷ [])) (drop 2 row.now) }
    requires row_in_bounds { to + length (lead ∷ (unsigned (word row.now 1) ++ elements (word row.now 1) 2 (label pool.now) (drop 2 row.now))) ≤ length out.old }
    ensures { out.new ≡ sets out.old to (lead ∷ (unsigned (word row.now 1) ++ elements (word row.now 1) 2 (label pool.now) (drop 2 row.now))) }
{
    out[to] = lead;
    let next = to + 1 + stored_size(numbers::put_unsigned(row[1], to + 1, out));
    put_labels(row, 2, row[1] as usize, pool, out, next);
}
