// An import in straight code: how many bytes a row makes, if all of it is seen to be right, and its bytes.
ghost use Rattle.std.specs.Prelude.{IfSome, Ok, ℕ, ◌<◌, ◌≤◌, ◌+◌, ◌^◌, true, List, ◌∷◌, [], ◌≡◌, length, drop};
ghost use Rattle.std.proofs.lemmas.List.Edits.{sets};
ghost use Rattle.fields.specs.Limits.{pool_bytes};
ghost use Rattle.fields.specs.Flaw.{Right};
ghost use Rattle.writing.specs.Binary.{externname, externdesc};
ghost use Rattle.writing.specs.Judge.{flaw};
ghost use Rattle.writing.specs.Row.{measured_row, row_bytes};
ghost use Rattle.imports.specs.Write.{shape_of};
ghost use Rattle.writing.specs.Sizes.{right_size};
ghost use Rattle.writing.specs.inside.Extern.{option_words};
ghost use Rattle.writing.specs.inside.Rows.{Known, Fits};
ghost use Rattle.writing.specs.inside.Wrote.{Wrote};

use fields::{Field, POOL_BYTES};
use numbers::{stored_size, unsigned_size};

// The reference: what is imported.
fn reference_size(sort: u32, x: u32, y: u32) -> Option<usize>
    ensures known { IfSome result (λ r. (pool : List ℕ) → Known pool Field.Reference (sort ∷ x ∷ y ∷ []) r) }
    ensures upper_bound { IfSome result (λ r. r ≤ 7) }
{
    if sort == 2 {
        let value = writing::value_size(x, y)?;
        return Some(1 + value);
    }
    if sort == 3 {
        if x == 0 {
            return Some(2 + unsigned_size(y));
        }
        if x == 1 && y == 0 {
            return Some(2);
        }
        return None;
    }
    if y == 0 {
        if sort == 0 {
            return Some(2 + unsigned_size(x));
        }
        if sort < 6 {
            return Some(1 + unsigned_size(x));
        }
    }
    None
}

fn put_reference(sort: u32, x: u32, y: u32, out: &mut [u8], to: usize)
    requires { (sort < 6) × (to + length (externdesc sort x y) ≤ length out.old) }
    ensures { out.new ≡ sets out.old to (externdesc sort x y) }
{
    out[to] = sort as u8;
    if sort == 0 {
        out[to + 1] = 0x11;
        let _ = numbers::put_unsigned(x, to + 2, out);
        return;
    }
    if sort == 2 {
        let _ = writing::put_value(x, y, to + 1, out);
        return;
    }
    if sort == 3 {
        if x == 0 {
            out[to + 1] = 0x00;
            let _ = numbers::put_unsigned(y, to + 2, out);
            return;
        }
        out[to + 1] = 0x01;
        return;
    }
    let _ = numbers::put_unsigned(x, to + 1, out);
}

// Three words together: 0 where each is.
fn three(a: u32, b: u32, c: u32) -> u64
    ensures { (result ≡ a + b + c) × (result < 2 ^ 34) }
{
    a as u64 + b as u64 + c as u64
}

// Whether the words of the options are 0, as in most imports.
fn is_bare(row: &[u32]) -> bool
    requires { length row.now ≡ 15 }
    ensures { result ≡ true → option_words (drop 1 row.now) ≡ 0 }
{
    let implements = three(row[3], row[4], row[5]);
    let suffix = three(row[6], row[7], row[8]);
    let id = three(row[9], row[10], row[11]);
    implements + suffix + id == 0
}

// The extern name: without options the name and its lead, which needs no call that knows of options.
fn extern_size(row: &[u32], pool: &[u8]) -> Option<usize>
    requires { (length row.now ≡ 15) × (length pool.now ≤ pool_bytes) }
    ensures { result ≡ right_size pool.now Field.ExternName (drop 1 row.now) }
{
    if is_bare(row) {
        let name = writing::name_size(pool, row[1], row[2])?;
        return Some(1 + name);
    }
    writing::extern_size(&pool[0..], &row[1..])
}

// The extern name at a place; the place past it.
fn put_extern(row: &[u32], pool: &[u8], out: &mut [u8], to: usize) -> usize
    requires row_len { (length row.now ≡ 15) × (flaw pool.now Field.ExternName (drop 1 row.now) ≡ Right) }
    requires row_in_bounds { to + length (externname pool.now (drop 1 row.now)) ≤ length out.old }
    ensures { Wrote out.old to (externname pool.now (drop 1 row.now)) result out.new }
{
    if three(row[3], row[6], row[9]) == 0 {
        out[to] = 0x00;
        return to + 1 + stored_size(writing::put_name(pool, row[1], row[2], to + 1, out));
    }
    to + stored_size(writing::put_extern(&pool[0..], &row[1..], to, out))
}

// import: an extern name and a reference.
pub fn import_size(row: &[u32], pool: &[u8]) -> Option<usize>
    ensures { IfSome result (λ r. measured_row (shape_of 17) row.now pool.now ≡ Ok r) }
{
    if row.len() != 15 || POOL_BYTES < pool.len() {
        return None;
    }
    let reference = reference_size(row[12], row[13], row[14])?;
    let name = extern_size(row, pool)?;
    Some(name + reference)
}

// The bytes of an import that is right and has room.
pub fn put_import(row: &[u32], pool: &[u8], out: &mut [u8], to: usize)
    requires { Fits (shape_of 17) row.now pool.now to (length out.old) }
    ensures { out.new ≡ sets out.old to (row_bytes (shape_of 17) pool.now row.now) }
{
    let end = put_extern(row, pool, out, to);
    put_reference(row[12], row[13], row[14], out, end);
}
