// Core instances in straight code: how many bytes a row makes, if all of it is seen to be right, and its bytes.
ghost use Rattle.std.specs.Prelude.{IfSome, Ok, Some, ◌≡◌, ℕ, ◌+◌, ◌*◌, ◌^◌, ◌<◌, ◌≤◌, List, [], ◌∷◌, length, drop};
ghost use Rattle.std.proofs.lemmas.List.Edits.{sets};
ghost use Rattle.fields.specs.Limits.{row_words, pool_bytes};
ghost use Rattle.fields.specs.Shape.{repeated};
ghost use Rattle.fields.specs.Table.{elements};
ghost use Rattle.fields.specs.Words.{word};
ghost use Rattle.writing.specs.Row.{measured_row, row_bytes};
ghost use Rattle.writing.specs.inside.Rows.{Known, Rights, Groups, Fits};
ghost use Rattle.instances.specs.Table.{coreinstantiatearg, coreinlineexport};
ghost use Rattle.instances.specs.Write.{core_shape_of};
ghost use Rattle.instances.specs.inside.Head.{instantiate_shape, export_items_shape};

use crate::head::{export_items_head_size, instantiate_head_size, put_instantiate_head, put_lead};
use fields::{Field, POOL_BYTES, ROW_WORDS};
use numbers::{stored_size, unsigned_size};
use writing::name_size;

// n arguments, whose words stand from `from` on, with `base` bytes before them: a name, 12 and an instance.
fn arguments_size(row: &[u32], from: usize, n: usize, pool: &[u8], base: usize) -> Option<usize>
    requires pool_len_bound { (length pool.now ≤ pool_bytes) × (length row.now ≤ row_words) }
    requires n_in_bounds { (from + n * 3 ≤ length row.now) × (base ≤ 16) }
    ensures { IfSome result (λ r. Groups pool.now (Field.Name ∷ Field.Argument ∷ []) (coreinstantiatearg pool.now) n (drop from row.now) base r) }
{
    let mut at = from;
    let mut made = base;
    for _ in 0..n {
        let one = name_size(pool, row[at], row[at + 1])?;
        let two = 1 + unsigned_size(row[at + 2]);
        made += one + two;
        at += 3;
    }
    Some(made)
}

fn put_arguments(row: &[u32], from: usize, n: usize, pool: &[u8], out: &mut [u8], base: usize)
    requires n_in_bounds { from + n * 3 ≤ length row.now }
    requires rights { Rights pool.now (repeated n (Field.Name ∷ Field.Argument ∷ [])) (drop from row.now) }
    requires row_in_bounds { base + length (elements n 3 (coreinstantiatearg pool.now) (drop from row.now)) ≤ length out.old }
    ensures { out.new ≡ sets out.old base (elements n 3 (coreinstantiatearg pool.now) (drop from row.now)) }
{
    let mut at = from;
    let mut to = base;
    for _ in 0..n {
        to += stored_size(writing::put_name(pool, row[at], row[at + 1], to, out));
        to = put_lead(0x12, row[at + 2], out, to);
        at += 3;
    }
}

// What a core item is, and its index.
fn core_sort_size(kind: u32, x: u32) -> Option<usize>
    ensures known { IfSome result (λ r. (pool : List ℕ) → Known pool Field.CoreSortIndex (kind ∷ x ∷ []) r) }
    ensures upper_bound { IfSome result (λ r. r ≤ 6) }
{
    if kind < 5 {
        return Some(1 + unsigned_size(x));
    }
    None
}

// n items: a name, what it is, and its index.
fn items_size(row: &[u32], from: usize, n: usize, pool: &[u8], base: usize) -> Option<usize>
    requires pool_len_bound { (length pool.now ≤ pool_bytes) × (length row.now ≤ row_words) }
    requires n_in_bounds { (from + n * 4 ≤ length row.now) × (base ≤ 16) }
    ensures { IfSome result (λ r. Groups pool.now (Field.Name ∷ Field.CoreSortIndex ∷ []) (coreinlineexport pool.now) n (drop from row.now) base r) }
{
    let mut at = from;
    let mut made = base;
    for _ in 0..n {
        let one = name_size(pool, row[at], row[at + 1])?;
        let two = core_sort_size(row[at + 2], row[at + 3])?;
        made += one + two;
        at += 4;
    }
    Some(made)
}

fn put_items(row: &[u32], from: usize, n: usize, pool: &[u8], out: &mut [u8], base: usize)
    requires n_in_bounds { from + n * 4 ≤ length row.now }
    requires rights { Rights pool.now (repeated n (Field.Name ∷ Field.CoreSortIndex ∷ [])) (drop from row.now) }
    requires row_in_bounds { base + length (elements n 4 (coreinlineexport pool.now) (drop from row.now)) ≤ length out.old }
    ensures { out.new ≡ sets out.old base (elements n 4 (coreinlineexport pool.now) (drop from row.now)) }
{
    let mut at = from;
    let mut to = base;
    for _ in 0..n {
        to += stored_size(writing::put_name(pool, row[at], row[at + 1], to, out));
        to = put_lead(row[at + 2] as u8, row[at + 3], out, to);
        at += 4;
    }
}

// instantiate
fn instantiate_size(row: &[u32], pool: &[u8]) -> Option<usize>
    requires { (length pool.now ≤ pool_bytes) × (length row.now ≤ row_words) }
    ensures { IfSome result (λ r. measured_row (Some (instantiate_shape Field.Argument)) row.now pool.now ≡ Ok r) }
{
    let base = instantiate_head_size(row, 3)?;
    arguments_size(row, 3, row[2] as usize, pool, base)
}

fn put_instantiate(row: &[u32], pool: &[u8], out: &mut [u8], to: usize)
    requires { Fits (Some (instantiate_shape Field.Argument)) row.now pool.now to (length out.old) }
    ensures { out.new ≡ sets out.old to (row_bytes (Some (instantiate_shape Field.Argument)) pool.now row.now) }
{
    let next = put_instantiate_head(row, out, to);
    put_arguments(row, 3, row[2] as usize, pool, out, next);
}

// items
fn export_items_size(row: &[u32], pool: &[u8]) -> Option<usize>
    requires { (length pool.now ≤ pool_bytes) × (length row.now ≤ row_words) }
    ensures { IfSome result (λ r. measured_row (Some (export_items_shape Field.Name Field.CoreSortIndex)) row.now pool.now ≡ Ok r) }
{
    let base = export_items_head_size(row, 4)?;
    items_size(row, 2, row[1] as usize, pool, base)
}

fn put_export_items(row: &[u32], pool: &[u8], out: &mut [u8], to: usize)
    requires { Fits (Some (export_items_shape Field.Name Field.CoreSortIndex)) row.now pool.now to (length out.old) }
    ensures { out.new ≡ sets out.old to (row_bytes (Some (export_items_shape Field.Name Field.CoreSortIndex)) pool.now row.now) }
{
    let next = put_lead(0x01, row[1], out, to);
    put_items(row, 2, row[1] as usize, pool, out, next);
}

// How many bytes a row makes, if all of it is seen to be right.
pub fn row_size(row: &[u32], pool: &[u8]) -> Option<usize>
    ensures { IfSome result (λ r. measured_row (core_shape_of (word row.now 0)) row.now pool.now ≡ Ok r) }
{
    if ROW_WORDS < row.len() || POOL_BYTES < pool.len() {
        return None;
    }
    match fields::kind_of(row) {
        // instantiate
        18 => instantiate_size(row, pool),
        // items
        20 => export_items_size(row, pool),
        _ => None,
    }
}

// The bytes of a row that is right and has room.
pub fn put_row(row: &[u32], pool: &[u8], out: &mut [u8], to: usize)
    requires { Fits (core_shape_of (word row.now 0)) row.now pool.now to (length out.old) }
    ensures { out.new ≡ sets out.old to (row_bytes (core_shape_of (word row.now 0)) pool.now row.now) }
{
    match fields::kind_of(row) {
        // instantiate
        18 => put_instantiate(row, pool, out, to),
        // items
        20 => put_export_items(row, pool, out, to),
        _ => {}
    }
}
