// Functions in straight code: how many bytes a row makes, if all of it is seen to be right, and its bytes.
ghost use Rattle.std.specs.Prelude.{IfSome, ◌<◌, ◌≤◌, ◌+◌, ◌*◌, ◌∷◌, [], ◌≡◌, length, drop, Ok, Some};
ghost use Rattle.std.proofs.lemmas.List.Edits.{sets};
ghost use Rattle.fields.specs.Words.{word};
ghost use Rattle.writing.specs.Binary.{functype};
ghost use Rattle.writing.specs.Row.{measured_row};
ghost use Rattle.fields.specs.Shape.{repeated};
ghost use Rattle.types.specs.inside.Function.{function_shape, function_bytes};
ghost use Rattle.writing.specs.inside.Rows.{Rights};
ghost use Rattle.fields.specs.Limits.{row_words, pool_bytes};

use crate::counted::{fields_size, put_fields};
use crate::optional::{optional_size, put_result};
use fields::Field;
use numbers::{stored_size, unsigned_size};

pub fn async_byte(a: u32) -> u8
    ensures { result ≡ functype a }
{
    if a == 0 { 0x40 } else { 0x43 }
}

// function: async or not, parameters and a result.
pub fn function_size(row: &[u32], pool: &[u8]) -> Option<usize>
    requires { (length pool.now ≤ pool_bytes) × (length row.now ≤ row_words) }
    ensures { IfSome result (λ r. measured_row (Some function_shape) row.now pool.now ≡ Ok r) }
{
    if row.len() < 5 {
        return None;
    }
    if 1 < row[1] {
        return None;
    }
    let n = row[2] as usize;
    let last = 3 + n * 4;
    if row.len() != last + 2 {
        return None;
    }
    let result = optional_size(2, row[last], row[last + 1])?;
    fields_size(row, 3, n, pool, 1 + unsigned_size(row[2]) + result)
}

pub fn put_function(row: &[u32], pool: &[u8], out: &mut [u8], to: usize)
    requires row_len { length row.now ≡ 5 + word row.now 2 * 4 }
    requires rights { Rights pool.now (repeated (word row.now 2) (Field.Name ∷ Field.Value ∷ [])) (drop 3 row.now) }
    requires row_in_bounds { to + length (function_bytes pool.now row.now) ≤ length out.old }
    ensures { out.new ≡ sets out.old to (function_bytes pool.now row.now) }
{
    out[to] = async_byte(row[1]);
    let n = row[2] as usize;
    let last = 3 + n * 4;
    let next = to + 1 + stored_size(numbers::put_unsigned(row[2], to + 1, out));
    let end = put_fields(row, 3, n, pool, out, next);
    put_result(row[last], row[last + 1], out, end);
}
