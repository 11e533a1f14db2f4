// resource: a representation and perhaps a destructor.
ghost use Rattle.std.specs.Prelude.{IfSome, ℕ, ◌<◌, ◌≤◌, ◌+◌, List, ◌∷◌, ◌≡◌, length, Ok, Some};
ghost use Rattle.std.proofs.lemmas.List.Edits.{sets};
ghost use Rattle.fields.specs.Words.{word};
ghost use Rattle.writing.specs.Binary.{representation, destructor};
ghost use Rattle.writing.specs.Row.{measured_row};
ghost use Rattle.types.specs.Table.{two};
ghost use Rattle.fields.specs.Limits.{pool_bytes};

use fields::Field;
use numbers::unsigned_size;

// How many bytes a row makes, if all of it is seen to be right.
pub fn resource_size(row: &[u32]) -> Option<usize>
    ensures { IfSome result (λ r. (lead : ℕ) (pool : List ℕ) → length pool ≤ pool_bytes → measured_row (Some (two lead Field.Rep Field.OptionalIndex)) row.now pool ≡ Ok r) }
{
    if row.len() != 4 {
        return None;
    }
    if 1 < row[1] {
        return None;
    }
    match row[2] {
        0 if row[3] == 0 => Some(3),
        1 => Some(3 + unsigned_size(row[3])),
        _ => None,
    }
}

fn rep_byte(x: u32) -> u8
    ensures { result ≡ representation x }
{
    if x == 0 { 0x7f } else { 0x7e }
}

// The bytes of a row.
pub fn put_resource(lead: u8, row: &[u32], out: &mut [u8], to: usize)
    requires row_len { length row.now ≡ 4 }
    requires row_in_bounds { to + (2 + length (destructor (word row.now 2) (word row.now 3))) ≤ length out.old }
    ensures { out.new ≡ sets out.old to (lead ∷ representation (word row.now 1) ∷ destructor (word row.now 2) (word row.now 3)) }
{
    out[to] = lead;
    out[to + 1] = rep_byte(row[1]);
    if row[2] == 0 {
        out[to + 2] = 0x00;
        return;
    }
    out[to + 2] = 0x01;
    let _ = numbers::put_unsigned(row[3], to + 3, out);
}
