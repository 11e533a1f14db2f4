// Rows to bytes: the walk over a row that finds what is wrong with it, and what the straight code of every kind uses.
#![tactic(auto)]

mod extern_name;
mod judge;
mod row;
mod shape;
mod size;
mod walk;

ghost use Rattle.std.specs.Prelude.{◌∷◌, [], ◌++◌, ◌≡◌};
ghost use Rattle.numbers.specs.Bytes.{left, store, part_of};
ghost use Rattle.numbers.specs.Leb.{unsigned};
ghost use Rattle.fields.specs.declared.Field.TheVariants as field;
ghost use Rattle.writing.specs.Binary.{primvaltype, valtype};
ghost use Rattle.writing.specs.Sizes.{within, right_size};

pub use extern_name::{extern_size, put_extern};
use numbers::NoRoom;
pub use row::measure_row;
pub use shape::measure_shape;

// Whether there are bytes, and so many stand within a buffer of `room` bytes from `at` on.
pub fn fits(size: usize, at: usize, room: usize) -> bool
    ensures { result ≡ within size at room }
{
    if 0 < size {
        if at <= room {
            return size <= room - at;
        }
    }
    false
}

// How many bytes a V has, if it is right.
pub fn value_size(tag: u32, x: u32) -> Option<usize>
    ensures { result ≡ right_size [] field.Value (tag ∷ x ∷ []) }
{
    if tag == 1 {
        return Some(numbers::signed_size(x));
    }
    if tag == 0 {
        if x < 14 {
            return Some(1);
        }
    }
    None
}

// How many bytes a name has, if it ends within the pool and is UTF-8.
pub fn name_size(pool: &[u8], start: u32, size: u32) -> Option<usize>
    ensures { result ≡ right_size pool.now field.Name (start ∷ size ∷ []) }
{
    let from = start as usize;
    let end = from + (size as usize);
    if end <= pool.len() {
        if numbers::is_text(&pool[from..end]) {
            return Some(numbers::unsigned_size(size) + (size as usize));
        }
    }
    None
}

fn primitive_byte(p: u32) -> u8
    ensures { result ≡ primvaltype p }
{
    if p == 13 {
        return 0x64;
    }
    if p < 0x7f {
        return (0x7f - p) as u8;
    }
    0
}

fn put_byte(b: u8, at: usize, out: &mut [u8]) -> Result<usize, NoRoom>
    ensures { left result out.new ≡ store (b ∷ []) at out.old }
{
    if at < out.len() {
        out[at] = b;
        return Ok(1);
    }
    Err(NoRoom { size: 1 })
}

// A V at a place: a primitive's byte, or an index as an s33.
pub fn put_value(tag: u32, x: u32, at: usize, out: &mut [u8]) -> Result<usize, NoRoom>
    ensures { left result out.new ≡ store (valtype tag x) at out.old }
{
    if tag == 0 {
        return put_byte(primitive_byte(x), at, out);
    }
    numbers::put_signed(x, at, out)
}

// A name at a place: its length, and its bytes in the pool, none where they run past it.
pub fn put_name(
    pool: &[u8],
    start: u32,
    size: u32,
    at: usize,
    out: &mut [u8],
) -> Result<usize, NoRoom>
    ensures { left result out.new ≡ store (unsigned size ++ part_of pool.now start size) at out.old }
{
    let from = start as usize;
    let end = from + (size as usize);
    if pool.len() < end {
        return numbers::put_unsigned(size, at, out);
    }
    let head = numbers::unsigned_size(size);
    let all = head + (size as usize);
    if out.len() < at {
        return Err(NoRoom { size: all });
    }
    if out.len() - at < all {
        return Err(NoRoom { size: all });
    }
    let _ = numbers::put_unsigned(size, at, out);
    let _ = numbers::copy(&pool[from..end], at + head, out);
    Ok(all)
}
