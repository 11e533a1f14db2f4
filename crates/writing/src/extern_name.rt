// An extern name in straight code: how many bytes it has, if it is right, and its bytes at a place.
ghost use Rattle.std.specs.Prelude.{◌<◌, ◌≤◌, ◌+◌, ◌^◌, ◌∷◌, [], ◌≡◌, length};
ghost use Rattle.std.proofs.lemmas.List.Edits.{sets};
ghost use Rattle.numbers.specs.Bytes.{left, store};
ghost use Rattle.fields.specs.declared.Field.TheVariants as field;
ghost use Rattle.writing.specs.Binary.{name, slot_at, slots_at, externname, slot_inside, extern_inside, extern_part};
ghost use Rattle.writing.specs.Judge.{optional_name, flaw};
ghost use Rattle.writing.specs.Sizes.{right_size};
ghost use Rattle.writing.specs.inside.Extern.{is_right, SlotInside, ExternInside};
ghost use Rattle.writing.specs.inside.Wrote.{Wrote};

use crate::judge::{is_bare, word_at};
use crate::size::slots_of;
use crate::{fits, name_size, put_name};
use numbers::{NoRoom, stored_size};

// Whether an option is right: absent, its other words unused, or present with a name.
fn is_option(pool: &[u8], ws: &[u32], i: usize) -> bool
    requires { i < 99 }
    ensures { result ≡ is_right (optional_name pool.now ws.now i) }
{
    let present = word_at(ws, i);
    let start = word_at(ws, i + 1);
    let size = word_at(ws, i + 2);
    if present == 0 {
        if start == 0 {
            return size == 0;
        }
        return false;
    }
    if present == 1 {
        return name_size(pool, start, size).is_some();
    }
    false
}

// Whether an extern name is right. Where and why it is not, the walk says of a row that is refused.
fn is_right(pool: &[u8], ws: &[u32]) -> bool
    ensures { result ≡ is_right (flaw pool.now field.ExternName ws.now) }
{
    if name_size(pool, word_at(ws, 0), word_at(ws, 1)).is_some() {
        if is_option(pool, ws, 2) {
            if is_option(pool, ws, 5) {
                return is_option(pool, ws, 8);
            }
        }
    }
    false
}

// How many bytes an extern name has, whose words stand at the front of ws, if it is right.
pub fn extern_size(pool: &[u8], ws: &[u32]) -> Option<usize>
    ensures { result ≡ right_size pool.now field.ExternName ws.now }
{
    if is_bare(ws) {
        return Some(1 + name_size(pool, word_at(ws, 0), word_at(ws, 1))?);
    }
    if is_right(pool, ws) {
        return Some(crate::size::extern_size(ws));
    }
    None
}

// Whether an option is absent, or its name ends within the pool.
fn slot_inside(pool: &[u8], ws: &[u32], i: usize) -> bool
    requires { i < 99 }
    ensures { result ≡ slot_inside pool.now ws.now i }
{
    if word_at(ws, i) == 0 {
        return true;
    }
    let start = word_at(ws, i + 1) as usize;
    let size = word_at(ws, i + 2) as usize;
    start + size <= pool.len()
}

// Whether every name of it ends within the pool.
fn is_inside(pool: &[u8], ws: &[u32]) -> bool
    ensures { result ≡ extern_inside pool.now ws.now }
{
    let start = word_at(ws, 0) as usize;
    let size = word_at(ws, 1) as usize;
    if start + size <= pool.len() {
        if slot_inside(pool, ws, 2) {
            if slot_inside(pool, ws, 5) {
                return slot_inside(pool, ws, 8);
            }
        }
    }
    false
}

// How many bytes are put, by the words alone.
fn part_size(pool: &[u8], ws: &[u32]) -> usize
    ensures { result ≡ length (extern_part pool.now ws.now) }
{
    if is_inside(pool, ws) {
        return crate::size::extern_size(ws);
    }
    0
}

// A byte and a name that ends within the pool; the place past them.
fn put_led(lead: u8, pool: &[u8], start: u32, size: u32, out: &mut [u8], to: usize) -> usize
    requires { (start + size ≤ length pool.now) × (to + 1 + length (name pool.now start size) ≤ length out.old) }
    ensures { Wrote out.old to (lead ∷ name pool.now start size) result out.new }
{
    out[to] = lead;
    to + 1 + stored_size(put_name(pool, start, size, to + 1, out))
}

// An option where it is present: its number and its name.
fn put_option(k: u8, pool: &[u8], ws: &[u32], i: usize, out: &mut [u8], to: usize) -> usize
    requires i_bound { (i < 99) × SlotInside pool.now ws.now i }
    requires i_in_bounds { to + length (slot_at pool.now ws.now k i) ≤ length out.old }
    ensures { Wrote out.old to (slot_at pool.now ws.now k i) result out.new }
{
    if word_at(ws, i) == 0 {
        return to;
    }
    put_led(k, pool, word_at(ws, i + 1), word_at(ws, i + 2), out, to)
}

fn put_options(pool: &[u8], ws: &[u32], out: &mut [u8], to: usize) -> usize
    requires extern_inside { ExternInside pool.now ws.now }
    requires ws_in_bounds { to + length (slots_at pool.now ws.now) ≤ length out.old }
    ensures { Wrote out.old to (slots_at pool.now ws.now) result out.new }
{
    let suffix = put_option(0x00, pool, ws, 2, out, to);
    let id = put_option(0x01, pool, ws, 5, out, suffix);
    put_option(0x02, pool, ws, 8, out, id)
}

// The bytes of an extern name whose names end within the pool, and which has room; the place past them.
fn put_inside(pool: &[u8], ws: &[u32], out: &mut [u8], to: usize) -> usize
    requires extern_inside { ExternInside pool.now ws.now }
    requires ws_in_bounds { to + length (externname pool.now ws.now) ≤ length out.old }
    ensures { Wrote out.old to (externname pool.now ws.now) result out.new }
{
    let options = slots_of(ws);
    let start = word_at(ws, 0);
    let size = word_at(ws, 1);
    if options == 0 {
        return put_led(0x00, pool, start, size, out, to);
    }
    let next = put_led(0x02, pool, start, size, out, to);
    out[next] = options as u8;
    put_options(pool, ws, out, next + 1)
}

// An extern name at a place, with options or without.
fn put_any(pool: &[u8], ws: &[u32], at: usize, out: &mut [u8]) -> Result<usize, NoRoom>
    ensures { left result out.new ≡ store (extern_part pool.now ws.now) at out.old }
{
    let all = part_size(pool, ws);
    if fits(all, at, out.len()) {
        put_inside(pool, ws, out, at);
        return Ok(all);
    }
    if all == 0 {
        if at <= out.len() {
            return Ok(0);
        }
    }
    Err(NoRoom { size: all })
}

// One without options, the name by itself: its tests are made once.
fn put_bare(pool: &[u8], start: u32, size: u32, at: usize, out: &mut [u8]) -> Result<usize, NoRoom>
    ensures { left result out.new ≡ store (extern_part pool.now (start ∷ size ∷ [])) at out.old }
{
    let from = start as usize;
    let end = from + (size as usize);
    if pool.len() < end {
        return numbers::copy(&pool[0..0], at, out);
    }
    let head = 1 + numbers::unsigned_size(size);
    let all = head + (size as usize);
    if out.len() < at {
        return Err(NoRoom { size: all });
    }
    if out.len() - at < all {
        return Err(NoRoom { size: all });
    }
    out[at] = 0x00;
    let _ = numbers::put_unsigned(size, at + 1, out);
    let _ = numbers::copy(&pool[from..end], at + head, out);
    Ok(all)
}

// An extern name at a place: 00 and a name, or 02, a name, a count and options; nothing where a name runs past the pool.
pub fn put_extern(pool: &[u8], ws: &[u32], at: usize, out: &mut [u8]) -> Result<usize, NoRoom>
    ensures { left result out.new ≡ store (extern_part pool.now ws.now) at out.old }
{
    if ws.len() < 11 {
        return put_any(pool, ws, at, out);
    }
    if is_bare(ws) {
        return put_bare(pool, ws[0], ws[1], at, out);
    }
    put_any(pool, ws, at, out)
}
