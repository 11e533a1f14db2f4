// An O in straight code: its size, if it is right, and its bytes.
ghost use Rattle.std.specs.Prelude.{IfSome, ◌<◌, ◌≤◌, ◌+◌, length};
ghost use Rattle.writing.specs.Binary.{optional, resultlist};
ghost use Rattle.writing.specs.inside.Wrote.{Wrote};
ghost use Rattle.types.specs.inside.Optional.{OptionalKnown};

use numbers::stored_size;

// How many bytes an O has, if it is right: `absent` where there is no V.
pub fn optional_size(absent: usize, tag: u32, x: u32) -> Option<usize>
    requires { absent ≤ 2 }
    ensures optional_known { IfSome result (λ r. OptionalKnown absent tag x r) }
    ensures upper_bound { IfSome result (λ r. r ≤ 6) }
{
    if tag == 2 {
        if x == 0 {
            return Some(absent);
        }
        return None;
    }
    Some(1 + writing::value_size(tag, x)?)
}

// 00, or 01 and the V; the place past it.
pub fn put_optional(tag: u32, x: u32, out: &mut [u8], to: usize) -> usize
    requires { to + length (optional tag x) ≤ length out.old }
    ensures { Wrote out.old to (optional tag x) result out.new }
{
    if tag == 2 {
        out[to] = 0x00;
        return to + 1;
    }
    out[to] = 0x01;
    to + 1 + stored_size(writing::put_value(tag, x, to + 1, out))
}

// 01 00, or 00 and the V; the place past it.
pub fn put_result(tag: u32, x: u32, out: &mut [u8], to: usize) -> usize
    requires { to + length (resultlist tag x) ≤ length out.old }
    ensures { Wrote out.old to (resultlist tag x) result out.new }
{
    if tag == 2 {
        out[to] = 0x01;
        out[to + 1] = 0x00;
        return to + 2;
    }
    out[to] = 0x00;
    to + 1 + stored_size(writing::put_value(tag, x, to + 1, out))
}
