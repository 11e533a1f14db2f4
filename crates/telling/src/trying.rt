// What the test programs lend to be written: filled before a call, and looked at afterwards.
ghost use Rattle.std.specs.Prelude.{◌≡◌, ◌+◌, length};
ghost use Rattle.telling.specs.Trying.{pattern_at, filled, kept};

use crate::lines::{after, before, starts_with};
use crate::text::say;

// What stands at a place before a call: aa to e9, no two neighbours alike; turned, what adds up to 255 with that.
pub fn pattern(i: usize, turned: bool) -> u8
    ensures { result ≡ pattern_at turned i }
{
    let low = (i % 64) as u8;
    if turned { 85 - low } else { 170 + low }
}

pub fn fill(out: &mut [u8], turned: bool)
    ensures { out.new ≡ filled turned (length out.old) }
{
    for (i, byte) in out.iter_mut().enumerate() {
        *byte = pattern(i, turned);
    }
}

// Whether every byte outside the `size` bytes from `at` on is as it was.
pub fn is_kept(old: &[u8], out: &[u8], at: usize, size: usize) -> bool
    ensures { result ≡ kept old.now out.now at size }
{
    let end = at.saturating_add(size);
    starts_with(old, before(out, at)) && starts_with(after(old, end), after(out, end))
}

// Ends the line of a call, and says where it changed what it had to keep.
pub fn end_line(rt: &HostRuntime, kept: bool) -> bool
    ensures { result ≡ kept }
{
    if !kept {
        say(rt, b" changed");
    }
    say(rt, b"\n");
    kept
}
