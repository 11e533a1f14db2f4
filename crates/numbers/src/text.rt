// Well-formed UTF-8 (WebAssembly core, 5.2.4 Names; the Unicode Standard, table 3-7).
ghost use Rattle.std.specs.Prelude.{◌≡◌, ◌+◌, ◌-◌, ◌<◌, ◌≤◌, true, ◌⊎◌, [], ◌∷◌, length, slice_index};
ghost use Rattle.numbers.specs.inside.Below.{Below};
ghost use Rattle.numbers.specs.inside.Sequences.{follows, Ends};
ghost use Rattle.numbers.specs.inside.Windows.{All, Begun, Ended, First, Known, Later, Placed, Windows};
ghost use Rattle.numbers.specs.Text.{◌to◌, spelling_of, text};

// Why a name is not well-formed UTF-8: the offset of the first byte at which no well-formed name can go on, its length where it merely
// ends early.
#[derive(Clone, Copy)]
pub struct NotText {
    pub stop: usize,
}

// Why no sequence stands at a place: so many bytes of one do, and then a byte that cannot stand there, or the name's end.
#[derive(Clone, Copy)]
struct Breaks {
    after: usize,
}

// Whether the name has a byte at k, and it is in low..high.
fn follows(name: &[u8], k: usize, low: u8, high: u8) -> bool
    ensures { result ≡ follows name.now k low high }
{
    if name.len() <= k {
        return false;
    }
    if name[k] < low {
        return false;
    }
    name[k] <= high
}

// A sequence at i of two bytes, from its second on: the range of that.
fn two(name: &[u8], i: usize, low2: u8, high2: u8) -> Result<usize, Breaks>
    requires { i < length name.now }
    ensures { Ends (low2 to high2 ∷ []) name.now (i + 1) i result }
{
    if follows(name, i + 1, low2, high2) {
        return Ok(2);
    }
    Err(Breaks { after: 1 })
}

// One of three bytes: the ranges of the second and of the third.
fn three(name: &[u8], i: usize, low2: u8, high2: u8, low3: u8, high3: u8) -> Result<usize, Breaks>
    requires { i < length name.now }
    ensures { Ends (low2 to high2 ∷ low3 to high3 ∷ []) name.now (i + 1) i result }
{
    if follows(name, i + 1, low2, high2) {
        if follows(name, i + 2, low3, high3) {
            return Ok(3);
        }
        return Err(Breaks { after: 2 });
    }
    Err(Breaks { after: 1 })
}

// One of four bytes: the ranges of the second, third and fourth.
fn four(
    name: &[u8],
    i: usize,
    low2: u8,
    high2: u8,
    low3: u8,
    high3: u8,
    low4: u8,
    high4: u8,
) -> Result<usize, Breaks>
    requires { i < length name.now }
    ensures { Ends (low2 to high2 ∷ low3 to high3 ∷ low4 to high4 ∷ []) name.now (i + 1) i result }
{
    if follows(name, i + 1, low2, high2) {
        if follows(name, i + 2, low3, high3) {
            if follows(name, i + 3, low4, high4) {
                return Ok(4);
            }
            return Err(Breaks { after: 3 });
        }
        return Err(Breaks { after: 2 });
    }
    Err(Breaks { after: 1 })
}

// The sequence that begins at i: an arm for each line of the table, with the ranges of its bytes as printed.
fn sequence_at(name: &[u8], i: usize) -> Result<usize, Breaks>
    requires { i < length name.now }
    ensures { Ends [] name.now i i result }
{
    match name[i] {
        0x00..=0x7f => Ok(1),
        0xc2..=0xdf => two(name, i, 0x80, 0xbf),
        0xe0 => three(name, i, 0xa0, 0xbf, 0x80, 0xbf),
        0xe1..=0xec => three(name, i, 0x80, 0xbf, 0x80, 0xbf),
        0xed => three(name, i, 0x80, 0x9f, 0x80, 0xbf),
        0xee..=0xef => three(name, i, 0x80, 0xbf, 0x80, 0xbf),
        0xf0 => four(name, i, 0x90, 0xbf, 0x80, 0xbf, 0x80, 0xbf),
        0xf1..=0xf3 => four(name, i, 0x80, 0xbf, 0x80, 0xbf, 0x80, 0xbf),
        0xf4 => four(name, i, 0x80, 0x8f, 0x80, 0xbf, 0x80, 0xbf),
        _ => Err(Breaks { after: 0 }),
    }
}

// What the name is, sequence by sequence.
fn spelled(name: &[u8]) -> Result<(), NotText>
    ensures { result ≡ spelling_of name.now }
{
    let mut i: usize = 0;
    while i < name.len() {
        match sequence_at(name, i) {
            Ok(n) => {
                i += n;
            }
            Err(Breaks { after }) => {
                return Err(NotText { stop: i + after });
            }
        }
    }
    Ok(())
}

// Whether it is well-formed UTF-8, sequence by sequence.
fn well_formed(name: &[u8]) -> bool
    ensures { result ≡ text name.now }
{
    spelled(name).is_ok()
}

// The largest of the n bytes from `from` on.
fn top(s: &[u8], from: usize, n: usize) -> u8
    requires { from + n ≤ length s.now }
    ensures { Below (result + 1) s.now from (from + n) }
{
    let mut high: u8 = 0;
    for k in 0..n {
        if high < s[from + k] {
            high = s[from + k];
        }
    }
    high
}

// Whether every byte is below 128, by chunks of 16, 8 or 4 bytes; the last chunk may overlap the one before.
fn ascii(s: &[u8]) -> bool
    ensures { result ≡ true → Below 0x80 s.now 0 (length s.now) }
{
    let len = s.len();
    if 8 <= len {
        if 127 < top(s, 0, 8) {
            return false;
        }
        if 16 <= len {
            let mut i: usize = 8;
            while 16 < len - i {
                if 127 < top(s, i, 16) {
                    return false;
                }
                i += 16;
            }
            return top(s, len - 16, 16) < 128;
        }
        return top(s, len - 8, 8) < 128;
    }
    if 4 <= len {
        if 127 < top(s, 0, 4) {
            return false;
        }
        return top(s, len - 4, 4) < 128;
    }
    top(s, 0, len) < 128
}

fn larger(a: u8, b: u8) -> u8
    ensures { (a ≤ result) × (b ≤ result) }
{
    if a < b {
        return b;
    }
    a
}

fn lesser(a: usize, b: usize) -> usize
    ensures { ((result ≡ a) × (a ≤ b)) ⊎ ((result ≡ b) × (b ≤ a)) }
{
    if a < b {
        return a;
    }
    b
}

fn largest(a: u8, b: u8, c: u8) -> u8
    ensures { (a ≤ result) × ((b ≤ result) × (c ≤ result)) }
{
    larger(a, larger(b, c))
}

// How far a is above the bound.
fn over(a: u8, bound: u8) -> u8
    ensures { result ≡ a - bound }
{
    if a < bound {
        return 0;
    }
    a - bound
}

// 0 exactly where no byte is to follow q and p: p begins no character of more bytes than one, and q none of three.
fn due(q: u8, p: u8) -> u8
    ensures { (result < 1 → (p < 0xc2) × (q < 0xe1)) × (p < 0xc2 → q < 0xe1 → result < 1) }
{
    if 0 < over(p, 0xc1) + over(q, 0xe0) {
        return 255;
    }
    0
}

// 0 exactly where b is not in 80..bf.
fn later(b: u8) -> u8
    ensures { (result < 1 → (b < 0x80) ⊎ (0xc0 ≤ b)) × (0 < result → Later b) }
{
    if b < 0x80 {
        return 0;
    }
    if 0xbf < b {
        return 0;
    }
    255
}

// 0 only where b is in 80..bf exactly if a byte is to follow q and p.
fn misplaced(q: u8, p: u8, b: u8) -> u8
    ensures { result < 1 → Placed q p b }
{
    if due(q, p) == later(b) {
        return 0;
    }
    255
}

// 0 only where none of the three is c0, c1, e0 or above ec.
fn unknown(a: u8, b: u8, c: u8) -> u8
    ensures { result < 1 → Known a × (Known b × Known c) }
{
    let from_c2 = largest(
        std::num::wrapping_sub_u8(a, 0xc2),
        std::num::wrapping_sub_u8(b, 0xc2),
        std::num::wrapping_sub_u8(c, 0xc2),
    );
    let from_e1 = largest(
        std::num::wrapping_sub_u8(a, 0xe1),
        std::num::wrapping_sub_u8(b, 0xe1),
        std::num::wrapping_sub_u8(c, 0xe1),
    );
    let high = largest(a, b, c);
    largest(over(high, 0xec), over(from_c2, 0xfd), over(from_e1, 0xfe))
}

// The same of the three bytes from i on.
fn misplaced_at(s: &[u8], i: usize) -> u8
    requires { i + 2 < length s.now }
    ensures { result < 1 → Placed (slice_index s.now i) (slice_index s.now (i + 1)) (slice_index s.now (i + 2)) }
{
    misplaced(s[i], s[i + 1], s[i + 2])
}

// 0 only where the n windows of three bytes from h on are right, and those from i and from j on.
fn windows(s: &[u8], h: usize, i: usize, j: usize, n: usize) -> u8
    requires n_in_bounds { h + n + 2 ≤ length s.now }
    requires n_in_bounds_2 { i + n + 2 ≤ length s.now }
    requires n_in_bounds_3 { j + n + 2 ≤ length s.now }
    ensures { result < 1 → Windows s.now h n × (Windows s.now i n × Windows s.now j n) }
{
    let mut high: u8 = 0;
    for k in 0..n {
        let place = largest(
            misplaced_at(s, h + k),
            misplaced_at(s, i + k),
            misplaced_at(s, j + k),
        );
        high = largest(
            high,
            place,
            unknown(s[h + k + 2], s[i + k + 2], s[j + k + 2]),
        );
    }
    high
}

// 0 only where all windows of the name are right, by chunks of 16 or 8 that may overlap.
fn all_windows(s: &[u8]) -> u8
    requires in_bounds { 10 ≤ length s.now }
    requires s_len_bound { length s.now ≤ 50 }
    ensures { result < 1 → All s.now }
{
    let len = s.len();
    if 18 <= len {
        return windows(s, 0, lesser(16, len - 18), len - 18, 16);
    }
    windows(s, 0, 0, len - 10, 8)
}

// Whether it is a byte that begins a character, of one byte, of two, or of three in the table's row e1..ec.
fn is_first(b: u8) -> bool
    ensures { result ≡ true → First b }
{
    match b {
        0x00..=0x7f => true,
        0xc2..=0xdf => true,
        0xe1..=0xec => true,
        _ => false,
    }
}

// Whether the name's first two bytes, which end no window, are right.
fn begins(s: &[u8]) -> bool
    requires { 2 ≤ length s.now }
    ensures { result ≡ true → Begun s.now }
{
    if is_first(s[0]) {
        if s[0] < 0xc2 {
            return is_first(s[1]);
        }
        return 0 < later(s[1]);
    }
    false
}

// Whether no byte is to follow the last.
fn ends(s: &[u8]) -> bool
    requires { 2 ≤ length s.now }
    ensures { result ≡ true → Ended s.now }
{
    let len = s.len();
    if 0xe0 < s[len - 2] {
        return false;
    }
    s[len - 1] < 0xc2
}

// Whether a name of 10 to 50 bytes is seen to be characters of one, two and three bytes, in whatever order.
fn by_windows(s: &[u8]) -> bool
    ensures { result ≡ true → text s.now ≡ true }
{
    let len = s.len();
    if len < 10 {
        return false;
    }
    if 50 < len {
        return false;
    }
    if 0 < all_windows(s) {
        return false;
    }
    if ends(s) {
        return begins(s);
    }
    false
}

// Whether it is well-formed UTF-8, by windows where they show it. Called from two places, it is compiled apart from `is_text`, so
// that the way of ASCII names stays short.
fn other_text(name: &[u8]) -> bool
    ensures { result ≡ text name.now }
{
    if by_windows(&name[0..]) {
        return true;
    }
    well_formed(&name[0..])
}

// Whether the name is well-formed UTF-8.
pub fn is_text(name: &[u8]) -> bool
    ensures { result ≡ text name.now }
{
    if ascii(&name[0..]) {
        return true;
    }
    other_text(&name[0..])
}

// Whether the name is well-formed UTF-8, and where it stops if not.
pub fn spelling_of(name: &[u8]) -> Result<(), NotText>
    ensures { result ≡ spelling_of name.now }
{
    if other_text(&name[0..]) {
        return Ok(());
    }
    spelled(&name[0..])
}
