// A sheet: a pool and rows in one run of bytes, tried whole before a byte is written, and finished as a section.
#![tactic(auto)]

ghost use Rattle.std.specs.Prelude.{◌≡◌, ◌<◌, ◌≤◌, ◌+◌, ◌*◌, length};
ghost use Rattle.std.proofs.lemmas.List.Edits.{sets};
ghost use Rattle.writing.specs.inside.Wrote.{Wrote};
ghost use Rattle.fields.specs.Answers as leaves;
ghost use Rattle.sheets.specs.Frame.{number, words, framed, pool_of};
ghost use Rattle.sections.specs.Section.{measured_family, family_bytes};
ghost use Rattle.sections.specs.Finish.{finishing};
ghost use Rattle.sheets.specs.Sheet.{left, family_of, tries, joined, of_rows, sheeted};
ghost use Rattle.sheets.specs.inside.Steps.{rest, whole, Framed, RowsAt, Starts, first_family, rows_in, InRows, Fits, Passed, Makes, SheetWords, words_left, section_size, closed};
ghost use Rattle.fields.specs.Limits.{sheet_bytes};

use fields::{Answer, Fault, ROW_WORDS, Refusal, SHEET_BYTES, Span};
use sections::{Phase, Section};

// The number of four bytes at `at`, the highest first.
fn number_at(input: &[u8], at: usize) -> u32
    requires { at + 4 ≤ length input.now }
    ensures { result ≡ number input.now at }
{
    let high = input[at] as u32 * 256 + input[at + 1] as u32;
    (high * 256 + input[at + 2] as u32) * 256 + input[at + 3] as u32
}

// n words of the input from `at` on, at the front of the row.
fn fill_words(input: &[u8], at: usize, n: usize, row: &mut [u32])
    requires n_in_bounds { at + 4 * n ≤ length input.now }
    requires n_in_bounds_2 { n ≤ length row.old }
    ensures { row.new ≡ sets row.old 0 (words input.now at n) }
{
    for i in 0..n {
        row[i] = number_at(input, at + 4 * i);
    }
}

// Whether rows, each whole, fill the sheet from `start` to its end.
fn is_framed(input: &[u8], start: usize) -> bool
    requires { start ≤ length input.now }
    ensures { result ≡ whole (rest input.now start) }
{
    let mut at = start;
    while at < input.len() {
        if input.len() - at < 4 {
            return false;
        }
        let n = number_at(input, at) as usize;
        if (input.len() - at - 4) / 4 < n {
            return false;
        }
        at += 4 + 4 * n;
    }
    true
}

// The frame checked whole, before any row is looked at: where the rows start, if the version is right, there is a row, and no part
// runs past the end.
fn rows_of(input: &[u8]) -> Option<usize>
    ensures { Starts result input.now }
{
    if input.len() < 5 {
        return None;
    }
    if input[0] != 1 {
        return None;
    }
    let size = number_at(input, 1) as usize;
    if input.len() - 5 <= size {
        return None;
    }
    let start = 5 + size;
    if is_framed(input, start) {
        return Some(start);
    }
    None
}

// The family of a kind: types where it is no other section's.
fn family_of(kind: u32) -> u32
    ensures { result ≡ family_of kind }
{
    if 256 <= kind {
        return 8;
    }
    match kind {
        17 => 10,
        18 => 2,
        19 => 5,
        20 => 2,
        21 => 5,
        _ => 7,
    }
}

// The family that a first row at `start` sets: that of its kind.
fn family_at(input: &[u8], start: usize) -> u32
    requires framed { Framed input.now start }
    requires start_in_bounds { start < length input.now }
    ensures { result ≡ first_family input.now start }
{
    if number_at(input, start) == 0 {
        return 7;
    }
    family_of(number_at(input, start + 4))
}

// The size of a row of a family, or why it is refused, room apart.
fn measure_by(family: u32, row: &[u32], pool: &[u8]) -> Answer
    ensures { result ≡ measured_family family row.now pool.now }
{
    match family {
        7 => types::measure(row, pool),
        8 => canonicals::measure(row, pool),
        10 => imports::measure(row, pool),
        2 => instances::measure_core(row, pool),
        5 => instances::measure(row, pool),
        _ => Err(Fault {
            why: Refusal::Limit,
            value: 0,
        }),
    }
}

// All rows of the words tried in order: how many they are and the bytes they take, or the first that is refused.
fn try_rows(words: &[u32], family: u32, pool: &[u8], room: usize) -> Result<Span, Fault>
    requires { InRows words.now }
    ensures { result ≡ tries family pool.now room (rows_in words.now) 0 0 }
{
    let mut at: usize = 0;
    let mut rows: usize = 0;
    let mut used: usize = 0;
    while at < words.len() {
        let first = at + 1;
        let end = first + words[at] as usize;
        match measure_by(family, &words[first..end], pool) {
            Ok(size) => {
                if room - used < size {
                    return Err(Fault {
                        why: Refusal::Room,
                        value: rows,
                    });
                }
                used += size;
            }
            Err(Fault { why, value: _ }) => {
                return Err(Fault { why, value: rows });
            }
        }
        rows += 1;
        at = end;
    }
    Ok(Span {
        took: rows,
        made: used,
    })
}

// The bytes of a row, which was tried, put into body from `used` on: the place past them.
fn write_one(family: u32, row: &[u32], pool: &[u8], body: &mut [u8], used: usize) -> usize
    requires { Fits family row.now pool.now (length body.old) used }
    ensures { Wrote body.old used (family_bytes family pool.now row.now) result body.new }
{
    match sections::write_by(family, row, pool, body, used) {
        Ok(size) => used + size,
        Err(_) => used,
    }
}

// The bytes of all rows of the words, which were tried, at the front of body.
fn write_rows(words: &[u32], family: u32, pool: &[u8], body: &mut [u8])
    requires in_rows { InRows words.now }
    requires passed { Passed (tries family pool.now (length body.old) (rows_in words.now) 0 0) }
    ensures { body.new ≡ sets body.old 0 (joined family pool.now (rows_in words.now)) }
{
    let mut at: usize = 0;
    let mut used: usize = 0;
    while at < words.len() {
        let first = at + 1;
        let end = first + words[at] as usize;
        used = write_one(family, &words[first..end], pool, body, used);
        at = end;
    }
}

// The size of a finished section of so many rows and bytes.
fn section_size(rows: u32, used: usize) -> usize
    requires { used ≤ 4294967290 }
    ensures { result ≡ section_size rows used }
{
    let size = numbers::unsigned_size(rows) + used;
    1 + numbers::unsigned_size(size as u32) + size
}

// What making all rows in a buffer comes to.
#[derive(Clone, Copy)]
enum Made {
    // So many rows, and the bytes they take.
    All(usize, usize),
    // The first row that is refused, or has no room in the body.
    Bad(Refusal, usize),
    // The buffer is full before that is known.
    Small,
}

// All rows of the words made in order at the front of `made`, for a body of `room` bytes.
fn make_rows(words: &[u32], family: u32, pool: &[u8], made: &mut [u8], room: usize) -> Made
    requires { InRows words.now }
    ensures { Makes result family pool.now room (rows_in words.now) made.old made.new }
{
    let mut at: usize = 0;
    let mut rows: usize = 0;
    let mut used: usize = 0;
    while at < words.len() {
        let first = at + 1;
        let end = first + words[at] as usize;
        match sections::write_by(family, &words[first..end], pool, made, used) {
            Ok(size) => {
                if room - used < size {
                    return Made::Bad(Refusal::Room, rows);
                }
                used += size;
            }
            Err(Fault { why, value: size }) => {
                if !matches!(why, Refusal::Room) {
                    return Made::Bad(why, rows);
                }
                if room - used < size {
                    return Made::Bad(why, rows);
                }
                return Made::Small;
            }
        }
        rows += 1;
        at = end;
    }
    Made::All(rows, used)
}

// The section of the rows whose bytes are at the front of body.
fn close(family: u32, count: u32, used: usize, body: &[u8], out: &mut [u8]) -> Answer
    ensures { leaves.left result out.new ≡ finishing (closed family used count) body.now out.old }
{
    let section = Section {
        family,
        used,
        count,
        phase: Phase::Closed,
    };
    section.finish(body, out)
}

// The rows of the words tried, body and output room included, and only then written and finished.
fn sheet_general(words: &[u32], family: u32, pool: &[u8], body: &mut [u8], out: &mut [u8]) -> Answer
    requires { SheetWords family words.now }
    ensures { left result body.new out.new ≡ words_left family words.now pool.now body.old out.old }
{
    let Span {
        took: rows,
        made: used,
    } = try_rows(words, family, pool, body.len())?;
    if out.len() < section_size(rows as u32, used) {
        return Err(Fault {
            why: Refusal::Room,
            value: rows,
        });
    }
    write_rows(words, family, pool, body);
    close(family, rows as u32, used, body, out)
}

// The rows of the words made once, in `made`, and copied to body when all is known: making a row measures it too. Where they do not
// fit there, they are tried and then written.
fn sheet_words(
    words: &[u32],
    family: u32,
    pool: &[u8],
    made: &mut [u8],
    body: &mut [u8],
    out: &mut [u8],
) -> Answer
    requires { SheetWords family words.now }
    ensures { left result body.new out.new ≡ words_left family words.now pool.now body.old out.old }
{
    match make_rows(words, family, pool, made, body.len()) {
        Made::All(rows, used) => {
            let count = rows as u32;
            if out.len() < section_size(count, used) {
                return Err(Fault {
                    why: Refusal::Room,
                    value: rows,
                });
            }
            let _ = numbers::copy(&made[..used], 0, body);
            close(family, count, used, body, out)
        }
        Made::Bad(why, row) => Err(Fault { why, value: row }),
        Made::Small => sheet_general(words, family, pool, body, out),
    }
}

// The rows laid out as words, all together: making, trying and writing walk over them.
fn sheet_rows(
    input: &[u8],
    start: usize,
    scratch: &mut [u32],
    made: &mut [u8],
    body: &mut [u8],
    out: &mut [u8],
) -> Answer
    requires rows_at { RowsAt input.now start }
    requires input_len_bound { length input.now ≤ sheet_bytes }
    requires input_len_bound_2 { length input.now ≤ 4 * length scratch.old }
    ensures { left result body.new out.new ≡ of_rows (framed input.now) (pool_of input.now) body.old out.old }
{
    let family = family_at(input, start);
    let n = (input.len() - start) / 4;
    fill_words(input, start, n, scratch);
    sheet_words(&scratch[..n], family, &input[5..start], made, body, out)
}

// The rows with WORDS words to lay them out in and BYTES bytes to make them in.
fn sheet_in<const WORDS: usize, const BYTES: usize>(
    input: &[u8],
    start: usize,
    body: &mut [u8],
    out: &mut [u8],
) -> Answer
    requires rows_at { RowsAt input.now start }
    requires input_len_bound { (length input.now ≤ 4 * WORDS) × (length input.now ≤ sheet_bytes) }
    requires room { (WORDS ≤ 65536) × (BYTES ≤ 65536) }
    ensures { left result body.new out.new ≡ of_rows (framed input.now) (pool_of input.now) body.old out.old }
{
    let mut scratch = [0u32; WORDS];
    let mut made = [0u8; BYTES];
    sheet_rows(input, start, &mut scratch, &mut made, body, out)
}

// The rows with the smallest of three scratch rows that has a word for every four bytes of the sheet. Zeroing large arrays costs more
// than a small sheet does, so only those of the one that is chosen are zeroed.
fn sheet_sized(input: &[u8], start: usize, body: &mut [u8], out: &mut [u8]) -> Answer
    requires rows_at { RowsAt input.now start }
    requires input_len_bound { length input.now ≤ sheet_bytes }
    ensures { left result body.new out.new ≡ of_rows (framed input.now) (pool_of input.now) body.old out.old }
{
    if input.len() <= 1024 {
        return sheet_in::<256, 1024>(input, start, body, out);
    }
    if input.len() <= 8192 {
        return sheet_in::<2048, 8192>(input, start, body, out);
    }
    sheet_in::<ROW_WORDS, SHEET_BYTES>(input, start, body, out)
}

// The sheet's rows as the bytes at the front of body, and the finished section at the front of out. The answer's value is the
// section's size, or the row at which the sheet is refused, counted from 0.
pub fn sheet(input: &[u8], body: &mut [u8], out: &mut [u8]) -> Answer
    ensures { left result body.new out.new ≡ sheeted input.now body.old out.old }
{
    if SHEET_BYTES < input.len() {
        return Err(Fault {
            why: Refusal::Limit,
            value: 0,
        });
    }
    match rows_of(input) {
        Some(start) => sheet_sized(input, start, body, out),
        None => Err(Fault {
            why: Refusal::Sheet,
            value: 0,
        }),
    }
}
