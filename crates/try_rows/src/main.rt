// Runs rows through the row writers, and prints what each answers.
//
// Standard input, line by line:
//   # text         is printed as it stands
//   pool BYTES     the pool is those bytes, up to the end of the line
//   pool-size N    the pool is N bytes `a`
//   room N         the buffer that is lent has N bytes
//   at N           the place in it
//   row W W ..     the row of those words goes to the writer of its kind: 17 imports, 18 to 21 instances, 256 and above canonicals, else types
//   long KIND N    so does a row of N words, all 0 after the first
// A row's answer is a line, `ok SIZE BYTES` or `refused NUMBER VALUE NAME`, with ` byte B` behind TEXT; it ends in ` changed` where a
// byte that the answer does not count is not as it was. What is none of these, or passes the program's own buffers, is a line that
// begins with `?`.
#![tactic(auto)]

use fields::{Answer, Fault};
use telling::{end_line, is_kept, number_at, say, say_line, starts_with};

// The program's own buffers: a row of 16,384 words and a pool of 65,536 bytes fit, and some more, so that both can be passed.
const WORDS: usize = 16400;

const POOL: usize = 65600;

const ROOM: usize = 16384;

// What the lines so far set.
#[derive(Clone, Copy)]
struct Setting {
    // The length of the pool.
    pool: usize,
    // The length of the buffer that is lent.
    room: usize,
    // The place in it.
    at: usize,
}

#[derive(Clone, Copy)]
enum Command {
    Label,
    Pool,
    PoolSize,
    Room,
    At,
    Row,
    Long,
    Other,
}

// The line of a row that was written into `out`, which was `old`.
fn say_written(rt: &HostRuntime, size: usize, old: &[u8], out: &[u8], at: usize) {
    telling::say_field(rt, b"ok ", size as u64);
    say(rt, b" ");
    telling::say_bytes(rt, numbers::part(out, at, size));
    end_line(rt, is_kept(old, out, at, size));
}

// The row given to the writer of its kind.
fn write(row: &[u32], pool: &[u8], out: &mut [u8], at: usize) -> Answer {
    match fields::kind_of(row) {
        17 => imports::write(row, pool, out, at),
        18 | 20 => instances::write_core(row, pool, out, at),
        19 | 21 => instances::write(row, pool, out, at),
        256.. => canonicals::write(row, pool, out, at),
        _ => types::write(row, pool, out, at),
    }
}

fn try_row(rt: &HostRuntime, row: &[u32], pool: &[u8], out: &mut [u8], at: usize) {
    let mut old = [0u8; ROOM];
    telling::fill(&mut old, false);
    telling::fill(out, false);
    match write(row, pool, out, at) {
        Ok(size) => say_written(rt, size, &old, out, at),
        Err(Fault { why, value }) => {
            telling::say_refusal(rt, why, value);
            end_line(rt, is_kept(&old, out, 0, 0));
        }
    }
}

// The row of the first `words` words, with pool, room and place as set.
fn try_words(
    rt: &HostRuntime,
    row: &[u32],
    words: usize,
    pool: &[u8],
    out: &mut [u8],
    set: Setting,
) {
    let Some(row) = row.get(..words) else {
        say_line(rt, b"? too many words");
        return;
    };
    let Some(pool) = pool.get(..set.pool) else {
        say_line(rt, b"? too long a pool");
        return;
    };
    let Some(out) = out.get_mut(..set.room) else {
        say_line(rt, b"? too much room");
        return;
    };
    try_row(rt, row, pool, out, set.at);
}

// The row of `long`: a kind, and zeros up to a number of words.
fn try_long(rt: &HostRuntime, line: &[u8], pool: &[u8], out: &mut [u8], set: Setting) {
    let mut row = [0u32; WORDS];
    telling::words_of(line, &mut row);
    row[1] = 0;
    try_words(rt, &row, number_at(line, 1), pool, out, set);
}

fn command_of(line: &[u8]) -> Command {
    if starts_with(line, b"#") {
        Command::Label
    } else if starts_with(line, b"pool ") {
        Command::Pool
    } else if starts_with(line, b"pool-size ") {
        Command::PoolSize
    } else if starts_with(line, b"room ") {
        Command::Room
    } else if starts_with(line, b"at ") {
        Command::At
    } else if starts_with(line, b"row") {
        Command::Row
    } else if starts_with(line, b"long ") {
        Command::Long
    } else {
        Command::Other
    }
}

// Does what a line says, and answers what is set from there on.
fn obey(
    rt: &HostRuntime,
    line: &[u8],
    set: Setting,
    row: &mut [u32],
    pool: &mut [u8],
    out: &mut [u8],
) -> Setting {
    let mut next = set;
    match command_of(line) {
        Command::Label => {
            say_line(rt, line);
        }
        Command::Pool => {
            let size = telling::size_after(line, 5);
            let _ = numbers::copy(numbers::part(line, 5, size), 0, pool);
            next.pool = size;
        }
        Command::PoolSize => {
            let _ = numbers::copy(&[b'a'; POOL], 0, pool);
            next.pool = number_at(line, 0);
        }
        Command::Room => {
            next.room = number_at(line, 0);
        }
        Command::At => {
            next.at = number_at(line, 0);
        }
        Command::Row => {
            let words = telling::words_of(line, row);
            try_words(rt, row, words, pool, out, set);
        }
        Command::Long => try_long(rt, line, pool, out, set),
        Command::Other => {
            say_line(rt, b"? no such line");
        }
    }
    next
}

// Does what each line of the input says.
fn run(rt: &HostRuntime, input: &[u8], row: &mut [u32], pool: &mut [u8], out: &mut [u8]) {
    let mut set = Setting {
        pool: 0,
        room: 0,
        at: 0,
    };
    for line in input.split_inclusive(|b| *b == b'\n') {
        let line = line.strip_suffix(b"\n").unwrap_or(line);
        set = obey(rt, line, set, row, pool, out);
    }
}

fn main(rt: HostRuntime) {
    let mut input = [0u8; 65536];
    let n = telling::read_full(&rt, &mut input);
    if n == input.len() {
        say_line(&rt, b"? too long an input");
        return;
    }
    let mut row = [0u32; WORDS];
    let mut pool = [0u8; POOL];
    let mut out = [0u8; ROOM];
    run(&rt, &input[..n], &mut row, &mut pool, &mut out);
}
