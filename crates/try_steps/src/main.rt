// Runs scripted steps on sections, and prints what each answers and the state it leaves.
//
// Standard input, line by line:
//   # text             is printed as it stands
//   pool BYTES         the pool is those bytes, up to the end of the line
//   pool-size N        the pool is N bytes `a`
//   body N             the body is N bytes, filled anew
//   grow N             the body is N bytes; those that it had stay
//   state F U C P S    the state: family, used, count, phase (0 closed, 1 opened, 2 headed), start (0 if closed)
//   new F              a fresh section's state
//   row W W ..         the steps, with the words that they are given
//   open
//   head W W ..
//   result TAG X
//   abandon
//   finish N           into a buffer of N bytes
//   long KIND N        a row of N words, all 0 after the first
//   long-head N        a head of N words, all 0 but the second, which is N / 4
// A step's answer is a line: `ok SIZE` or `refused NUMBER VALUE NAME`, with ` byte B` behind TEXT; then the state, `family F used U
// count C phase P start S`; then, if the step was taken, the used part of the body or what was finished; and ` changed` where a
// refusal did not leave everything as it was, or a step that was taken changed a byte that it does not count. What is none of these,
// or passes the program's own buffers, is a line that begins with `?`.
#![tactic(auto)]

use fields::{Answer, Fault};
use sections::{Phase, Section, Turned};
use telling::{is_kept, number_at, say, say_field, say_line, starts_with, word, word_of};

// The program's own buffers: a row of 16,384 words and a pool of 65,536 bytes fit, and some more, so that both can be passed.
const WORDS: usize = 16400;

const POOL: usize = 65600;

const BODY: usize = 16400;

// What the lines so far set.
#[derive(Clone, Copy)]
struct Setting {
    // The length of the pool.
    pool: usize,
    // The length of the body.
    body: usize,
    // The state.
    section: Section,
}

#[derive(Clone, Copy)]
enum Command {
    Label,
    Pool,
    PoolSize,
    Body,
    Grow,
    State,
    New,
    Take(Step),
    Long,
    LongHead,
    Finish,
    Other,
}

#[derive(Clone, Copy)]
enum Step {
    Row,
    Open,
    Head,
    Result,
    Abandon,
}

fn phase_number(phase: Phase) -> u64 {
    match phase {
        Phase::Closed => 0,
        Phase::Opened(_) => 1,
        Phase::Headed(_) => 2,
    }
}

// Where the open function starts; 0 where none is open.
fn start_of(phase: Phase) -> usize {
    match phase {
        Phase::Closed => 0,
        Phase::Opened(start) | Phase::Headed(start) => start,
    }
}

fn say_state(rt: &HostRuntime, section: Section) {
    let phase = section.phase;
    say_field(rt, b" family ", section.family as u64);
    say_field(rt, b" used ", section.used as u64);
    say_field(rt, b" count ", section.count as u64);
    say_field(rt, b" phase ", phase_number(phase));
    say_field(rt, b" start ", start_of(phase) as u64);
}

// The bytes that a step shows, if there are any.
fn say_shown(rt: &HostRuntime, bytes: &[u8]) {
    if !bytes.is_empty() {
        say(rt, b" ");
        telling::say_bytes(rt, bytes);
    }
}

// The line of a step: its answer, the state it leaves, and the bytes it shows if it was taken.
fn say_step(rt: &HostRuntime, answer: Answer, section: Section, shown: &[u8], kept: bool) {
    match answer {
        Ok(size) => {
            say_field(rt, b"ok ", size as u64);
            say_state(rt, section);
            say_shown(rt, shown);
        }
        Err(Fault { why, value }) => {
            telling::say_refusal(rt, why, value);
            say_state(rt, section);
        }
    }
    telling::end_line(rt, kept);
}

// The step taken.
fn take(step: Step, section: Section, words: &[u32], pool: &[u8], body: &mut [u8]) -> Turned {
    match step {
        Step::Row => section.row(words, pool, body),
        Step::Open => section.open(body),
        Step::Head => section.head(words, pool, body),
        Step::Result => section.result(word(words, 0), word(words, 1), body),
        Step::Abandon => section.abandon(body),
    }
}

// Takes a step, prints its line, and answers the state it leaves.
fn try_step(
    rt: &HostRuntime,
    step: Step,
    section: Section,
    words: &[u32],
    pool: &[u8],
    body: &mut [u8],
) -> Section {
    let mut old = [0u8; BODY];
    let _ = numbers::copy(body, 0, &mut old);
    let Turned {
        section: next,
        answer,
    } = take(step, section, words, pool, body);
    // After a refusal the state has to be the same.
    let kept = is_kept(&old, body, section.used, answer.unwrap_or(0))
        && (answer.is_ok() || section == next);
    say_step(rt, answer, next, numbers::part(body, 0, next.used), kept);
    next
}

// The step with the first n words.
fn try_words(
    rt: &HostRuntime,
    step: Step,
    section: Section,
    words: &[u32],
    n: usize,
    pool: &[u8],
    body: &mut [u8],
) -> Section {
    match words.get(..n) {
        Some(words) => try_step(rt, step, section, words, pool, body),
        None => {
            say_line(rt, b"? too many words");
            section
        }
    }
}

// The step with the words of a line.
fn try_given(
    rt: &HostRuntime,
    step: Step,
    section: Section,
    line: &[u8],
    pool: &[u8],
    body: &mut [u8],
) -> Section {
    let mut words = [0u32; WORDS];
    let n = telling::words_of(line, &mut words);
    try_words(rt, step, section, &words, n, pool, body)
}

// A row of n words, all 0 after the kind.
fn try_long_row(
    rt: &HostRuntime,
    section: Section,
    kind: usize,
    n: usize,
    pool: &[u8],
    body: &mut [u8],
) -> Section {
    let mut words = [0u32; WORDS];
    words[0] = word_of(kind);
    try_words(rt, Step::Row, section, &words, n, pool, body)
}

// A head of n words, all 0 but the count, which is a quarter of them.
fn try_long_head(
    rt: &HostRuntime,
    section: Section,
    n: usize,
    pool: &[u8],
    body: &mut [u8],
) -> Section {
    let mut words = [0u32; WORDS];
    words[1] = word_of(n / 4);
    try_words(rt, Step::Head, section, &words, n, pool, body)
}

// Finishes into a buffer, and prints the line.
fn try_out(rt: &HostRuntime, section: Section, body: &[u8], out: &mut [u8]) {
    let mut old = [0u8; BODY];
    telling::fill(&mut old, false);
    telling::fill(out, false);
    let answer = section.finish(body, out);
    let size = answer.unwrap_or(0);
    say_step(
        rt,
        answer,
        section,
        numbers::part(out, 0, size),
        is_kept(&old, out, 0, size),
    );
}

// Finishes into the first `room` bytes of a buffer.
fn try_room(rt: &HostRuntime, section: Section, body: &[u8], room: usize, out: &mut [u8]) {
    match out.get_mut(..room) {
        Some(out) => try_out(rt, section, body, out),
        None => {
            say_line(rt, b"? too much room");
        }
    }
}

// Finishes into a buffer of as many bytes as a line says.
fn try_finish(rt: &HostRuntime, section: Section, line: &[u8], body: &[u8]) {
    let mut out = [0u8; BODY];
    try_room(rt, section, body, number_at(line, 0), &mut out);
}

fn phase_of(phase: usize, start: usize) -> Phase {
    match phase {
        1 => Phase::Opened(start),
        2 => Phase::Headed(start),
        _ => Phase::Closed,
    }
}

// The state of five numbers.
fn state_of(line: &[u8]) -> Section {
    Section {
        family: word_of(number_at(line, 0)),
        used: number_at(line, 1),
        count: word_of(number_at(line, 2)),
        phase: phase_of(number_at(line, 3), number_at(line, 4)),
    }
}

fn step_of(line: &[u8]) -> Command {
    if starts_with(line, b"row") {
        Command::Take(Step::Row)
    } else if starts_with(line, b"open") {
        Command::Take(Step::Open)
    } else if starts_with(line, b"head") {
        Command::Take(Step::Head)
    } else if starts_with(line, b"result ") {
        Command::Take(Step::Result)
    } else if starts_with(line, b"abandon") {
        Command::Take(Step::Abandon)
    } else if starts_with(line, b"long ") {
        Command::Long
    } else if starts_with(line, b"long-head ") {
        Command::LongHead
    } else if starts_with(line, b"finish ") {
        Command::Finish
    } else {
        Command::Other
    }
}

fn command_of(line: &[u8]) -> Command {
    if starts_with(line, b"#") {
        Command::Label
    } else if starts_with(line, b"pool ") {
        Command::Pool
    } else if starts_with(line, b"pool-size ") {
        Command::PoolSize
    } else if starts_with(line, b"body ") {
        Command::Body
    } else if starts_with(line, b"grow ") {
        Command::Grow
    } else if starts_with(line, b"state ") {
        Command::State
    } else if starts_with(line, b"new ") {
        Command::New
    } else {
        step_of(line)
    }
}

// Takes the step that a line names, beside that pool and over that body, and answers the state it leaves.
fn act_on(
    rt: &HostRuntime,
    command: Command,
    line: &[u8],
    section: Section,
    pool: &[u8],
    body: &mut [u8],
) -> Section {
    let first = number_at(line, 0);
    match command {
        Command::Take(step) => try_given(rt, step, section, line, pool, body),
        Command::Long => try_long_row(rt, section, first, number_at(line, 1), pool, body),
        Command::LongHead => try_long_head(rt, section, first, pool, body),
        Command::Finish => {
            try_finish(rt, section, line, body);
            section
        }
        _ => {
            say_line(rt, b"? no such line");
            section
        }
    }
}

// The same with pool, body and state as set.
fn act(
    rt: &HostRuntime,
    command: Command,
    line: &[u8],
    set: Setting,
    pool: &[u8],
    body: &mut [u8],
) -> Section {
    let Some(pool) = pool.get(..set.pool) else {
        say_line(rt, b"? too long a pool");
        return set.section;
    };
    let Some(body) = body.get_mut(..set.body) else {
        say_line(rt, b"? too long a body");
        return set.section;
    };
    act_on(rt, command, line, set.section, pool, body)
}

// Does what a line says, and answers what is set from there on.
fn obey(rt: &HostRuntime, line: &[u8], set: Setting, pool: &mut [u8], body: &mut [u8]) -> Setting {
    let command = command_of(line);
    let mut next = set;
    match command {
        Command::Label => {
            say_line(rt, line);
        }
        Command::Pool => {
            let size = telling::size_after(line, 5);
            let _ = numbers::copy(numbers::part(line, 5, size), 0, pool);
            next.pool = size;
        }
        Command::PoolSize => {
            let _ = numbers::copy(&[b'a'; POOL], 0, pool);
            next.pool = number_at(line, 0);
        }
        Command::Body => {
            telling::fill(body, false);
            next.body = number_at(line, 0);
        }
        Command::Grow => {
            next.body = number_at(line, 0);
        }
        Command::State => {
            next.section = state_of(line);
        }
        Command::New => {
            next.section = Section::new(word_of(number_at(line, 0)));
        }
        _ => {
            next.section = act(rt, command, line, set, pool, body);
        }
    }
    next
}

// Does what each line of the input says.
fn run(rt: &HostRuntime, input: &[u8], pool: &mut [u8], body: &mut [u8]) {
    let mut set = Setting {
        pool: 0,
        body: 0,
        section: Section::new(7),
    };
    for line in input.split_inclusive(|b| *b == b'\n') {
        let line = line.strip_suffix(b"\n").unwrap_or(line);
        set = obey(rt, line, set, pool, body);
    }
}

fn main(rt: HostRuntime) {
    let mut input = [0u8; 65536];
    let n = telling::read_full(&rt, &mut input);
    if n == input.len() {
        say_line(&rt, b"? too long an input");
        return;
    }
    let mut pool = [0u8; POOL];
    let mut body = [0u8; BODY];
    run(&rt, &input[..n], &mut pool, &mut body);
}
