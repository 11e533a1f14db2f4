// The C interface: every call of the library with C calling rules. include/tbaunarith.h declares it.
#![tactic(auto)]

ghost use Rattle.std.specs.Prelude.{true, ◌≡◌, length};
ghost use Rattle.reading.specs.inside.Few.{Few};
ghost use Rattle.items.specs.ReadType.{read_type};
ghost use Rattle.items.specs.ReadImport.{read_import};
ghost use Rattle.sections.specs.Steps.{rowing, opening, heading, resulting, abandoning};
ghost use Rattle.sheets.specs.Sheet.{sheeted};
ghost use Rattle.cabi.specs.Read.{reply_of_read, filled, of_read};
ghost use Rattle.cabi.specs.Reply.{reply_of, limit};
ghost use Rattle.cabi.specs.inside.Ready.{Ready};
ghost use Rattle.cabi.specs.Sheet.{written, of_sheet};
ghost use Rattle.cabi.specs.State.{section_of, phase_of, given, phase_number, start_number, numbers_of, stepped, step, finished, finishes};
ghost use Rattle.cabi.specs.inside.Settled.{Settled};

use fields::{Answer, Extent, Fault, Read, Refusal};
use sections::{Phase, Section, Turned};

// What every call gives back.
#[repr(C)]
#[derive(Clone, Copy)]
pub struct Reply {
    // Document 01's number: 0 is OK.
    pub number: u32,
    // The words of an item read; the byte of a name after TEXT; else 0.
    pub also: u32,
    // The size, the bytes taken, the place, or the row.
    pub value: u64,
}

fn reply_to(answer: Answer) -> Reply
    ensures { result ≡ reply_of answer }
{
    match answer {
        Ok(n) => Reply {
            number: 0,
            also: 0,
            value: n as u64,
        },
        Err(Fault { why, value }) => Reply {
            number: fields::number_of(why),
            also: fields::byte_of(why),
            value: value as u64,
        },
    }
}

fn reply_to_read(read: Read) -> Reply
    requires { Few read }
    ensures { result ≡ reply_of_read read }
{
    match read {
        Ok(Extent { words, took: bytes }) => Reply {
            number: 0,
            also: words as u32,
            value: bytes as u64,
        },
        Err(Fault { why, value }) => Reply {
            number: fields::number_of(why),
            also: fields::byte_of(why),
            value: value as u64,
        },
    }
}

// The reply to numbers that are no state.
fn refuse() -> Reply
    ensures { result ≡ limit }
{
    reply_to(Err(Fault {
        why: Refusal::Limit,
        value: 0,
    }))
}

fn with_phase(family: u32, used: usize, count: u32, phase: u64, start: usize) -> Option<Section>
    ensures { result ≡ phase_of phase start (section_of family used count) }
{
    if phase == 0 {
        if start == 0 {
            return in_phase(family, used, count, Phase::Closed);
        }
        return None;
    }
    if phase == 1 {
        return in_phase(family, used, count, Phase::Opened(start));
    }
    if phase == 2 {
        return in_phase(family, used, count, Phase::Headed(start));
    }
    None
}

fn in_phase(family: u32, used: usize, count: u32, phase: Phase) -> Option<Section>
    ensures { result ≡ section_of family used count phase }
{
    Some(Section {
        family,
        used,
        count,
        phase,
    })
}

// The state that five numbers are, if there is one.
fn take_state(state: &[u64; 5]) -> Option<Section>
    ensures { result ≡ given state.now }
{
    let family = state[0];
    let used = state[1];
    let count = state[2];
    let phase = state[3];
    let start = state[4];
    if family < 0x1_0000_0000 {
        if count < 0x1_0000_0000 {
            return with_phase(
                family as u32,
                used as usize,
                count as u32,
                phase,
                start as usize,
            );
        }
        return None;
    }
    None
}

fn phase_number(phase: Phase) -> u64
    ensures { result ≡ phase_number phase }
{
    match phase {
        Phase::Closed => 0,
        Phase::Opened(_) => 1,
        Phase::Headed(_) => 2,
    }
}

fn start_number(phase: Phase) -> u64
    ensures { result ≡ start_number phase }
{
    match phase {
        Phase::Closed => 0,
        Phase::Opened(start) => start as u64,
        Phase::Headed(start) => start as u64,
    }
}

// Stores a state as its five numbers.
fn put_state(s: Section, state: &mut [u64; 5])
    ensures { state.new ≡ numbers_of s }
{
    let family = s.family as u64;
    let used = s.used as u64;
    let count = s.count as u64;
    let phase = s.phase;
    let number = phase_number(phase);
    let start = start_number(phase);
    *state = [family, used, count, number, start];
}

// Stores the state that a step hands back, and replies its answer.
fn settle(t: Turned, state: &mut [u64; 5]) -> Reply
    ensures { Settled t result state.new }
{
    let section = t.section;
    let answer = t.answer;
    put_state(section, state);
    reply_to(answer)
}

// A whole sheet.
#[unsafe(no_mangle)]
pub extern "C" fn tb_sheet(sheet: &[u8], body: &mut [u8], out: &mut [u8]) -> Reply
    ensures { written result body.new out.new ≡ of_sheet (sheeted sheet.now body.old out.old) }
{
    reply_to(sheets::sheet(sheet, body, out))
}

// The type at the front of the input.
#[unsafe(no_mangle)]
pub extern "C" fn tb_read_type(input: &[u8], grade: u32, row: &mut [u32]) -> Reply
    ensures { filled result row.new ≡ of_read (read_type grade input.now row.old) }
{
    reply_to_read(items::read_type(input, grade, row))
}

// The import at the front of the input.
#[unsafe(no_mangle)]
pub extern "C" fn tb_read_import(input: &[u8], grade: u32, row: &mut [u32]) -> Reply
    ensures { filled result row.new ≡ of_read (read_import grade input.now row.old) }
{
    reply_to_read(items::read_import(input, grade, row))
}

// Whether five numbers are a closed section of a known family that can take an entry more, over a body of n bytes.
fn is_ready(state: &[u64; 5], n: usize) -> bool
    ensures { result ≡ true → Ready state.now n }
{
    if state[3] == 0 {
        if state[4] == 0 {
            if state[2] < 0xffff_ffff {
                if state[1] <= n as u64 {
                    if state[0] == 7 {
                        return true;
                    }
                    if state[0] == 8 {
                        return true;
                    }
                    if state[0] == 10 {
                        return true;
                    }
                    if state[0] == 2 {
                        return true;
                    }
                    return state[0] == 5;
                }
            }
        }
    }
    false
}

// A row, the state taken as a Section.
fn row_by_section(state: &mut [u64; 5], row: &[u32], pool: &[u8], body: &mut [u8]) -> Reply
    ensures { stepped result state.new body.new ≡ step (given state.old) (λ s. rowing s row.now pool.now body.old) state.old body.old }
{
    match take_state(state) {
        Some(s) => settle(s.row(row, pool, body), state),
        None => refuse(),
    }
}

// A row where the state is ready: its bytes, and used and count with them.
fn row_when_ready(state: &mut [u64; 5], row: &[u32], pool: &[u8], body: &mut [u8]) -> Reply
    requires { Ready state.old (length body.old) }
    ensures { stepped result state.new body.new ≡ step (given state.old) (λ s. rowing s row.now pool.now body.old) state.old body.old }
{
    let family = state[0];
    let used = state[1];
    let count = state[2];
    match sections::write_by(family as u32, row, pool, body, used as usize) {
        Ok(n) => {
            let grown = used + n as u64;
            let more = count + 1;
            *state = [family, grown, more, 0, 0];
            Reply {
                number: 0,
                also: 0,
                value: n as u64,
            }
        }
        Err(fault) => {
            *state = [family, used, count, 0, 0];
            reply_to(Err(fault))
        }
    }
}

// A row of a section.
#[unsafe(no_mangle)]
pub extern "C" fn tb_row(state: &mut [u64; 5], row: &[u32], pool: &[u8], body: &mut [u8]) -> Reply
    ensures { stepped result state.new body.new ≡ step (given state.old) (λ s. rowing s row.now pool.now body.old) state.old body.old }
{
    if is_ready(state, body.len()) {
        return row_when_ready(state, row, pool, body);
    }
    row_by_section(state, row, pool, body)
}

// Opens a function.
#[unsafe(no_mangle)]
pub extern "C" fn tb_open(state: &mut [u64; 5], body: &mut [u8]) -> Reply
    ensures { stepped result state.new body.new ≡ step (given state.old) (λ s. opening s body.old) state.old body.old }
{
    match take_state(state) {
        Some(s) => settle(s.open(body), state),
        None => refuse(),
    }
}

// The function's head: its first byte and its parameters.
#[unsafe(no_mangle)]
pub extern "C" fn tb_head(
    state: &mut [u64; 5],
    words: &[u32],
    pool: &[u8],
    body: &mut [u8],
) -> Reply
    ensures { stepped result state.new body.new ≡ step (given state.old) (λ s. heading s words.now pool.now body.old) state.old body.old }
{
    match take_state(state) {
        Some(s) => settle(s.head(words, pool, body), state),
        None => refuse(),
    }
}

// The function's result, which closes the entry.
#[unsafe(no_mangle)]
pub extern "C" fn tb_result(state: &mut [u64; 5], tag: u32, x: u32, body: &mut [u8]) -> Reply
    ensures { stepped result state.new body.new ≡ step (given state.old) (λ s. resulting s tag x body.old) state.old body.old }
{
    match take_state(state) {
        Some(s) => settle(s.result(tag, x, body), state),
        None => refuse(),
    }
}

// Takes an open function back.
#[unsafe(no_mangle)]
pub extern "C" fn tb_abandon(state: &mut [u64; 5], body: &mut [u8]) -> Reply
    ensures { stepped result state.new body.new ≡ step (given state.old) (λ s. abandoning s body.old) state.old body.old }
{
    match take_state(state) {
        Some(s) => settle(s.abandon(body), state),
        None => refuse(),
    }
}

// The finished section at the front of out.
#[unsafe(no_mangle)]
pub extern "C" fn tb_finish(state: &[u64; 5], body: &[u8], out: &mut [u8]) -> Reply
    ensures { finished result out.new ≡ finishes (given state.now) body.now out.old }
{
    match take_state(state) {
        Some(s) => reply_to(s.finish(body, out)),
        None => refuse(),
    }
}
