// A section: its head, a line for each entry, and what is wrong with it.
use crate::entry::say_row;
use crate::parts::{after, front};
use crate::print::{say_limit, say_place, say_refusal, say_room};
use fields::{Extent, Fault, Read, Refusal};
use numbers::{NoNumber, Number};
use telling::{say, say_count};

#[derive(Clone, Copy)]
enum Family {
    Types,
    Imports,
}

impl Family {
    fn read(self, entry: &[u8], grade: u32, row: &mut [u32]) -> Read {
        match self {
            Family::Types => items::read_type(entry, grade, row),
            Family::Imports => items::read_import(entry, grade, row),
        }
    }

    fn title(self) -> &'static [u8] {
        match self {
            Family::Types => b"types: ",
            Family::Imports => b"imports: ",
        }
    }
}

// `types: 2 entries, 18 bytes`, which are those of the whole section, as its size says.
fn say_head(rt: &HostRuntime, family: Family, count: u32, size: usize) {
    say(rt, family.title());
    say_count(rt, u64::from(count), b" entry, ", b" entries, ");
    say_count(rt, size as u64, b" byte\n", b" bytes\n");
}

// `0 at 3, 5 bytes: ` and the entry.
fn say_entry(rt: &HostRuntime, number: u32, at: usize, size: usize, row: &[u32], entry: &[u8]) {
    telling::say_number(rt, u64::from(number));
    say_place(rt, at);
    say(rt, b", ");
    say_count(rt, size as u64, b" byte: ", b" bytes: ");
    say_row(rt, row, entry);
    say(rt, b"\n");
}

// ROOM counts words; every other place counts from the entry's first byte.
fn say_fault(rt: &HostRuntime, fault: Fault, at: usize) {
    let Fault { why, value } = fault;
    match why {
        Refusal::Room => say_room(rt, at, value),
        _ => say_refusal(rt, why, at.saturating_add(value)),
    }
}

// The entry at a place, read from there to the section's end: where it ends, or nothing where it is refused.
fn show_entry(
    rt: &HostRuntime,
    section: &[u8],
    family: Family,
    number: u32,
    at: usize,
    grade: u32,
    row: &mut [u32],
) -> Option<usize> {
    let entry = after(section, at);
    match family.read(entry, grade, row) {
        Ok(Extent { words, took: size }) => {
            say_entry(rt, number, at, size, front(row, words), entry);
            Some(at.saturating_add(size))
        }
        Err(fault) => {
            say_fault(rt, fault, at);
            None
        }
    }
}

// The entries from a place on: where the last of them ends, or nothing where one is refused.
fn show_entries(
    rt: &HostRuntime,
    section: &[u8],
    family: Family,
    count: u32,
    from: usize,
    grade: u32,
    row: &mut [u32],
) -> Option<usize> {
    let mut at = from;
    for i in 0..count {
        at = show_entry(rt, section, family, i, at, grade, row)?;
    }
    Some(at)
}

// What is wrong behind the last entry: `held` of its `size` bytes are there, and the input has `given`.
fn say_end(rt: &HostRuntime, at: usize, held: usize, size: usize, given: usize) {
    if at < held {
        say_refusal(rt, Refusal::Code, at);
    } else if held < size {
        say_refusal(rt, Refusal::Cut, held);
    } else if size < given {
        say_refusal(rt, Refusal::Code, size);
    }
}

// A section of so many bytes, whose count stands at a place.
fn show_counted(
    rt: &HostRuntime,
    input: &[u8],
    family: Family,
    size: usize,
    at: usize,
    grade: u32,
    row: &mut [u32],
) {
    let section = front(input, size);
    match numbers::take_unsigned(after(section, at)) {
        Ok(Number { value: count, took }) => {
            say_head(rt, family, count, size);
            let from = at.saturating_add(took);
            if let Some(end) = show_entries(rt, section, family, count, from, grade, row) {
                say_end(rt, end, section.len(), size, input.len());
            }
        }
        Err(NoNumber::Cut) => say_refusal(rt, Refusal::Cut, section.len()),
        Err(NoNumber::Bad) => say_refusal(rt, Refusal::Number, at),
    }
}

// A section whose id is read.
fn show_sized(rt: &HostRuntime, input: &[u8], family: Family, grade: u32, row: &mut [u32]) {
    match numbers::take_unsigned(after(input, 1)) {
        Ok(Number { value: size, took }) => {
            let at = took.saturating_add(1);
            let end = at.saturating_add(size as usize);
            show_counted(rt, input, family, end, at, grade, row);
        }
        Err(NoNumber::Cut) => say_refusal(rt, Refusal::Cut, input.len()),
        Err(NoNumber::Bad) => say_refusal(rt, Refusal::Number, 1),
    }
}

// A section by its id, 7 types and 10 imports, at a grade; none is no grade.
pub fn show_section(rt: &HostRuntime, input: &[u8], grade: Option<u32>, row: &mut [u32]) {
    let Some(grade) = grade else {
        return say_limit(rt, b": grade is 1, 2 or 3");
    };
    match input.first() {
        Some(7) => show_sized(rt, input, Family::Types, grade, row),
        Some(10) => show_sized(rt, input, Family::Imports, grade, row),
        _ => say_refusal(rt, Refusal::Code, 0),
    }
}
