// Sections of types or imports on standard input become plain words on standard output.
//
// The input is text where every byte is printable ASCII, a tab or a line's end; else it is one section. In text, line by line:
//   # text      is printed as it stands
//   grade N     so is this, and the lines behind it are read at grade N
//   BYTES       a section in hexadecimal; blanks are skipped, and so is `ok ` before it, as the program `sheet` writes
// A line of blanks is skipped, and any other line is printed behind `not bytes in hexadecimal: `. The grade is the program's argument, 3
// without one.
//
// A section's answer is a line for the section and one for each entry, up to the first fault, which is a line
// `refused NUMBER NAME at PLACE: MEANING`, after TEXT with ` byte B` behind the place of the name. Places count from the section's
// first byte, and a name's bytes from its own.
#![tactic(auto)]

mod entry;
mod parts;
mod print;
mod section;

ghost use Rattle.std.specs.Prelude.{◌≡◌, ◌<◌, length, IfSome};

use fields::ROW_WORDS;
use print::say_limit;
use section::show_section;
use std::env::{Env, FillError};
use telling::{say, say_line, starts_with};

const LIMIT: usize = 1048576;

// Room for the longest input and one byte more, so that a longer one is seen.
fn room() -> [u8; 1048577]
    ensures { 1048577 ≡ length result }
{
    [0; 1048577]
}

// A line ends at either byte, so that no printed line holds a carriage return.
fn is_line_end(b: u8) -> bool {
    b == b'\n' || b == b'\r'
}

fn is_blank(b: u8) -> bool {
    b == b' ' || b == b'\t'
}

// Printable ASCII, a tab, or a line's end.
fn is_text(b: u8) -> bool {
    matches!(b, b' '..=b'~') || b == b'\t' || is_line_end(b)
}

// A grade's text as a number.
fn grade_of(text: &[u8]) -> Option<u32> {
    match text {
        b"1" => Some(1),
        b"2" => Some(2),
        b"3" => Some(3),
        _ => None,
    }
}

// The program's argument as a grade.
fn asked_grade(rt: &HostRuntime) -> Option<u32> {
    let mut text = [0u8; 2];
    let n = rt.arg(1, &mut text).ok()?;
    grade_of(&text[..n])
}

// Whether the program was started with an argument at that place.
fn has_argument(rt: &HostRuntime, i: usize) -> bool {
    let mut text = [0u8; 1];
    !matches!(rt.arg(i, &mut text), Err(FillError::NotPresent))
}

// The grade that the program is started with, if its arguments are one grade.
fn first_grade(rt: &HostRuntime) -> Option<u32> {
    if !has_argument(rt, 1) {
        Some(3)
    } else if has_argument(rt, 2) {
        None
    } else {
        asked_grade(rt)
    }
}

// The value of a hexadecimal digit.
fn value_of(digit: u8) -> Option<u8>
    ensures { IfSome result (λ value. value < 16) }
{
    match digit {
        b'0'..=b'9' => Some(digit - b'0'),
        b'a'..=b'f' => Some(digit - b'a' + 10),
        b'A'..=b'F' => Some(digit - b'A' + 10),
        _ => None,
    }
}

// A digit more after `count` of them: an upper one sets its byte, with the lower 0.
fn put_digit(value: u8, count: usize, bytes: &mut [u8])
    requires { value < 16 }
{
    if let Some(byte) = bytes.get_mut(count / 2) {
        *byte = if count % 2 == 0 {
            value * 16
        } else {
            *byte / 16 * 16 + value
        };
    }
}

// The bytes of a text in hexadecimal, put to the front of `bytes`: how many, if the text is nothing else.
fn bytes_of(text: &[u8], bytes: &mut [u8]) -> Option<usize> {
    let mut count = 0;
    for byte in text {
        if !is_blank(*byte) {
            put_digit(value_of(*byte)?, count, bytes);
            count += 1;
        }
    }
    (count % 2 == 0).then_some(count / 2)
}

fn show_digits(
    rt: &HostRuntime,
    line: &[u8],
    text: &[u8],
    grade: Option<u32>,
    bytes: &mut [u8],
    row: &mut [u32],
) {
    match bytes_of(text, bytes) {
        Some(0) => {}
        Some(n) => show_section(rt, numbers::part(bytes, 0, n), grade, row),
        None => {
            say(rt, b"not bytes in hexadecimal: ");
            say_line(rt, line);
        }
    }
}

// What a line says, shown at a grade, and the grade behind it.
fn show_line(
    rt: &HostRuntime,
    line: &[u8],
    grade: Option<u32>,
    bytes: &mut [u8],
    row: &mut [u32],
) -> Option<u32> {
    if starts_with(line, b"#") {
        say_line(rt, line);
        return grade;
    }
    if let Some(text) = line.strip_prefix(b"grade ") {
        say_line(rt, line);
        return grade_of(text);
    }
    let text = line.strip_prefix(b"ok ").unwrap_or(line);
    show_digits(rt, line, text, grade, bytes, row);
    grade
}

fn show_lines(
    rt: &HostRuntime,
    input: &[u8],
    first: Option<u32>,
    bytes: &mut [u8],
    row: &mut [u32],
) {
    let mut grade = first;
    for line in input.split(|b| is_line_end(*b)) {
        grade = show_line(rt, line, grade, bytes, row);
    }
}

fn show(rt: &HostRuntime, input: &[u8], bytes: &mut [u8], row: &mut [u32]) {
    let grade = first_grade(rt);
    if input.iter().all(|b| is_text(*b)) {
        show_lines(rt, input, grade, bytes, row);
    } else {
        show_section(rt, input, grade, row);
    }
}

fn main(rt: HostRuntime) {
    let mut input = room();
    let n = telling::read_full(&rt, &mut input);
    if LIMIT < n {
        return say_limit(&rt, b": the input has more than 1048576 bytes");
    }
    let mut bytes = room();
    let mut row = [0u32; ROW_WORDS];
    show(&rt, &input[..n], &mut bytes, &mut row);
}
