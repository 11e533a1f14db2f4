// What a line is made of beside text and numbers: names, places and refusals.
use fields::Refusal;
use telling::{say, say_bytes, say_field, say_line};

// Printable ASCII, but for the quote and the backslash.
fn is_plain(b: u8) -> bool {
    matches!(b, b' '..=b'~') && b != b'"' && b != b'\\'
}

// A run of plain bytes, up to the first other byte, which is written as \xx.
fn say_run(rt: &HostRuntime, run: &[u8]) {
    match run {
        [plain @ .., last] if !is_plain(*last) => {
            say(rt, plain);
            say(rt, b"\\");
            say_bytes(rt, &[*last]);
        }
        _ => {
            say(rt, run);
        }
    }
}

// A name in quotes. Every byte but a plain one is escaped, so that no name can end its quotes or its line, or look like another.
pub fn say_quoted(rt: &HostRuntime, name: &[u8]) {
    say(rt, b"\"");
    for run in name.split_inclusive(|b| !is_plain(*b)) {
        say_run(rt, run);
    }
    say(rt, b"\"");
}

// `refused NUMBER NAME`, and the number.
fn say_refused(rt: &HostRuntime, why: Refusal) -> usize {
    let number = fields::number_of(why);
    say_field(rt, b"refused ", u64::from(number));
    say(rt, b" ");
    telling::say_name(rt, number as usize)
}

pub fn say_place(rt: &HostRuntime, at: usize) {
    say_field(rt, b" at ", at as u64);
}

// Something is wrong at a place.
pub fn say_refusal(rt: &HostRuntime, why: Refusal, at: usize) {
    let number = say_refused(rt, why);
    say_place(rt, at);
    telling::say_byte(rt, why);
    say(rt, b": ");
    telling::say_meaning(rt, number);
    say(rt, b"\n");
}

// A limit that has no place.
pub fn say_limit(rt: &HostRuntime, meaning: &[u8]) {
    say_refused(rt, Refusal::Limit);
    say_line(rt, meaning);
}

// An entry of more words than a row may have.
pub fn say_room(rt: &HostRuntime, at: usize, words: usize) {
    say_refused(rt, Refusal::Room);
    say_place(rt, at);
    say_field(rt, b": an entry of ", words as u64);
    say_field(
        rt,
        b" words, and a row has at most ",
        fields::ROW_WORDS as u64,
    );
    say(rt, b"\n");
}
