// Document 01's refusals by name and meaning.
ghost use Rattle.std.specs.Prelude.{◌≡◌};
ghost use Rattle.fields.specs.Answers.{number_of_refusal, byte_of_refusal};

use crate::text::{say, say_field};
use fields::Refusal;

// The names by number; OK is that of 0.
fn name_of(number: usize) -> &'static [u8] {
    match number {
        0 => b"OK",
        1 => b"LIMIT",
        2 => b"KIND",
        3 => b"ROW",
        4 => b"TAG",
        5 => b"RANGE",
        6 => b"TEXT",
        7 => b"TOO_BIG",
        8 => b"ROOM",
        9 => b"ORDER",
        10 => b"COUNT",
        11 => b"CUT",
        12 => b"CODE",
        13 => b"NUMBER",
        14 => b"NEWER",
        15 => b"SHEET",
        _ => b"?",
    }
}

// What each of them means, in a few words.
fn meaning_of(number: usize) -> &'static [u8] {
    match number {
        0 => b"done",
        1 => b"a limit is passed, or a state does not hold together",
        2 => b"no such kind, or another section's",
        3 => b"an empty row, or one not as long as its kind and count need",
        4 => b"a word outside its list",
        5 => b"a name that ends past the pool",
        6 => b"a name that is not UTF-8",
        7 => b"a section of more than 4294967295 bytes",
        8 => b"too little room",
        9 => b"a step out of turn, or an entry still open",
        10 => b"an entry more than can be counted",
        11 => b"the bytes end too soon",
        12 => b"a byte that cannot stand there",
        13 => b"no 32-bit number in at most five bytes",
        14 => b"a form above the grade",
        15 => b"another version, no row, or broken framing",
        _ => b"?",
    }
}

// The name of a number.
pub fn say_name(rt: &HostRuntime, number: usize) -> usize
    ensures { result ≡ number }
{
    say(rt, name_of(number));
    number
}

// What a number means.
pub fn say_meaning(rt: &HostRuntime, number: usize) -> usize
    ensures { result ≡ number }
{
    say(rt, meaning_of(number));
    number
}

// ` byte B` after TEXT, and nothing after any other refusal.
pub fn say_byte(rt: &HostRuntime, why: Refusal) -> u32
    ensures { result ≡ byte_of_refusal why }
{
    let byte = fields::byte_of(why);
    if let Refusal::Text(_) = why {
        say_field(rt, b" byte ", u64::from(byte));
    }
    byte
}

// `refused NUMBER VALUE NAME`, and after TEXT the name's byte.
pub fn say_refusal(rt: &HostRuntime, why: Refusal, value: usize) -> u32
    ensures { result ≡ number_of_refusal why }
{
    let number = fields::number_of(why);
    say_field(rt, b"refused ", u64::from(number));
    say_field(rt, b" ", value as u64);
    say(rt, b" ");
    say_name(rt, number as usize);
    say_byte(rt, why);
    number
}
