// An entry in plain words. `words` are those of its row from some place on, and `entry` is its bytes, in which the row names its strings.
ghost use Rattle.std.specs.Prelude.{◌<◌};

use crate::parts::after;
use crate::print::say_quoted;
use telling::{say, say_field, word};

// What a counted kind repeats.
#[derive(Clone, Copy)]
enum Unit {
    Name,
    Value,
    // A name and a value.
    Member,
    // A name, and a value or none.
    Case,
}

impl Unit {
    // How many words it has.
    fn width(self) -> usize
        ensures { 0 < result }
    {
        match self {
            Unit::Name | Unit::Value => 2,
            Unit::Member | Unit::Case => 4,
        }
    }
}

// Document 01's N.
fn say_name(rt: &HostRuntime, words: &[u32], entry: &[u8]) {
    let start = word(words, 0) as usize;
    let length = word(words, 1) as usize;
    say_quoted(rt, numbers::part(entry, start, length));
}

// The primitives by their numbers. Here and below the reader's rows have no other number than those named, so `?` is never printed.
fn name_of(primitive: u32) -> &'static [u8] {
    match primitive {
        0 => b"bool",
        1 => b"s8",
        2 => b"u8",
        3 => b"s16",
        4 => b"u16",
        5 => b"s32",
        6 => b"u32",
        7 => b"s64",
        8 => b"u64",
        9 => b"f32",
        10 => b"f64",
        11 => b"char",
        12 => b"string",
        13 => b"error-context",
        _ => b"?",
    }
}

fn say_index(rt: &HostRuntime, before: &[u8], index: u32) {
    say_field(rt, before, u64::from(index));
}

// Document 01's V.
fn say_value(rt: &HostRuntime, before: &[u8], words: &[u32]) {
    say(rt, before);
    if word(words, 0) == 0 {
        say(rt, name_of(word(words, 1)));
    } else {
        say_index(rt, b"type ", word(words, 1));
    }
}

// Document 01's O: nothing where it is absent.
fn say_optional(rt: &HostRuntime, before: &[u8], words: &[u32]) {
    if word(words, 0) != 2 {
        say_value(rt, before, words);
    }
}

fn say_unit(rt: &HostRuntime, unit: Unit, words: &[u32], entry: &[u8]) {
    match unit {
        Unit::Name => say_name(rt, words, entry),
        Unit::Value => say_value(rt, b"", words),
        Unit::Member => {
            say_name(rt, words, entry);
            say_value(rt, b": ", after(words, 2));
        }
        Unit::Case => {
            say_name(rt, words, entry);
            say_optional(rt, b": ", after(words, 2));
        }
    }
}

// A counted kind: its units, with `first` before the first of them.
fn say_counted(
    rt: &HostRuntime,
    kind: &[u8],
    unit: Unit,
    first: &[u8],
    words: &[u32],
    entry: &[u8],
) {
    say(rt, kind);
    let count = word(words, 0) as usize;
    let units = after(words, 1).chunks_exact(unit.width());
    for (i, words) in units.take(count).enumerate() {
        say(rt, if i == 0 { first } else { b", " });
        say_unit(rt, unit, words, entry);
    }
}

fn say_map(rt: &HostRuntime, words: &[u32]) {
    say_value(rt, b"map ", words);
    say_value(rt, b" to ", after(words, 2));
}

fn say_fixed_list(rt: &HostRuntime, words: &[u32]) {
    say_value(rt, b"list of ", words);
    say_index(rt, b", length ", word(words, 2));
}

fn say_result(rt: &HostRuntime, words: &[u32]) {
    say(rt, b"result");
    say_optional(rt, b" ", words);
    say_optional(rt, b", error ", after(words, 2));
}

fn say_maybe_of(rt: &HostRuntime, kind: &[u8], words: &[u32]) {
    say(rt, kind);
    say_optional(rt, b" of ", words);
}

fn say_function(rt: &HostRuntime, words: &[u32], entry: &[u8]) {
    if word(words, 0) == 1 {
        say(rt, b"async ");
    }
    say_counted(rt, b"function (", Unit::Member, b"", after(words, 1), entry);
    say(rt, b")");
    if let Some(outcome) = words.last_chunk::<2>() {
        say_optional(rt, b" -> ", outcome);
    }
}

fn say_resource(rt: &HostRuntime, words: &[u32]) {
    let form = if word(words, 0) == 0 { b"i32" } else { b"i64" };
    say(rt, b"resource ");
    say(rt, form);
    if word(words, 1) == 1 {
        say_index(rt, b", destructor function ", word(words, 2));
    }
}

fn say_option(rt: &HostRuntime, before: &[u8], words: &[u32], entry: &[u8]) {
    if word(words, 0) == 1 {
        say(rt, before);
        say_name(rt, after(words, 1), entry);
    }
}

fn say_type_bound(rt: &HostRuntime, words: &[u32]) {
    if word(words, 0) == 0 {
        say_index(rt, b"type equal to ", word(words, 1));
    } else {
        say(rt, b"fresh resource");
    }
}

fn say_reference(rt: &HostRuntime, words: &[u32]) {
    match word(words, 0) {
        0 => say_index(rt, b"module ", word(words, 1)),
        1 => say_index(rt, b"function ", word(words, 1)),
        2 => say_value(rt, b"value ", after(words, 1)),
        3 => say_type_bound(rt, after(words, 1)),
        4 => say_index(rt, b"component ", word(words, 1)),
        5 => say_index(rt, b"instance ", word(words, 1)),
        _ => {
            say(rt, b"?");
        }
    }
}

fn say_import(rt: &HostRuntime, words: &[u32], entry: &[u8]) {
    say(rt, b"import ");
    say_name(rt, words, entry);
    say_option(rt, b" implements ", after(words, 2), entry);
    say_option(rt, b", version suffix ", after(words, 5), entry);
    say_option(rt, b", external id ", after(words, 8), entry);
    say(rt, b": ");
    say_reference(rt, after(words, 11));
}

// The words after the kind, as document 01 lays them out for it.
fn say_kind(rt: &HostRuntime, kind: u32, words: &[u32], entry: &[u8]) {
    match kind {
        0 => {
            say(rt, name_of(word(words, 0)));
        }
        1 => say_counted(rt, b"record", Unit::Member, b" ", words, entry),
        2 => say_counted(rt, b"variant", Unit::Case, b" ", words, entry),
        3 => say_value(rt, b"list of ", words),
        4 => say_map(rt, words),
        5 => say_fixed_list(rt, words),
        6 => say_counted(rt, b"tuple", Unit::Value, b" of ", words, entry),
        7 => say_counted(rt, b"flags", Unit::Name, b" ", words, entry),
        8 => say_counted(rt, b"enum", Unit::Name, b" ", words, entry),
        9 => say_value(rt, b"option of ", words),
        10 => say_result(rt, words),
        11 => say_index(rt, b"own type ", word(words, 0)),
        12 => say_index(rt, b"borrow type ", word(words, 0)),
        13 => say_maybe_of(rt, b"future", words),
        14 => say_maybe_of(rt, b"stream", words),
        15 => say_function(rt, words, entry),
        16 => say_resource(rt, words),
        17 => say_import(rt, words, entry),
        _ => {
            say(rt, b"?");
        }
    }
}

// The row of an entry.
pub fn say_row(rt: &HostRuntime, row: &[u32], entry: &[u8]) {
    say_kind(rt, word(row, 0), after(row, 1), entry);
}
