// A sheet on standard input becomes one line on standard output: `ok` and the section in hexadecimal, or `refused N at row R`, with
// ` byte B` behind it for a name that is not UTF-8.
#![tactic(auto)]

use fields::{Fault, Refusal};
use telling::{say, say_field};

fn say_section(rt: &HostRuntime, section: &[u8]) {
    say(rt, b"ok ");
    telling::say_bytes(rt, section);
    say(rt, b"\n");
}

fn say_refusal(rt: &HostRuntime, why: Refusal, row: usize) {
    say_field(rt, b"refused ", u64::from(fields::number_of(why)));
    say_field(rt, b" at row ", row as u64);
    telling::say_byte(rt, why);
    say(rt, b"\n");
}

// Reads one byte more than a sheet may have, so that a longer one is seen. The body has 32,768 bytes, and out room enough to finish it.
fn main(rt: HostRuntime) {
    let mut input = [0u8; 65537];
    let n = telling::read_full(&rt, &mut input);
    let mut body = [0u8; 32768];
    let mut out = [0u8; 32800];
    match sheets::sheet(&input[..n], &mut body, &mut out) {
        Ok(size) => say_section(&rt, numbers::part(&out, 0, size)),
        Err(Fault { why, value: row }) => say_refusal(&rt, why, row),
    }
}
