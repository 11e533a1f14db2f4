// Replays lists of stored cases, sheets and readings of types and imports, and counts the answers; those that are not the list's
// are printed.
//
// Standard input is one list after the other, as tools/vectors wrote them; tools/cases.py says how a list is laid out. Each case is
// run twice, with all that is lent to be written filled by two patterns that differ in every byte. A case is right where each time
// number, value and what comes with them (words read, or a name's byte) are those of the list, what is made stands at the front of
// what was lent, and all the rest is as it was filled. For a refusal nothing is made, so nothing may change.
//
// A list is told by its title and, for each sort of case that it has, how many of them were answered by each of document 01's numbers.
#![tactic(auto)]

mod lent;
mod list;
mod tally;
mod trial;

use list::{Broken, Head};
use tally::Tally;

// The program's own buffers. A sheet may pass document 01's 65,536 bytes, and a row its 16,384 words.
const ROOM: usize = 131072;

const WORDS: usize = 32768;

// Lists are few; the bound is there so that the program ends whatever it reads.
const LISTS: usize = 1000000;

// Runs the cases of a list.
fn run_cases(
    rt: &HostRuntime,
    cases: usize,
    input: &mut [u8],
    made: &mut [u8],
    body: &mut [u8],
    out: &mut [u8],
    row: &mut [u32],
    tally: &mut Tally,
) -> Result<(), Broken> {
    for i in 0..cases {
        let case = list::next_case(rt, input, made)?;
        let outcome = trial::try_case(case, input, made, body, out, row);
        tally::say_difference(rt, i, case, outcome);
        tally.add(case.sort, outcome);
    }
    Ok(())
}

// Runs a list whose title stands at the front of the input, and tells how it went.
fn run_list(
    rt: &HostRuntime,
    head: Head,
    input: &mut [u8],
    made: &mut [u8],
    body: &mut [u8],
    out: &mut [u8],
    row: &mut [u32],
) {
    let mut tally = Tally::NONE;
    telling::say_line(rt, numbers::part(input, 0, head.title));
    if let Err(Broken) = run_cases(rt, head.cases, input, made, body, out, row, &mut tally) {
        tally::say_broken(rt);
    }
    tally.say(rt);
}

// Runs list after list, until the input ends.
fn run(
    rt: &HostRuntime,
    input: &mut [u8],
    made: &mut [u8],
    body: &mut [u8],
    out: &mut [u8],
    row: &mut [u32],
) {
    for _ in 0..LISTS {
        match list::next_list(rt, input) {
            Ok(Some(head)) => run_list(rt, head, input, made, body, out, row),
            Ok(None) => return,
            Err(Broken) => return tally::say_broken(rt),
        }
    }
}

fn main(rt: HostRuntime) {
    let mut input = [0u8; ROOM];
    let mut made = [0u8; ROOM];
    let mut body = [0u8; ROOM];
    let mut out = [0u8; ROOM];
    let mut row = [0u32; WORDS];
    run(&rt, &mut input, &mut made, &mut body, &mut out, &mut row);
}
