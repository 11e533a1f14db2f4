// The box's loop in small: one section's state is kept in a local and lent to each step, and the same steps go by value beside it.
#![tactic(auto)]

ghost use Rattle.std.specs.Prelude.{◌≡◌};
ghost use Rattle.fields.specs.Answers.{left};
ghost use Rattle.box_loop.specs.Script.{scripted, closed};

use fields::{Answer, Fault};
use sections::{Section, Turned};
use telling::{say, say_field};

// Which step a line is of.
#[derive(Clone, Copy)]
enum Step {
    Row,
    Open,
    Head,
    Result,
    Abandon,
    Finish,
}

impl Step {
    fn name(self) -> &'static [u8] {
        match self {
            Step::Row => b"row",
            Step::Open => b"open",
            Step::Head => b"head",
            Step::Result => b"result",
            Step::Abandon => b"abandon",
            Step::Finish => b"finish",
        }
    }
}

// The line of a step: its name, the number and the value of its answer, and the state it leaves.
fn show(rt: &HostRuntime, step: Step, answer: Answer, section: Section) {
    say(rt, step.name());
    match answer {
        Ok(size) => {
            say(rt, b" 0");
            say_field(rt, b" ", size as u64);
        }
        Err(Fault { why, value }) => {
            say_field(rt, b" ", u64::from(fields::number_of(why)));
            say_field(rt, b" ", value as u64);
        }
    }
    say_field(rt, b" used ", section.used as u64);
    say_field(rt, b" count ", u64::from(section.count));
    say(rt, b"\n");
}

// The steps with the state lent: it stands in one local, and each step leaves the next state there. What comes out is what the
// definitions of the steps by value say.
fn by_lending(
    rt: &HostRuntime,
    row: &[u32],
    words: &[u32],
    pool: &[u8],
    body: &mut [u8],
    out: &mut [u8],
) -> Answer
    ensures { (left result out.new
        ≡ closed (scripted row.now words.now pool.now body.old) out.old)
        × (body.new ≡ (scripted row.now words.now pool.now body.old).body) }
{
    let mut section = Section::new(7);
    show(
        rt,
        Step::Row,
        lent::row(&mut section, row, pool, body),
        section,
    );
    show(
        rt,
        Step::Row,
        lent::row(&mut section, words, pool, body),
        section,
    );
    show(rt, Step::Open, lent::open(&mut section, body), section);
    show(rt, Step::Open, lent::open(&mut section, body), section);
    show(
        rt,
        Step::Result,
        lent::result(&mut section, 0, 12, body),
        section,
    );
    show(
        rt,
        Step::Head,
        lent::head(&mut section, words, pool, body),
        section,
    );
    show(
        rt,
        Step::Result,
        lent::result(&mut section, 0, 12, body),
        section,
    );
    show(rt, Step::Open, lent::open(&mut section, body), section);
    show(
        rt,
        Step::Head,
        lent::head(&mut section, words, pool, body),
        section,
    );
    show(
        rt,
        Step::Abandon,
        lent::abandon(&mut section, body),
        section,
    );
    let finished = lent::finish(&section, body, out);
    show(rt, Step::Finish, finished, section);
    finished
}

// The line of a step by value, and the state it hands on.
fn shown(rt: &HostRuntime, step: Step, turned: Turned) -> Section {
    let Turned { section, answer } = turned;
    show(rt, step, answer, section);
    section
}

// The same steps by value: the rows,
fn rows_by_value(
    rt: &HostRuntime,
    section: Section,
    row: &[u32],
    words: &[u32],
    pool: &[u8],
    body: &mut [u8],
) -> Section {
    let one = shown(rt, Step::Row, section.row(row, pool, body));
    shown(rt, Step::Row, one.row(words, pool, body))
}

// the function, with an opening and a result out of turn,
fn open_by_value(rt: &HostRuntime, section: Section, body: &mut [u8]) -> Section {
    let one = shown(rt, Step::Open, section.open(body));
    let two = shown(rt, Step::Open, one.open(body));
    shown(rt, Step::Result, two.result(0, 12, body))
}

fn close_by_value(
    rt: &HostRuntime,
    section: Section,
    words: &[u32],
    pool: &[u8],
    body: &mut [u8],
) -> Section {
    let one = shown(rt, Step::Head, section.head(words, pool, body));
    shown(rt, Step::Result, one.result(0, 12, body))
}

// the function that is abandoned,
fn abandon_by_value(
    rt: &HostRuntime,
    section: Section,
    words: &[u32],
    pool: &[u8],
    body: &mut [u8],
) -> Section {
    let one = shown(rt, Step::Open, section.open(body));
    let two = shown(rt, Step::Head, one.head(words, pool, body));
    shown(rt, Step::Abandon, two.abandon(body))
}

// and the end.
fn finish_by_value(rt: &HostRuntime, section: Section, body: &[u8], out: &mut [u8]) -> Answer {
    let finished = section.finish(body, out);
    show(rt, Step::Finish, finished, section);
    finished
}

// The finished section.
fn say_finished(rt: &HostRuntime, answer: Answer, out: &[u8]) {
    match answer {
        Ok(size) => {
            telling::say_bytes(rt, numbers::part(out, 0, size));
        }
        Err(_) => {
            say(rt, b"refused");
        }
    }
    say(rt, b"\n");
}

fn say_by_lending(rt: &HostRuntime, row: &[u32], words: &[u32], pool: &[u8]) {
    let mut body = [0u8; 64];
    let mut out = [0u8; 64];
    let finished = by_lending(rt, row, words, pool, &mut body, &mut out);
    say_finished(rt, finished, &out);
}

fn say_by_value(rt: &HostRuntime, row: &[u32], words: &[u32], pool: &[u8]) {
    let mut body = [0u8; 64];
    let mut out = [0u8; 64];
    let one = rows_by_value(rt, Section::new(7), row, words, pool, &mut body);
    let two = open_by_value(rt, one, &mut body);
    let three = close_by_value(rt, two, words, pool, &mut body);
    let four = abandon_by_value(rt, three, words, pool, &mut body);
    let finished = finish_by_value(rt, four, &body, &mut out);
    say_finished(rt, finished, &out);
}

// Both over the same row, words and pool. The row is a record of ab, a string. The words are the head of a function of x, a u32; as a row
// they are a primitive with words left over.
fn main(rt: HostRuntime) {
    let row = [1u32, 1, 0, 2, 0, 12];
    let words = [0u32, 1, 2, 1, 0, 6];
    say(&rt, b"lent\n");
    say_by_lending(&rt, &row, &words, b"abx");
    say(&rt, b"by value\n");
    say_by_value(&rt, &row, &words, b"abx");
}
