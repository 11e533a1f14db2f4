// A section that is being put together: a state by value over a lent body. Each step takes the state and hands the new one back with
// its answer; a refusal changes neither state nor body.
#![tactic(auto)]

ghost use Rattle.std.specs.Prelude.{◌≡◌, ◌<◌, ◌≤◌, length};
ghost use Rattle.std.proofs.lemmas.List.Edits.{sets};
ghost use Rattle.fields.specs.Answers.{left};
ghost use Rattle.sections.specs.Section.{fresh, known_family, holds_at, sounds, opened, write_family};
ghost use Rattle.sections.specs.Steps.{turned, refused, withdrawn, taken, rowing, opening, heading, resulting, abandoning};
ghost use Rattle.sections.specs.inside.Bounded.{Bounded};
ghost use Rattle.sections.specs.Finish.{framed, framing, finishing};

use fields::{Answer, Fault, POOL_BYTES, ROW_WORDS, Refusal};

// Where an open function stands; the number is the place in the body where it starts.
#[derive(Clone, Copy, PartialEq, Eq)]
pub enum Phase {
    // No function is open.
    Closed,
    // Nothing of it is written.
    Opened(usize),
    // Its head is written: the first byte and the parameters.
    Headed(usize),
}

#[derive(Clone, Copy, PartialEq, Eq)]
pub struct Section {
    // 2 core instances, 5 instances, 7 types, 8 canonicals, 10 imports: a number, since C hands over every number, and others are refused.
    pub family: u32,
    // How many bytes of the body are written.
    pub used: usize,
    // How many entries they are, the open one included.
    pub count: u32,
    pub phase: Phase,
}

// What a step hands back.
#[derive(Clone, Copy)]
pub struct Turned {
    pub section: Section,
    pub answer: Answer,
}

// Whether a family is a section's.
#[tactic(auto, unfolding(crate::specs::Section::known_family))]
fn is_known(family: u32) -> bool
    ensures { result ≡ known_family family }
{
    matches!(family, 2 | 5 | 7 | 8 | 10)
}

// The row written by the writer of its family; LIMIT where the family is no section's. It stands in its callers' code, so that its
// answer, of three words, need not go through memory.
#[inline(always)]
pub fn write_by(family: u32, row: &[u32], pool: &[u8], body: &mut [u8], at: usize) -> Answer
    ensures { left result body.new ≡ write_family family row.now pool.now body.old at }
{
    match family {
        7 => types::write(&row[0..], &pool[0..], body, at),
        8 => canonicals::write(&row[0..], &pool[0..], body, at),
        10 => imports::write(&row[0..], &pool[0..], body, at),
        2 => instances::write_core(&row[0..], &pool[0..], body, at),
        5 => instances::write(&row[0..], &pool[0..], body, at),
        _ => Err(Fault {
            why: Refusal::Limit,
            value: 0,
        }),
    }
}

impl Phase {
    fn is_open(self) -> bool
        ensures { result ≡ opened self }
    {
        match self {
            Phase::Closed => false,
            Phase::Opened(_) => true,
            Phase::Headed(_) => true,
        }
    }
}

impl Section {
    // A section with nothing in it.
    pub fn new(family: u32) -> Self
        ensures { result ≡ fresh family }
    {
        Section {
            family,
            used: 0,
            count: 0,
            phase: Phase::Closed,
        }
    }

    // Whether an entry may be open that starts at `start`.
    fn holds(self, start: usize) -> bool
        ensures { result ≡ holds_at self start }
    {
        let family = self.family;
        let used = self.used;
        let count = self.count;
        if family == 7 {
            if start <= used {
                return 0 < count;
            }
            return false;
        }
        false
    }

    // Whether the state can stand over a body of n bytes.
    fn sound(self, n: usize) -> bool
        ensures { result ≡ sounds self n }
    {
        let used = self.used;
        let family = self.family;
        let phase = self.phase;
        if n < used {
            return false;
        }
        match phase {
            Phase::Closed => is_known(family),
            Phase::Opened(start) => self.holds(start),
            Phase::Headed(start) => self.holds(start),
        }
    }

    fn refuse(self, why: Refusal, value: usize) -> Turned
        ensures { result ≡ refused self why value }
    {
        Turned {
            section: self,
            answer: Err(Fault { why, value }),
        }
    }

    // The state after an answer: grown by the bytes that were added, with that count and phase; or as it was.
    fn after(self, answer: Answer, count: u32, phase: Phase) -> Turned
        requires { Bounded self answer }
        ensures { result ≡ taken self answer count phase }
    {
        let family = self.family;
        let used = self.used;
        match answer {
            Ok(n) => {
                let grown = used + n;
                Turned {
                    section: Section {
                        family,
                        used: grown,
                        count,
                        phase,
                    },
                    answer: Ok(n),
                }
            }
            Err(Fault { why, value }) => self.refuse(why, value),
        }
    }

    // A row: its bytes, and one entry more.
    pub fn row(self, row: &[u32], pool: &[u8], body: &mut [u8]) -> Turned
        ensures { turned result body.new ≡ rowing self row.now pool.now body.old }
    {
        let family = self.family;
        let used = self.used;
        let count = self.count;
        let phase = self.phase;
        if !self.sound(body.len()) {
            return self.refuse(Refusal::Limit, 0);
        }
        if ROW_WORDS < row.len() {
            return self.refuse(Refusal::Limit, 0);
        }
        if POOL_BYTES < pool.len() {
            return self.refuse(Refusal::Limit, 0);
        }
        if phase.is_open() {
            return self.refuse(Refusal::Order, 0);
        }
        if count == 4294967295 {
            return self.refuse(Refusal::Count, 0);
        }
        let answer = write_by(family, row, pool, body, used);
        self.after(answer, count + 1, Phase::Closed)
    }

    // Opens a function: one entry more, and nothing written yet.
    pub fn open(self, body: &mut [u8]) -> Turned
        ensures { turned result body.new ≡ opening self body.old }
    {
        let family = self.family;
        let used = self.used;
        let count = self.count;
        let phase = self.phase;
        if !self.sound(body.len()) {
            return self.refuse(Refusal::Limit, 0);
        }
        if phase.is_open() {
            return self.refuse(Refusal::Order, 0);
        }
        if count == 4294967295 {
            return self.refuse(Refusal::Count, 0);
        }
        if family == 7 {
            return self.after(Ok(0), count + 1, Phase::Opened(used));
        }
        self.refuse(Refusal::Kind, 0)
    }

    // The function's head: a, n and n of (N,V), which make 40, or 43 where a is 1, the count and the parameters.
    pub fn head(self, words: &[u32], pool: &[u8], body: &mut [u8]) -> Turned
        ensures { turned result body.new ≡ heading self words.now pool.now body.old }
    {
        let used = self.used;
        let count = self.count;
        let phase = self.phase;
        if !self.sound(body.len()) {
            return self.refuse(Refusal::Limit, 0);
        }
        if ROW_WORDS < words.len() {
            return self.refuse(Refusal::Limit, 0);
        }
        if POOL_BYTES < pool.len() {
            return self.refuse(Refusal::Limit, 0);
        }
        match phase {
            Phase::Opened(start) => {
                let answer = types::write_head(words, pool, body, used);
                self.after(answer, count, Phase::Headed(start))
            }
            Phase::Closed => self.refuse(Refusal::Order, 0),
            Phase::Headed(_) => self.refuse(Refusal::Order, 0),
        }
    }

    // The function's result, an O, which closes the entry.
    pub fn result(self, tag: u32, x: u32, body: &mut [u8]) -> Turned
        ensures { turned result body.new ≡ resulting self tag x body.old }
    {
        let used = self.used;
        let count = self.count;
        let phase = self.phase;
        if !self.sound(body.len()) {
            return self.refuse(Refusal::Limit, 0);
        }
        match phase {
            Phase::Headed(_) => {
                let answer = types::write_result(tag, x, body, used);
                self.after(answer, count, Phase::Closed)
            }
            Phase::Closed => self.refuse(Refusal::Order, 0),
            Phase::Opened(_) => self.refuse(Refusal::Order, 0),
        }
    }

    // Takes an open function back: used and count as they were before it was opened.
    pub fn abandon(self, body: &mut [u8]) -> Turned
        ensures { turned result body.new ≡ abandoning self body.old }
    {
        let phase = self.phase;
        if !self.sound(body.len()) {
            return self.refuse(Refusal::Limit, 0);
        }
        match phase {
            Phase::Opened(start) => self.back_to(start),
            Phase::Headed(start) => self.back_to(start),
            Phase::Closed => self.refuse(Refusal::Order, 0),
        }
    }

    // The state before an entry that starts there was opened.
    fn back_to(self, start: usize) -> Turned
        requires { 0 < self.count }
        ensures { result ≡ withdrawn self start }
    {
        let family = self.family;
        let count = self.count;
        Turned {
            section: Section {
                family,
                used: start,
                count: count - 1,
                phase: Phase::Closed,
            },
            answer: Ok(0),
        }
    }

    // The finished section: id, size of count and body, count, body.
    pub fn finish(self, body: &[u8], out: &mut [u8]) -> Answer
        ensures { left result out.new ≡ finishing self body.now out.old }
    {
        let family = self.family;
        let used = self.used;
        let count = self.count;
        let phase = self.phase;
        if !self.sound(body.len()) {
            return Err(Fault {
                why: Refusal::Limit,
                value: 0,
            });
        }
        if phase.is_open() {
            return Err(Fault {
                why: Refusal::Order,
                value: 0,
            });
        }
        frame(family, count, &body[..used], out)
    }
}

// The bytes of a section: id, size, count, body.
fn put_frame(family: u8, size: u32, count: u32, body: &[u8], out: &mut [u8])
    requires { length (framed family size count body.now) ≤ length out.old }
    ensures { out.new ≡ sets out.old 0 (framed family size count body.now) }
{
    out[0] = family;
    let counted = 1 + numbers::stored_size(numbers::put_unsigned(size, 1, out));
    let start = counted + numbers::stored_size(numbers::put_unsigned(count, counted, out));
    let _ = numbers::copy(body, start, out);
}

// The section of a family, a count and a body, at the front of out.
fn frame(family: u32, count: u32, body: &[u8], out: &mut [u8]) -> Answer
    requires { family < 256 }
    ensures { left result out.new ≡ framing family count body.now out.old }
{
    let counted = numbers::unsigned_size(count);
    if 4294967295 - counted < body.len() {
        return Err(Fault {
            why: Refusal::TooBig,
            value: 0,
        });
    }
    let size = counted + body.len();
    let all = 1 + numbers::unsigned_size(size as u32) + size;
    if out.len() < all {
        return Err(Fault {
            why: Refusal::Room,
            value: all,
        });
    }
    put_frame(family as u8, size as u32, count, body, out);
    Ok(all)
}
