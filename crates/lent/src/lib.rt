// The steps of a section with its state lent: each is the step by value over the state that stands there, and stores the state that
// the step hands back. So a refusal leaves the state as it was.
#![tactic(auto)]

ghost use Rattle.std.specs.Prelude.{◌≡◌};
ghost use Rattle.fields.specs.Answers.{left};
ghost use Rattle.sections.specs.Steps.{turned, gives, rowing, opening, heading, resulting, abandoning};
ghost use Rattle.sections.specs.Finish.{finishing};

use fields::Answer;
use sections::Section;

// A row: its bytes, and one entry more.
pub fn row(section: &mut Section, row: &[u32], pool: &[u8], body: &mut [u8]) -> Answer
    ensures { turned (gives section.new result) body.new
        ≡ rowing section.old row.now pool.now body.old }
{
    let t = Section::row(*section, row, pool, body);
    *section = t.section;
    t.answer
}

// Opens a function: one entry more, and nothing written yet.
pub fn open(section: &mut Section, body: &mut [u8]) -> Answer
    ensures { turned (gives section.new result) body.new ≡ opening section.old body.old }
{
    let t = Section::open(*section, body);
    *section = t.section;
    t.answer
}

// The function's head: a, n and n of (N,V), which make 40, or 43 where a is 1, the count and the parameters.
pub fn head(section: &mut Section, words: &[u32], pool: &[u8], body: &mut [u8]) -> Answer
    ensures { turned (gives section.new result) body.new
        ≡ heading section.old words.now pool.now body.old }
{
    let t = Section::head(*section, words, pool, body);
    *section = t.section;
    t.answer
}

// The function's result, an O, which closes the entry.
pub fn result(section: &mut Section, tag: u32, x: u32, body: &mut [u8]) -> Answer
    ensures { turned (gives section.new result) body.new
        ≡ resulting section.old tag x body.old }
{
    let t = Section::result(*section, tag, x, body);
    *section = t.section;
    t.answer
}

// Takes an open function back: used and count as they were before it was opened.
pub fn abandon(section: &mut Section, body: &mut [u8]) -> Answer
    ensures { turned (gives section.new result) body.new ≡ abandoning section.old body.old }
{
    let t = Section::abandon(*section, body);
    *section = t.section;
    t.answer
}

// The finished section: id, size of count and body, count, body.
pub fn finish(section: &Section, body: &[u8], out: &mut [u8]) -> Answer
    ensures { left result out.new ≡ finishing section.now body.now out.old }
{
    Section::finish(*section, body, out)
}
