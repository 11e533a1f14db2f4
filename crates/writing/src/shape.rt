// A row of a shape: its size.
ghost use Rattle.std.specs.Prelude.{◌≡◌, ◌≤◌, ◌+◌, length};
ghost use Rattle.fields.specs.Shape.{row_width};
ghost use Rattle.writing.specs.Write.{judged, sized, measured};
ghost use Rattle.fields.specs.Limits.{row_words, pool_bytes};

use crate::judge::{wide_of, word_at};
use crate::walk::judge_shape;
use fields::{Answer, Fault, POOL_BYTES, ROW_WORDS, Refusal, Shape};

fn width_of(s: Shape, row: &[u32], start: usize) -> usize
    requires { start ≤ row_words }
    ensures { result ≡ row_width s row.now start }
{
    let lead = s.lead;
    let zero = s.zero;
    let first = s.first;
    let second = s.second;
    let last = s.last;
    let at = start + wide_of(lead) + wide_of(zero) + wide_of(first) + wide_of(second);
    if s.counted {
        let one = s.one;
        let two = s.two;
        let n = word_at(row, at) as usize;
        return at + 1 + n * (wide_of(one) + wide_of(two)) + wide_of(last);
    }
    at + wide_of(last)
}

// The size of a row's fields from `start` on, whose words are as many as they need.
#[tactic(auto, unfolding(crate::specs::Write::sized))]
fn measure_fields(s: Shape, row: &[u32], start: usize, pool: &[u8]) -> Answer
    requires pool_len_bound { (length pool.now ≤ pool_bytes) × (length row.now ≤ row_words) }
    requires start_value { row_width s row.now start ≡ length row.now }
    ensures { result ≡ sized (judged s pool.now row.now start) }
{
    Ok(judge_shape(s, pool, row, start)?.made)
}

// The size of a row's fields from `start` on, or why the row is refused, room apart.
pub fn measure_shape(s: Shape, row: &[u32], start: usize, pool: &[u8]) -> Answer
    ensures { result ≡ measured s row.now start pool.now }
{
    if ROW_WORDS < row.len() {
        return Err(Fault {
            why: Refusal::Limit,
            value: 0,
        });
    }
    if POOL_BYTES < pool.len() {
        return Err(Fault {
            why: Refusal::Limit,
            value: 0,
        });
    }
    if row.len() < start {
        return Err(Fault {
            why: Refusal::Row,
            value: 0,
        });
    }
    if width_of(s, row, start) == row.len() {
        return measure_fields(s, row, start, pool);
    }
    Err(Fault {
        why: Refusal::Row,
        value: 0,
    })
}
