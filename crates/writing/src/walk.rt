// The walk over the fields of a shape, which judges them.
ghost use Rattle.std.specs.Prelude.{◌≡◌, ◌∷◌, [], ◌<◌, ◌≤◌, ◌+◌, ◌*◌, ◌^◌, length, get_or, drop};
ghost use Rattle.writing.specs.Judge.{judge};
ghost use Rattle.fields.specs.inside.Run.{along, onward, after, Under};
ghost use Rattle.fields.specs.Shape.{group, repeated, widths, row_width};
ghost use Rattle.fields.specs.inside.Stages.{counted_fields};
ghost use Rattle.writing.specs.Write.{judged};
ghost use Rattle.fields.specs.Limits.{row_words, pool_bytes};

use crate::judge::{flaw_of, wide_of, word_at};
use crate::size::size_of;
use fields::{Fault, Field, Shape, Span};

// The row from `at` on, nothing past its end.
fn rest_of(row: &[u32], at: usize) -> &[u32]
    ensures { result.now ≡ drop at row.now }
{
    if at <= row.len() {
        &row[at..]
    } else {
        &row[..0]
    }
}

// One field at `at`, with `made` bytes before it.
fn judge_one(f: Field, pool: &[u8], row: &[u32], at: usize, made: usize) -> Result<Span, Fault>
    requires pool_len_bound { length pool.now ≤ pool_bytes }
    requires at_bound { (at ≤ 2 ^ 41) × (made ≤ 2 ^ 61) }
    ensures { result ≡ along (judge pool.now) (f ∷ []) (drop at row.now) at made }
{
    let ws = rest_of(row, at);
    let next = at + wide_of(f);
    let size = made + size_of(f, ws);
    match flaw_of(f, pool, ws) {
        Ok(()) => Ok(Span {
            took: next,
            made: size,
        }),
        Err(Fault { why, value: word }) => {
            let place = at + word;
            Err(Fault { why, value: place })
        }
    }
}

// One field more, after what was judged before it.
fn judge_next(so: Result<Span, Fault>, f: Field, pool: &[u8], row: &[u32]) -> Result<Span, Fault>
    requires pool_len_bound { length pool.now ≤ pool_bytes }
    requires under { Under so (2 ^ 41) (2 ^ 61) }
    ensures { result ≡ after so (λ at made. along (judge pool.now) (f ∷ []) (drop at row.now) at made) }
{
    let Span { took: at, made } = so?;
    judge_one(f, pool, row, at, made)
}

// Two fields more, after what was judged before them.
fn judge_two(
    so: Result<Span, Fault>,
    a: Field,
    b: Field,
    pool: &[u8],
    row: &[u32],
) -> Result<Span, Fault>
    requires pool_len_bound { length pool.now ≤ pool_bytes }
    requires under { Under so (2 ^ 40) (2 ^ 60) }
    ensures { result ≡ after so (λ at made. along (judge pool.now) (a ∷ b ∷ []) (drop at row.now) at made) }
{
    let one = judge_next(so, a, pool, row);
    judge_next(one, b, pool, row)
}

// n groups from `at` on, with `made` bytes before them.
fn judge_groups(
    s: Shape,
    n: usize,
    pool: &[u8],
    row: &[u32],
    from: usize,
    base: usize,
) -> Result<Span, Fault>
    requires pool_len_bound { length pool.now ≤ pool_bytes }
    requires n_bound { (n < 2 ^ 32) × (n * widths (group s) ≤ row_words) }
    requires from_bound { (from ≤ 2 ^ 20) × (base ≤ 2 ^ 40) }
    ensures { result ≡ along (judge pool.now) (repeated n (group s)) (drop from row.now) from base }
{
    let one = s.one;
    let two = s.two;
    let mut at = from;
    let mut made = base;
    for i in 0..n {
        let first = judge_one(one, pool, row, at, made)?;
        let second = judge_one(two, pool, row, first.took, first.made)?;
        at = second.took;
        made = second.made;
    }
    Ok(Span { took: at, made })
}

// The count at `at`, as many groups, and the closing.
fn judge_counted(s: Shape, pool: &[u8], row: &[u32], at: usize, made: usize) -> Result<Span, Fault>
    requires pool_len_bound { length pool.now ≤ pool_bytes }
    requires s_bound { get_or row.now at 0 * widths (group s) ≤ row_words }
    requires at_bound { (at < 2 ^ 20) × (made ≤ 2 ^ 39) }
    ensures { result ≡ onward (judge pool.now) row.now (counted_fields s (get_or row.now at 0)) at made }
{
    let count = word_at(row, at);
    let last = s.last;
    let first = at + 1;
    let base = made + numbers::unsigned_size(count);
    let groups = judge_groups(s, count as usize, pool, row, first, base);
    judge_next(groups, last, pool, row)
}

// The fields of a row from `start` on.
pub fn judge_shape(s: Shape, pool: &[u8], row: &[u32], start: usize) -> Result<Span, Fault>
    requires pool_len_bound { (length pool.now ≤ pool_bytes) × (length row.now ≤ row_words) }
    requires start_value { row_width s row.now start ≡ length row.now }
    ensures { result ≡ judged s pool.now row.now start }
{
    let lead = s.lead;
    let zero = s.zero;
    let first = s.first;
    let second = s.second;
    let last = s.last;
    let leads = judge_two(
        Ok(Span {
            took: start,
            made: 0,
        }),
        lead,
        zero,
        pool,
        row,
    );
    let opening = judge_two(leads, first, second, pool, row);
    if s.counted {
        let Span { took: at, made } = opening?;
        return judge_counted(s, pool, row, at, made);
    }
    judge_next(opening, last, pool, row)
}
