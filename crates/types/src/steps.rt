// The parts of an open function, each written by a step: the head, which is the first byte and the parameters, and the result.
ghost use Rattle.std.specs.Prelude.{IfSome, Ok, ◌<◌, ◌≤◌, ◌+◌, ◌*◌, ◌∷◌, [], ◌≡◌, length, drop};
ghost use Rattle.std.proofs.lemmas.List.Edits.{sets};
ghost use Rattle.fields.specs.Words.{word};
ghost use Rattle.fields.specs.Shape.{repeated};
ghost use Rattle.fields.specs.Answers.{left};
ghost use Rattle.writing.specs.Write.{measured, write_shape};
ghost use Rattle.types.specs.Write.{head_shape, result_shape};
ghost use Rattle.types.specs.inside.Function.{head_bytes};
ghost use Rattle.writing.specs.inside.Rows.{Rights};

use crate::counted::{fields_size, put_fields};
use crate::function::async_byte;
use crate::optional::{optional_size, put_result};
use fields::{Answer, Fault, Field, POOL_BYTES, ROW_WORDS, Refusal, Shape};
use numbers::{stored_size, unsigned_size};

fn head_shape() -> Shape
    ensures { result ≡ head_shape }
{
    Shape {
        lead: Field::Nothing,
        zero: Field::Nothing,
        first: Field::Async,
        second: Field::Nothing,
        counted: true,
        one: Field::Name,
        two: Field::Value,
        last: Field::Nothing,
    }
}

// How many bytes a head has, if all of it is seen to be right.
fn head_size(words: &[u32], pool: &[u8]) -> Option<usize>
    ensures { IfSome result (λ r. measured head_shape words.now 0 pool.now ≡ Ok r) }
{
    if POOL_BYTES < pool.len() {
        return None;
    }
    if ROW_WORDS < words.len() {
        return None;
    }
    if words.len() < 2 {
        return None;
    }
    if 1 < words[0] {
        return None;
    }
    let n = words[1] as usize;
    if words.len() != 2 + n * 4 {
        return None;
    }
    fields_size(words, 2, n, pool, 1 + unsigned_size(words[1]))
}

fn put_head(words: &[u32], pool: &[u8], out: &mut [u8], at: usize)
    requires words_len { length words.now ≡ 2 + word words.now 1 * 4 }
    requires rights { Rights pool.now (repeated (word words.now 1) (Field.Name ∷ Field.Value ∷ [])) (drop 2 words.now) }
    requires words_in_bounds { at + length (head_bytes pool.now words.now) ≤ length out.old }
    ensures { out.new ≡ sets out.old at (head_bytes pool.now words.now) }
{
    out[at] = async_byte(words[0]);
    let n = words[1] as usize;
    let next = at + 1 + stored_size(numbers::put_unsigned(words[1], at + 1, out));
    put_fields(words, 2, n, pool, out, next);
}

fn measure_head(words: &[u32], pool: &[u8]) -> Answer
    ensures { result ≡ measured head_shape words.now 0 pool.now }
{
    if let Some(size) = head_size(words, pool) {
        return Ok(size);
    }
    writing::measure_shape(head_shape(), words, 0, pool)
}

// The head: the first byte, 40 or 43 where a is 1, then a count and as many parameters.
pub fn write_head(words: &[u32], pool: &[u8], out: &mut [u8], at: usize) -> Answer
    ensures { left result out.new ≡ write_shape head_shape words.now 0 pool.now out.old at }
{
    let size = measure_head(words, pool)?;
    if writing::fits(size, at, out.len()) {
        put_head(words, pool, out, at);
        return Ok(size);
    }
    Err(Fault {
        why: Refusal::Room,
        value: size,
    })
}

fn result_shape() -> Shape
    ensures { result ≡ result_shape }
{
    Shape {
        lead: Field::Nothing,
        zero: Field::Nothing,
        first: Field::Result,
        second: Field::Nothing,
        counted: false,
        one: Field::Nothing,
        two: Field::Nothing,
        last: Field::Nothing,
    }
}

fn measure_result(tag: u32, x: u32) -> Answer
    ensures { result ≡ measured result_shape (tag ∷ x ∷ []) 0 [] }
{
    if let Some(size) = optional_size(2, tag, x) {
        return Ok(size);
    }
    let words = [tag, x];
    let pool = [0u8; 1];
    writing::measure_shape(result_shape(), &words, 0, &pool[..0])
}

// The result, an O.
pub fn write_result(tag: u32, x: u32, out: &mut [u8], at: usize) -> Answer
    ensures { left result out.new ≡ write_shape result_shape (tag ∷ x ∷ []) 0 [] out.old at }
{
    let size = measure_result(tag, x)?;
    if writing::fits(size, at, out.len()) {
        put_result(tag, x, out, at);
        return Ok(size);
    }
    Err(Fault {
        why: Refusal::Room,
        value: size,
    })
}
