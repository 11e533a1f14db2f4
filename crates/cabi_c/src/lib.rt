// The symbols of the C interface: each call is cabi's, with the same clauses. include/tbaunarith.h declares them.
#![tactic(auto)]

ghost use Rattle.std.specs.Prelude.{◌≡◌};
ghost use Rattle.items.specs.ReadType.{read_type};
ghost use Rattle.items.specs.ReadImport.{read_import};
ghost use Rattle.sections.specs.Steps.{rowing, opening, heading, resulting, abandoning};
ghost use Rattle.sheets.specs.Sheet.{sheeted};
ghost use Rattle.cabi.specs.Read.{filled, of_read};
ghost use Rattle.cabi.specs.Sheet.{written, of_sheet};
ghost use Rattle.cabi.specs.State.{given, stepped, step, finished, finishes};

use cabi::Reply;

// A whole sheet.
#[unsafe(no_mangle)]
pub extern "C" fn tb_sheet(sheet: &[u8], body: &mut [u8], out: &mut [u8]) -> Reply
    ensures { written result body.new out.new ≡ of_sheet (sheeted sheet.now body.old out.old) }
{
    cabi::tb_sheet(sheet, body, out)
}

// The type at the front of the input.
#[unsafe(no_mangle)]
pub extern "C" fn tb_read_type(input: &[u8], grade: u32, row: &mut [u32]) -> Reply
    ensures { filled result row.new ≡ of_read (read_type grade input.now row.old) }
{
    cabi::tb_read_type(input, grade, row)
}

// The import at the front of the input.
#[unsafe(no_mangle)]
pub extern "C" fn tb_read_import(input: &[u8], grade: u32, row: &mut [u32]) -> Reply
    ensures { filled result row.new ≡ of_read (read_import grade input.now row.old) }
{
    cabi::tb_read_import(input, grade, row)
}

// A row of a section.
#[unsafe(no_mangle)]
pub extern "C" fn tb_row(state: &mut [u64; 5], row: &[u32], pool: &[u8], body: &mut [u8]) -> Reply
    ensures { stepped result state.new body.new ≡ step (given state.old) (λ s. rowing s row.now pool.now body.old) state.old body.old }
{
    cabi::tb_row(state, row, pool, body)
}

// Opens a function.
#[unsafe(no_mangle)]
pub extern "C" fn tb_open(state: &mut [u64; 5], body: &mut [u8]) -> Reply
    ensures { stepped result state.new body.new ≡ step (given state.old) (λ s. opening s body.old) state.old body.old }
{
    cabi::tb_open(state, body)
}

// The function's head: its first byte and its parameters.
#[unsafe(no_mangle)]
pub extern "C" fn tb_head(
    state: &mut [u64; 5],
    words: &[u32],
    pool: &[u8],
    body: &mut [u8],
) -> Reply
    ensures { stepped result state.new body.new ≡ step (given state.old) (λ s. heading s words.now pool.now body.old) state.old body.old }
{
    cabi::tb_head(state, words, pool, body)
}

// The function's result, which closes the entry.
#[unsafe(no_mangle)]
pub extern "C" fn tb_result(state: &mut [u64; 5], tag: u32, x: u32, body: &mut [u8]) -> Reply
    ensures { stepped result state.new body.new ≡ step (given state.old) (λ s. resulting s tag x body.old) state.old body.old }
{
    cabi::tb_result(state, tag, x, body)
}

// Takes an open function back.
#[unsafe(no_mangle)]
pub extern "C" fn tb_abandon(state: &mut [u64; 5], body: &mut [u8]) -> Reply
    ensures { stepped result state.new body.new ≡ step (given state.old) (λ s. abandoning s body.old) state.old body.old }
{
    cabi::tb_abandon(state, body)
}

// The finished section at the front of out.
#[unsafe(no_mangle)]
pub extern "C" fn tb_finish(state: &[u64; 5], body: &[u8], out: &mut [u8]) -> Reply
    ensures { finished result out.new ≡ finishes (given state.now) body.now out.old }
{
    cabi::tb_finish(state, body, out)
}
