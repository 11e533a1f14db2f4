// What the programs say and are told: text, numbers and refusals printed, standard input read, lines taken apart, and what the test
// programs lend. Every call takes every input. No contract can say what is printed, so a call that prints answers what it was handed: of
// a text the number of its bytes, else the number. Nor can one say what is read: `read_full` answers how many bytes it put.
#![tactic(auto)]

mod input;
mod lines;
mod numerals;
mod refusals;
mod text;
mod trying;

pub use input::read_full;
pub use lines::{next_of, size_after, starts_with};
pub use numerals::{number_at, word, word_of, words_of};
pub use refusals::{say_byte, say_meaning, say_name, say_refusal};
pub use text::{say, say_bytes, say_count, say_field, say_line, say_number};
pub use trying::{end_line, fill, is_kept, pattern};
