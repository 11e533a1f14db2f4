// The numbers of a line, in decimal, one after each space; and the words of a row.
ghost use Rattle.std.specs.Prelude.{◌≡◌, ◌%◌, ◌^◌, slice_index, slice_set};
ghost use Rattle.telling.specs.Numerals.{with_digit, number_from, numbers_in, words_in, put, put_all};

// The word at a place; 0 where there is none.
pub fn word(words: &[u32], i: usize) -> u32
    ensures { result ≡ slice_index words.now i }
{
    words.get(i).copied().unwrap_or(0)
}

// The last 32 bits of a number.
pub fn word_of(n: usize) -> u32
    ensures { result ≡ n % 2 ^ 32 }
{
    (n % 4294967296) as u32
}

// Ten times a number, and a digit.
fn with_digit(n: usize, digit: u8) -> usize
    ensures { result ≡ with_digit n digit }
{
    n.wrapping_mul(10).wrapping_add(usize::from(digit % 16))
}

// The number whose digits stand at a part's front, up to a space.
fn number_from(part: &[u8]) -> usize
    ensures { result ≡ number_from 0 part.now }
{
    let mut number = 0;
    for digit in part {
        if *digit == b' ' {
            break;
        }
        number = with_digit(number, *digit);
    }
    number
}

// The number at a place among those of a line, from 0 on; 0 where there is none.
pub fn number_at(line: &[u8], place: usize) -> usize
    ensures { result ≡ slice_index (numbers_in line.now) place }
{
    line.split(|b| *b == b' ')
        .skip(1)
        .nth(place)
        .map_or(0, number_from)
}

// A word at a place of a row, if the row has that place.
fn put_word(row: &mut [u32], i: usize, word: u32)
    ensures { row.new ≡ slice_set row.old i word }
{
    // Not by `get_mut`, which does not say that the row stays where it answers `None`.
    if i < row.len() {
        row[i] = word;
    }
}

// The numbers of a line as words, put into a row as far as it has room: how many the line has.
pub fn words_of(line: &[u8], row: &mut [u32]) -> usize
    ensures { put result row.new ≡ put_all (words_in line.now) row.old }
{
    let mut words = 0;
    for part in line.split(|b| *b == b' ').skip(1) {
        put_word(row, words, word_of(number_from(part)));
        words += 1;
    }
    words
}
