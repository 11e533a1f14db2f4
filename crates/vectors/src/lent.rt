// What is lent to be written: filled before a case is run, and looked at afterwards.
use telling::{fill, pattern};

// Whether a buffer begins with what was to be made, and is as it was filled after that.
pub fn is_made(buffer: &[u8], made: &[u8], turned: bool) -> bool {
    buffer.starts_with(made)
        && buffer
            .iter()
            .enumerate()
            .skip(made.len())
            .all(|(i, byte)| *byte == pattern(i, turned))
}

// Fills a row by a pattern of its bytes.
pub fn fill_row(row: &mut [u32], bytes: &mut [u8], turned: bool) {
    fill(bytes, turned);
    for (word, part) in row.iter_mut().zip(bytes.chunks_exact(4)) {
        *word = u32::from_be_bytes([part[0], part[1], part[2], part[3]]);
    }
}

// Whether a row's bytes are as they have to be. The other pattern goes first, so that a byte that is not the row's is seen.
pub fn is_row_made(row: &[u32], bytes: &mut [u8], made: &[u8], turned: bool) -> bool {
    fill(bytes, !turned);
    for (part, word) in bytes.chunks_exact_mut(4).zip(row) {
        part.copy_from_slice(&word.to_be_bytes());
    }
    is_made(bytes, made, turned)
}
