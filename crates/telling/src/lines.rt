// A line's parts: how it begins, where a byte stands in it, and how much is left of it.
ghost use Rattle.std.specs.Prelude.{◌≡◌, ◌-◌, take, drop, length};
ghost use Rattle.telling.specs.Lines.{starts, next_of};

pub fn starts_with(line: &[u8], word: &[u8]) -> bool
    ensures { result ≡ starts line.now word.now }
{
    line.starts_with(word)
}

// The first n bytes.
pub(crate) fn before(line: &[u8], n: usize) -> &[u8]
    ensures { result.now ≡ take n line.now }
{
    line.get(..n).unwrap_or(line)
}

// What follows the first n bytes.
pub(crate) fn after(line: &[u8], n: usize) -> &[u8]
    ensures { result.now ≡ drop n line.now }
{
    line.get(n..).unwrap_or(&[])
}

// Where a byte stands next from a place on, or the end; a place past the end is answered as it is.
pub fn next_of(line: &[u8], from: usize, byte: u8) -> usize
    ensures { result ≡ next_of line.now from byte }
{
    let rest = after(line, from);
    from + rest.iter().position(|b| *b == byte).unwrap_or(rest.len())
}

// How many bytes follow the first n.
pub fn size_after(line: &[u8], n: usize) -> usize
    ensures { result ≡ length line.now - n }
{
    line.len().saturating_sub(n)
}
