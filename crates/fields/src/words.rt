// Small readings of a row and an input, which take every one.
ghost use Rattle.std.specs.Prelude.{◌≡◌, get_or};
ghost use Rattle.fields.specs.Words.{indexed};

// The kind of a row, 0 where it is empty.
pub fn kind_of(row: &[u32]) -> u32
    ensures { result ≡ get_or row.now 0 0 }
{
    if 0 < row.len() {
        return row[0];
    }
    0
}

// The first byte of an input, 0 where it is empty.
pub fn first_of(input: &[u8]) -> u8
    ensures { result ≡ get_or input.now 0 0 }
{
    if 0 < input.len() {
        return input[0];
    }
    0
}

// Whether the option k has an index.
pub fn is_indexed(k: u32) -> bool
    ensures { result ≡ indexed k }
{
    if k == 3 {
        return true;
    }
    if k == 4 {
        return true;
    }
    if k == 5 {
        return true;
    }
    if k == 7 {
        return true;
    }
    k == 8
}
