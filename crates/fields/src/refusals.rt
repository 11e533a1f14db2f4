// Document 01's numbers of each refusal.
ghost use Rattle.std.specs.Prelude.{◌≡◌};
ghost use Rattle.fields.specs.Answers.{number_of_refusal, offset_of, byte_at, byte_of_refusal};

use crate::{Offset, Refusal};

// The number of a refusal; 0 is no refusal's.
pub fn number_of(why: Refusal) -> u32
    ensures { result ≡ number_of_refusal why }
{
    match why {
        Refusal::Limit => 1,
        Refusal::Kind => 2,
        Refusal::Row => 3,
        Refusal::Tag => 4,
        Refusal::Range => 5,
        Refusal::Text(_) => 6,
        Refusal::TooBig => 7,
        Refusal::Room => 8,
        Refusal::Order => 9,
        Refusal::Count => 10,
        Refusal::Cut => 11,
        Refusal::Code => 12,
        Refusal::Number => 13,
        Refusal::Newer => 14,
        Refusal::Sheet => 15,
        Refusal::Frame => 16,
    }
}

// A byte's offset by its halves.
pub fn offset_of(byte: u32) -> Offset
    ensures { result ≡ offset_of byte }
{
    Offset {
        high: (byte / 65536) as u16,
        low: (byte % 65536) as u16,
    }
}

fn byte_at(offset: Offset) -> u32
    ensures { result ≡ byte_at offset }
{
    let high = offset.high as u32;
    let low = offset.low as u32;
    high * 65536 + low
}

// The byte at which a name stops, of TEXT; 0 of every other refusal.
pub fn byte_of(why: Refusal) -> u32
    ensures { result ≡ byte_of_refusal why }
{
    match why {
        Refusal::Limit => 0,
        Refusal::Kind => 0,
        Refusal::Row => 0,
        Refusal::Tag => 0,
        Refusal::Range => 0,
        Refusal::Text(offset) => byte_at(offset),
        Refusal::TooBig => 0,
        Refusal::Room => 0,
        Refusal::Order => 0,
        Refusal::Count => 0,
        Refusal::Cut => 0,
        Refusal::Code => 0,
        Refusal::Number => 0,
        Refusal::Newer => 0,
        Refusal::Sheet => 0,
        Refusal::Frame => 0,
    }
}
