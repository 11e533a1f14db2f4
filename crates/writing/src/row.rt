// A row whose first word is its kind.
ghost use Rattle.std.specs.Prelude.{◌≡◌};
ghost use Rattle.writing.specs.Row.{measured_row};

use crate::shape::measure_shape;
use fields::{Answer, Fault, POOL_BYTES, ROW_WORDS, Refusal, Shape};

// The size of a row whose kind has that shape, or why it is refused, room apart.
pub fn measure_row(found: Option<Shape>, row: &[u32], pool: &[u8]) -> Answer
    ensures { result ≡ measured_row found row.now pool.now }
{
    if ROW_WORDS < row.len() {
        return Err(Fault {
            why: Refusal::Limit,
            value: 0,
        });
    }
    if POOL_BYTES < pool.len() {
        return Err(Fault {
            why: Refusal::Limit,
            value: 0,
        });
    }
    if row.len() == 0 {
        return Err(Fault {
            why: Refusal::Row,
            value: 0,
        });
    }
    match found {
        Some(shape) => measure_shape(shape, row, 1, pool),
        None => Err(Fault {
            why: Refusal::Kind,
            value: 0,
        }),
    }
}
