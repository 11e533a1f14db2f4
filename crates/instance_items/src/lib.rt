// Core instances and instances at the front of an input, read by straight code of each kind; what it does not read is refused by the walk.
#![tactic(auto)]

mod counted;
mod fields_of;
mod groups;
mod stores;

ghost use Rattle.std.specs.Prelude.{◌≡◌};
ghost use Rattle.fields.specs.Answers.{left_row};
ghost use Rattle.instance_items.specs.ReadInstance.{core_kind_of, read_core_instance, kind_of, read_instance};
ghost use Rattle.instance_items.specs.inside.Kind.{some_kind};

use fields::Read;

// The kind of the core instances that begin with a byte, if there is one.
#[tactic(auto, unfolding(crate::specs::ReadInstance::core_kind_of))]
fn core_kind_of(first: u8) -> Option<u32>
    ensures { result ≡ some_kind (core_kind_of first) }
{
    match first {
        0x00 => Some(18),
        0x01 => Some(20),
        _ => None,
    }
}

// The kind of the instances that begin with a byte, if there is one.
#[tactic(auto, unfolding(crate::specs::ReadInstance::kind_of))]
fn kind_of(first: u8) -> Option<u32>
    ensures { result ≡ some_kind (kind_of first) }
{
    match first {
        0x00 => Some(19),
        0x01 => Some(21),
        _ => None,
    }
}

// The core instance at the front of the input, filled into the row, which names its strings in the input itself (`numbers::part`).
pub fn read_core_instance(input: &[u8], grade: u32, row: &mut [u32]) -> Read
    ensures { left_row result row.new ≡ read_core_instance grade input.now row.old }
{
    let Some(kind) = core_kind_of(fields::first_of(input)) else {
        return reading::item_refusal(None, 1, grade, input);
    };
    if reading::is_within(1, grade, input) {
        if let Some(item) = counted::by_kind(kind, grade, input, row) {
            return Ok(item);
        }
    }
    reading::item_refusal(instances::core_shape_of(kind), 1, grade, input)
}

// The instance at the front of the input, filled into the row, which names its strings in the input itself (`numbers::part`).
pub fn read_instance(input: &[u8], grade: u32, row: &mut [u32]) -> Read
    ensures { left_row result row.new ≡ read_instance grade input.now row.old }
{
    let Some(kind) = kind_of(fields::first_of(input)) else {
        return reading::item_refusal(None, 1, grade, input);
    };
    if reading::is_within(1, grade, input) {
        if let Some(item) = counted::by_kind(kind, grade, input, row) {
            return Ok(item);
        }
    }
    reading::item_refusal(instances::shape_of(kind), 1, grade, input)
}
