// Items at the front of an input: types and imports, read by straight code of each kind; what it does not read is refused by the walk.
#![tactic(auto)]

mod first;
mod groups;
mod import;
mod item;
mod resource;

ghost use Rattle.std.specs.Prelude.{option_map, ◌≡◌};
ghost use Rattle.fields.specs.Answers.{left_row};
ghost use Rattle.items.specs.ReadExtern.{value_of_extern, read_extern};
ghost use Rattle.items.specs.ReadImport.{read_import};
ghost use Rattle.items.specs.ReadType.{kind_of, lead_grade, read_type};

use fields::{Read, Site};
pub use import::{Extern, Slot};

// The kind of the items that begin with a byte; 17 is no type's.
fn kind_of(first: u8) -> u32
    ensures { result ≡ kind_of first }
{
    if 0x73 <= first {
        if first < 0x80 {
            return 0;
        }
        return 17;
    }
    match first {
        0x64 => 0,
        0x72 => 1,
        0x71 => 2,
        0x70 => 3,
        0x63 => 4,
        0x67 => 5,
        0x6f => 6,
        0x6e => 7,
        0x6d => 8,
        0x6b => 9,
        0x6a => 10,
        0x69 => 11,
        0x68 => 12,
        0x65 => 13,
        0x66 => 14,
        0x40 => 15,
        0x43 => 15,
        0x3f => 16,
        _ => 17,
    }
}

// The grade of a kind's lead.
fn lead_grade(kind: u32) -> u32
    ensures { result ≡ lead_grade kind }
{
    match kind {
        // map
        4 => fields::grade_of(Site::TypeLead, 0x63),
        // list of fixed length
        5 => fields::grade_of(Site::TypeLead, 0x67),
        // future
        13 => fields::grade_of(Site::TypeLead, 0x65),
        // stream
        14 => fields::grade_of(Site::TypeLead, 0x66),
        _ => 1,
    }
}

// The type at the front of the input, filled into the row, which names its strings in the input itself (`numbers::part`).
pub fn read_type(input: &[u8], grade: u32, row: &mut [u32]) -> Read
    ensures { left_row result row.new ≡ read_type grade input.now row.old }
{
    let byte = fields::first_of(input);
    let kind = kind_of(byte);
    let lead = lead_grade(kind);
    if reading::is_within(lead, grade, input) {
        if let Some(item) = first::by_first(byte, grade, input, row) {
            return Ok(item);
        }
    }
    reading::item_refusal(types::shape_of(kind), lead, grade, input)
}

// The import at the front of the input, filled into the row, which names its strings in the input itself (`numbers::part`).
pub fn read_import(input: &[u8], grade: u32, row: &mut [u32]) -> Read
    ensures { left_row result row.new ≡ read_import grade input.now row.old }
{
    if reading::is_within(1, grade, input) {
        if let Some(item) = import::read_straight(grade, input, row) {
            return Ok(item);
        }
    }
    reading::item_refusal(imports::shape_of(17), 1, grade, input)
}

// The extern name at the front of an input within the limits, by value, if it is right; its starts are counted from the front.
pub fn extern_name(grade: u32, input: &[u8]) -> Option<Extern>
    ensures { option_map value_of_extern result ≡ read_extern grade input.now }
{
    if !reading::is_within(1, grade, input) {
        return None;
    }
    import::extern_name(grade, input)
}
