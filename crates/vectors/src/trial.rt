// A case run on the product, and its answer compared with the list's.
use crate::lent;
use crate::list::{Case, Family, Sort, Told};
use fields::{Answer, Extent, Fault, Read};

// What was answered, and whether that and all that was lent are as the case says.
#[derive(Clone, Copy)]
pub struct Outcome {
    pub told: Told,
    pub right: bool,
}

// A case that passes the program's own buffers is not run.
const NOT_RUN: Outcome = Outcome {
    told: Told {
        number: 16,
        value: 0,
        also: 0,
    },
    right: false,
};

fn refused(fault: Fault) -> Told {
    let Fault { why, value } = fault;
    Told {
        number: fields::number_of(why) as usize,
        value,
        also: fields::byte_of(why) as usize,
    }
}

fn told_of(answer: Answer) -> Told {
    match answer {
        Ok(size) => Told {
            number: 0,
            value: size,
            also: 0,
        },
        Err(fault) => refused(fault),
    }
}

fn told_of_reading(answer: Read) -> Told {
    match answer {
        Ok(Extent { words, took }) => Told {
            number: 0,
            value: took,
            also: words,
        },
        Err(fault) => refused(fault),
    }
}

// The last `size` bytes of the section, which are its body.
fn body_of(section: &[u8], size: usize) -> &[u8] {
    &section[section.len().saturating_sub(size)..]
}

fn try_sheet(
    case: Case,
    sheet: &[u8],
    section: &[u8],
    body: &mut [u8],
    out: &mut [u8],
    turned: bool,
) -> Outcome {
    telling::fill(body, turned);
    telling::fill(out, turned);
    let told = told_of(sheets::sheet(sheet, body, out));
    Outcome {
        told,
        right: told == case.told
            && lent::is_made(out, section, turned)
            && lent::is_made(body, body_of(section, case.body), turned),
    }
}

// The bytes have the row's size: they fill it and hold it afterwards.
fn try_reading(
    case: Case,
    family: Family,
    input: &[u8],
    made: &[u8],
    bytes: &mut [u8],
    row: &mut [u32],
    turned: bool,
) -> Outcome {
    lent::fill_row(row, bytes, turned);
    let told = told_of_reading(match family {
        Family::Types => items::read_type(input, case.grade, row),
        Family::Imports => items::read_import(input, case.grade, row),
    });
    Outcome {
        told,
        right: told == case.told && lent::is_row_made(row, bytes, made, turned),
    }
}

// Runs a case over one pattern.
fn try_once(
    case: Case,
    input: &[u8],
    made: &[u8],
    body: &mut [u8],
    out: &mut [u8],
    row: &mut [u32],
    turned: bool,
) -> Outcome {
    match case.sort {
        Sort::Sheet => try_sheet(case, input, made, body, out, turned),
        Sort::Item(family) => try_reading(case, family, input, made, out, row, turned),
    }
}

// Runs a case over both patterns; the second only where the first went well.
fn try_twice(
    case: Case,
    input: &[u8],
    made: &[u8],
    body: &mut [u8],
    out: &mut [u8],
    row: &mut [u32],
) -> Outcome {
    let first = try_once(case, input, made, body, out, row, false);
    if first.right {
        try_once(case, input, made, body, out, row, true)
    } else {
        first
    }
}

// Lends the parts of the buffers that the case names.
pub fn try_case(
    case: Case,
    input: &[u8],
    made: &[u8],
    body: &mut [u8],
    out: &mut [u8],
    row: &mut [u32],
) -> Outcome {
    let words = case.room / 4;
    if body.len() < case.body_room || out.len() < case.room || row.len() < words {
        return NOT_RUN;
    }
    try_twice(
        case,
        numbers::part(input, 0, case.input),
        numbers::part(made, 0, case.made),
        &mut body[..case.body_room],
        &mut out[..case.room],
        &mut row[..words],
    )
}
