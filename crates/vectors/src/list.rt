// The lists on standard input. Every number has 4 bytes, big-endian.

// The bytes of a case's numbers.
const HEAD: usize = 40;

// What is answered, in the list's numbers.
#[derive(Clone, Copy, PartialEq, Eq)]
pub struct Told {
    // 0, or the refusal's number in document 01.
    pub number: usize,
    pub value: usize,
    // The words of an item read, the byte of a name after TEXT, else 0.
    pub also: usize,
}

#[derive(Clone, Copy)]
pub enum Family {
    Types,
    Imports,
}

// What a case runs: a sheet, or the reading of one item.
#[derive(Clone, Copy)]
pub enum Sort {
    Sheet,
    Item(Family),
}

// The numbers of a case, in the list's order. A row's words count 4 bytes each.
#[derive(Clone, Copy)]
pub struct Case {
    pub sort: Sort,
    // The bytes of the input.
    pub input: usize,
    pub grade: u32,
    pub body_room: usize,
    // The room of the output, or of the row.
    pub room: usize,
    pub told: Told,
    // The bytes of the section, or of the words of the row.
    pub made: usize,
    // The bytes of the body, which end the section.
    pub body: usize,
}

// How many cases a list has, and how many bytes its title.
#[derive(Clone, Copy)]
pub struct Head {
    pub cases: usize,
    pub title: usize,
}

// The input is no list, or ends within one.
#[derive(Clone, Copy)]
pub struct Broken;

impl TryFrom<u32> for Sort {
    type Error = Broken;

    fn try_from(number: u32) -> Result<Sort, Broken> {
        match number {
            0 => Ok(Sort::Sheet),
            1 => Ok(Sort::Item(Family::Types)),
            2 => Ok(Sort::Item(Family::Imports)),
            _ => Err(Broken),
        }
    }
}

impl TryFrom<[u32; 10]> for Case {
    type Error = Broken;

    fn try_from(numbers: [u32; 10]) -> Result<Case, Broken> {
        let [
            sort,
            input,
            grade,
            body_room,
            room,
            number,
            value,
            also,
            made,
            body,
        ] = numbers;
        Ok(Case {
            sort: Sort::try_from(sort)?,
            input: input as usize,
            grade,
            body_room: body_room as usize,
            room: room as usize,
            told: Told {
                number: number as usize,
                value: value as usize,
                also: also as usize,
            },
            made: made as usize,
            body: body as usize,
        })
    }
}

// Reads so many bytes to the buffer's front.
fn read_to(rt: &HostRuntime, buffer: &mut [u8], size: usize) -> Result<(), Broken> {
    if size <= buffer.len() && telling::read_full(rt, &mut buffer[..size]) == size {
        Ok(())
    } else {
        Err(Broken)
    }
}

// The numbers that a head's bytes are, in the list's order.
fn numbers_of<const N: usize>(head: &[u8]) -> [u32; N] {
    let mut numbers = [0u32; N];
    let (fours, _) = head.as_chunks::<4>();
    for (number, bytes) in numbers.iter_mut().zip(fours) {
        *number = u32::from_be_bytes(*bytes);
    }
    numbers
}

// The next list, whose title is read to the buffer's front; none where the input has ended.
pub fn next_list(rt: &HostRuntime, title: &mut [u8]) -> Result<Option<Head>, Broken> {
    let mut head = [0u8; 8];
    match telling::read_full(rt, &mut head) {
        0 => Ok(None),
        8 => {
            let [cases, size]: [u32; 2] = numbers_of(&head);
            read_to(rt, title, size as usize)?;
            Ok(Some(Head {
                cases: cases as usize,
                title: size as usize,
            }))
        }
        _ => Err(Broken),
    }
}

// The next case; its input and what is made of it are read into the buffers. All its numbers are read before the first is judged.
pub fn next_case(rt: &HostRuntime, input: &mut [u8], made: &mut [u8]) -> Result<Case, Broken> {
    let mut head = [0u8; HEAD];
    read_to(rt, &mut head, HEAD)?;
    let case = Case::try_from(numbers_of(&head))?;
    read_to(rt, input, case.input)?;
    read_to(rt, made, case.made)?;
    Ok(case)
}
