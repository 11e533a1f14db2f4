// The words of the trade: the fields of a row, the shape of a kind, refusals and answers.
#![tactic(auto)]

mod grades;
mod refusals;
mod shapes;
mod words;

pub use grades::grade_of;
pub use refusals::{byte_of, number_of, offset_of};
pub use shapes::{many_of, two_of};
pub use words::{first_of, is_indexed, kind_of};

// Numbers on the wall: the words of a row, and the bytes of a pool, of a reader's input and of a sheet, at most.
pub const ROW_WORDS: usize = 16384;

pub const POOL_BYTES: usize = 65536;

pub const INPUT_BYTES: usize = 0x4000_0000;

pub const SHEET_BYTES: usize = 65536;

// One field of a row, with its words and its bytes.
#[derive(Clone, Copy)]
pub enum Field {
    // No word and no byte.
    Nothing,
    // A byte that stands for no word.
    Fixed(u8),
    // A word p below 14: its byte.
    Primitive,
    // V: a primitive's byte, or a type index as an s33.
    Value,
    // O: 00 where absent, else 01 and the V.
    Optional,
    // O, and then 00.
    OptionalThenZero,
    // O: 01 00 where absent, else 00 and the V.
    Result,
    // N: the length and the bytes.
    Name,
    // A number as a u32.
    Index,
    // A word below 2: 40 or 43.
    Async,
    // A word below 2: 00 or 01.
    Flag,
    // A word below 2: 7f or 7e.
    Rep,
    // Present and index: 00, or 01 and the index.
    OptionalIndex,
    // A canonical option: its byte k, and the index where k has one.
    Choice,
    // A name and three of (present, N).
    ExternName,
    // What is imported: three words.
    Reference,
    // An argument of a core instantiation: 12 and the index of an instance.
    Argument,
    // A core sort, a word below 5, and an index.
    CoreSortIndex,
    // A sort, a word below 6, and an index: 00 11 where the sort is 0, else its byte.
    SortIndex,
}

// The fields of a kind in order: lead, zero, first and second; where counted, a number n and n times one and two; then last.
#[derive(Clone, Copy)]
pub struct Shape {
    pub lead: Field,
    pub zero: Field,
    pub first: Field,
    pub second: Field,
    pub counted: bool,
    pub one: Field,
    pub two: Field,
    pub last: Field,
}

// The offset of a byte in a name, in two halves: a refusal with it has room beside its place in two machine words.
#[derive(Clone, Copy)]
pub struct Offset {
    pub high: u16,
    pub low: u16,
}

// Where a byte stands that can mark a form of a grade.
#[derive(Clone, Copy)]
pub enum Site {
    // A primitive type.
    Primitive,
    // The first byte of a type.
    TypeLead,
    // The first byte of an extern name.
    NameLead,
    // The first byte of a canonical.
    CanonLead,
    // An option of a canonical.
    CanonOption,
}

// Why something is refused, by document 01's names and in the order of its numbers, from 1 on.
#[derive(Clone, Copy)]
pub enum Refusal {
    // A number on the wall is passed, or a state is none.
    Limit,
    // No such kind, or another section's family.
    Kind,
    // The row is empty, or not as long as kind and count need.
    Row,
    // A tag, flag, primitive, representation, option or unused word outside its list.
    Tag,
    // A name that ends past the pool.
    Range,
    // A name that is not UTF-8: the offset in it of the first byte at which no well-formed name can go on, its length where it ends early.
    Text(Offset),
    // A size that passes 4,294,967,295.
    TooBig,
    // Output or row too small.
    Room,
    // A step out of turn, or an entry still open.
    Order,
    // A row or an opening at the largest count.
    Count,
    // The input ends first.
    Cut,
    // A byte that cannot stand there.
    Code,
    // No number of 32 bits in at most five bytes.
    Number,
    // A form above the grade.
    Newer,
    // A sheet of another version, without a row, or with broken framing.
    Sheet,
    // A section whose frame ends inside its count or an entry, or between entries too early, or has bytes behind the last.
    Frame,
}

// What is wrong, and the number that document 01 returns with it: a place, a size or a row.
#[derive(Clone, Copy)]
pub struct Fault {
    pub why: Refusal,
    pub value: usize,
}

// What stands at a place: so much is taken, and so much is made of it.
#[derive(Clone, Copy)]
pub struct Span {
    pub took: usize,
    pub made: usize,
}

// An item that was read: so many words of the row, and so many bytes taken.
#[derive(Clone, Copy)]
pub struct Extent {
    pub words: usize,
    pub took: usize,
}

// What a reading call answers. After a fault the row is as it was.
pub type Read = Result<Extent, Fault>;

// What a writing call answers: so many bytes were added. After a fault nothing was changed.
pub type Answer = Result<usize, Fault>;
