// Kinds 256 + lead: the canonical definitions of the component binary document.
#![tactic(auto)]

mod straight;

ghost use Rattle.std.specs.Prelude.{Some, ◌%◌, ◌≡◌, drop};
ghost use Rattle.writing.specs.Row.{measured_row, write_row};
ghost use Rattle.fields.specs.Table.{shape_in};
ghost use Rattle.fields.specs.Answers.{left};
ghost use Rattle.writing.specs.Write.{stored};
ghost use Rattle.canonicals.specs.Table.{plain, zeroed, optioned, table, lift_shape, lift};
ghost use Rattle.canonicals.specs.inside.Class.{shape_for};
ghost use Rattle.canonicals.specs.Write.{shape_of, measured_canonical, write_canonical};

use fields::{Answer, Fault, Field, Refusal, Shape};

// What a canonical other than lift has behind its lead.
#[derive(Clone, Copy)]
pub enum Class {
    Nothing,
    // A byte 00.
    Zero,
    Index,
    // A byte 00 and an index.
    ZeroIndex,
    // Two indices.
    Indices,
    Flag,
    // An index and a flag.
    IndexFlag,
    // A representation and an index.
    RepIndex,
    // An index and options.
    Options,
    // A byte 00, an index and options.
    ZeroOptions,
    // There is no such kind.
    Not,
}

// A lead and two fields.
fn plain_of(lead: u8, first: Field, second: Field) -> Shape
    ensures { result ≡ plain lead first second }
{
    fields::two_of(Field::Fixed(lead), Field::Nothing, first, second)
}

// A lead, a byte 00 and a field.
fn zeroed_of(lead: u8, first: Field) -> Shape
    ensures { result ≡ zeroed lead first }
{
    fields::two_of(
        Field::Fixed(lead),
        Field::Fixed(0x00),
        first,
        Field::Nothing,
    )
}

// A lead, perhaps a byte, an index and options.
fn optioned_of(lead: u8, zero: Field) -> Shape
    ensures { result ≡ optioned lead zero }
{
    fields::many_of(
        Field::Fixed(lead),
        zero,
        Field::Index,
        Field::Choice,
        Field::Nothing,
        Field::Nothing,
    )
}

// The class of a kind other than lift: a line of the table for each.
pub fn class_of(kind: u32) -> Class
    ensures { shape_in table kind ≡ shape_for result (kind % 256) }
{
    match kind {
        // lower
        0x101 => Class::ZeroOptions,
        // resource.new
        0x102 => Class::Index,
        // resource.drop
        0x103 => Class::Index,
        // resource.rep
        0x104 => Class::Index,
        // task.cancel
        0x105 => Class::Nothing,
        // subtask.cancel
        0x106 => Class::Flag,
        // context.get
        0x10a => Class::RepIndex,
        // context.set
        0x10b => Class::RepIndex,
        // thread.yield
        0x10c => Class::Zero,
        // subtask.drop
        0x10d => Class::Nothing,
        // stream.new
        0x10e => Class::Index,
        // stream.read
        0x10f => Class::Options,
        // stream.cancel-read
        0x111 => Class::IndexFlag,
        // stream.cancel-write
        0x112 => Class::IndexFlag,
        // stream.drop-readable
        0x113 => Class::Index,
        // stream.drop-writable
        0x114 => Class::Index,
        // future.new
        0x115 => Class::Index,
        // future.read
        0x116 => Class::Options,
        // future.cancel-read
        0x118 => Class::IndexFlag,
        // future.cancel-write
        0x119 => Class::IndexFlag,
        // future.drop-readable
        0x11a => Class::Index,
        // future.drop-writable
        0x11b => Class::Index,
        // error-context.drop
        0x11e => Class::Nothing,
        // waitable-set.new
        0x11f => Class::Nothing,
        // waitable-set.wait
        0x120 => Class::ZeroIndex,
        // waitable-set.poll
        0x121 => Class::ZeroIndex,
        // waitable-set.drop
        0x122 => Class::Nothing,
        // waitable.join
        0x123 => Class::Nothing,
        // backpressure.inc
        0x124 => Class::Nothing,
        // backpressure.dec
        0x125 => Class::Nothing,
        // thread.index
        0x126 => Class::Nothing,
        // thread.new-indirect
        0x127 => Class::Indices,
        // thread.suspend
        0x129 => Class::Zero,
        // thread.suspend-then-resume
        0x12a => Class::Zero,
        // thread.yield-then-resume
        0x12b => Class::Zero,
        // thread.suspend-then-promote
        0x12c => Class::Zero,
        // thread.yield-then-promote
        0x12d => Class::Zero,
        // stream.forward
        0x12e => Class::Index,
        // future.forward
        0x12f => Class::Index,
        // thread.spawn-ref
        0x140 => Class::Index,
        // thread.spawn-indirect
        0x141 => Class::Indices,
        _ => Class::Not,
    }
}

// The shape of a class behind a lead.
#[tactic(auto, unfolding(crate::specs::inside::Class::shape_for))]
fn line_of(class: Class, lead: u8) -> Option<Shape>
    ensures { result ≡ shape_for class lead }
{
    match class {
        Class::Nothing => Some(plain_of(lead, Field::Nothing, Field::Nothing)),
        Class::Zero => Some(zeroed_of(lead, Field::Nothing)),
        Class::Index => Some(plain_of(lead, Field::Index, Field::Nothing)),
        Class::ZeroIndex => Some(zeroed_of(lead, Field::Index)),
        Class::Indices => Some(plain_of(lead, Field::Index, Field::Index)),
        Class::Flag => Some(plain_of(lead, Field::Flag, Field::Nothing)),
        Class::IndexFlag => Some(plain_of(lead, Field::Index, Field::Flag)),
        Class::RepIndex => Some(plain_of(lead, Field::Rep, Field::Index)),
        Class::Options => Some(optioned_of(lead, Field::Nothing)),
        Class::ZeroOptions => Some(optioned_of(lead, Field::Fixed(0x00))),
        Class::Not => None,
    }
}

// Lift, judged in the order of its words.
fn lift_shape() -> Shape
    ensures { result ≡ lift_shape }
{
    Shape {
        lead: Field::Fixed(0x00),
        zero: Field::Fixed(0x00),
        first: Field::Index,
        second: Field::Index,
        counted: true,
        one: Field::Choice,
        two: Field::Nothing,
        last: Field::Nothing,
    }
}

// The shape of a kind.
pub fn shape_of(kind: u32) -> Option<Shape>
    ensures { result ≡ shape_of kind }
{
    if kind == 256 {
        return Some(lift_shape());
    }
    line_of(class_of(kind), (kind % 256) as u8)
}

// The size of a canonical row, or why it is refused, room apart.
pub fn measure(row: &[u32], pool: &[u8]) -> Answer
    ensures { result ≡ measured_canonical row.now pool.now }
{
    let kind = fields::kind_of(row);
    if kind == 256 {
        if let Some(lifted) = straight::lift_size(row, pool) {
            return Ok(lifted);
        }
        return writing::measure_row(Some(lift_shape()), row, pool);
    }
    let class = class_of(kind);
    if let Some(size) = straight::class_size(class, row, pool) {
        return Ok(size);
    }
    writing::measure_row(line_of(class, (kind % 256) as u8), row, pool)
}

// A lift judged by the walk, and put where there is room.
fn write_lift(row: &[u32], pool: &[u8], out: &mut [u8], at: usize) -> Answer
    ensures { left result out.new ≡ stored (measured_row (Some lift_shape) row.now pool.now) (lift (drop 1 row.now)) out.old at }
{
    let lifted = writing::measure_row(Some(lift_shape()), row, pool)?;
    if writing::fits(lifted, at, out.len()) {
        straight::put_lift(row, out, at);
        return Ok(lifted);
    }
    Err(Fault {
        why: Refusal::Room,
        value: lifted,
    })
}

// A row of a class judged by the walk, and put where there is room.
fn write_line(class: Class, lead: u8, row: &[u32], pool: &[u8], out: &mut [u8], at: usize) -> Answer
    ensures { left result out.new ≡ write_row (shape_for class lead) row.now pool.now out.old at }
{
    let size = writing::measure_row(line_of(class, lead), row, pool)?;
    if writing::fits(size, at, out.len()) {
        straight::put_class(class, lead, row, out, at);
        return Ok(size);
    }
    Err(Fault {
        why: Refusal::Room,
        value: size,
    })
}

// A canonical row judged, and written into out from `at` on.
pub fn write(row: &[u32], pool: &[u8], out: &mut [u8], at: usize) -> Answer
    ensures { left result out.new ≡ write_canonical row.now pool.now out.old at }
{
    let kind = fields::kind_of(row);
    if kind == 256 {
        if let Some(lifted) = straight::lift_row(row, pool, out, at) {
            return Ok(lifted);
        }
        return write_lift(row, pool, out, at);
    }
    let class = class_of(kind);
    let lead = (kind % 256) as u8;
    if let Some(size) = straight::write_class(class, lead, row, pool, out, at) {
        return Ok(size);
    }
    write_line(class, lead, row, pool, out, at)
}
