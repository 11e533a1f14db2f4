// Straight code by class, and for a lift: the size of a row, if all of it is seen to be right; a row that is right put where
// there is room; and both, of which None leaves it to the walk to say whether the row is right.
ghost use Rattle.std.specs.Prelude.{ℕ, ◌<◌, ◌≤◌, ◌+◌, ◌*◌, ◌≡◌, IfSome, Ok, [], ◌∷◌, length, drop};
ghost use Rattle.std.proofs.lemmas.List.Edits.{sets};
ghost use Rattle.fields.specs.Flaw.{Right};
ghost use Rattle.fields.specs.Words.{word};
ghost use Rattle.writing.specs.Binary.{flag, representation, canonopt};
ghost use Rattle.writing.specs.Judge.{choice};
ghost use Rattle.writing.specs.Row.{measured_row};
ghost use Rattle.writing.specs.inside.Wrote.{Wrote};
ghost use Rattle.writing.specs.inside.Rows.{Tried};
ghost use Rattle.canonicals.specs.inside.Class.{shape_for, Choices, choices, Chosen, Optioned, optioned_bytes, optioned_size, Good, bytes_for, size_for, Known, Put, Lifted, counted_bytes, counted_size, lifted_size, LiftTried};
ghost use Rattle.canonicals.specs.Table.{lift};
ghost use Rattle.fields.specs.Limits.{row_words};

use crate::Class;
use fields::{POOL_BYTES, ROW_WORDS, is_indexed};

fn flag_byte(x: u32) -> u8
    ensures { result ≡ flag x }
{
    if x == 0 { 0x00 } else { 0x01 }
}

fn rep_byte(x: u32) -> u8
    ensures { result ≡ representation x }
{
    if x == 0 { 0x7f } else { 0x7e }
}

// A class has a function for both passes: with one over `class_size` and `put_class` canonicals take 15 hundredths more to write.

// A lead alone.
fn nothing_size(row: &[u32]) -> Option<usize>
    ensures { IfSome result (λ r. Known Class.Nothing row.now r) }
{
    if row.len() == 1 { Some(1) } else { None }
}

fn put_nothing(lead: u8, out: &mut [u8], to: usize)
    requires { to + 1 ≤ length out.old }
    ensures { out.new ≡ sets out.old to (lead ∷ []) }
{
    out[to] = lead;
}

fn nothing_row(lead: u8, row: &[u32], out: &mut [u8], at: usize) -> Option<usize>
    ensures { Put Class.Nothing lead row.now out.old at result out.new }
{
    let size = nothing_size(row)?;
    if writing::fits(size, at, out.len()) {
        put_nothing(lead, out, at);
        return Some(size);
    }
    None
}

// A lead and a byte 00.
fn zero_size(row: &[u32]) -> Option<usize>
    ensures { IfSome result (λ r. Known Class.Zero row.now r) }
{
    if row.len() == 1 { Some(2) } else { None }
}

fn put_zero(lead: u8, out: &mut [u8], to: usize)
    requires { to + 2 ≤ length out.old }
    ensures { out.new ≡ sets out.old to (lead ∷ 0x00 ∷ []) }
{
    out[to] = lead;
    out[to + 1] = 0x00;
}

fn zero_row(lead: u8, row: &[u32], out: &mut [u8], at: usize) -> Option<usize>
    ensures { Put Class.Zero lead row.now out.old at result out.new }
{
    let size = zero_size(row)?;
    if writing::fits(size, at, out.len()) {
        put_zero(lead, out, at);
        return Some(size);
    }
    None
}

// An index.
fn index_size(row: &[u32]) -> Option<usize>
    ensures { IfSome result (λ r. Known Class.Index row.now r) }
{
    if row.len() != 2 {
        return None;
    }
    Some(1 + numbers::unsigned_size(row[1]))
}

fn put_index(lead: u8, row: &[u32], out: &mut [u8], to: usize)
    requires { Good Class.Index row.now × (to + size_for Class.Index row.now ≤ length out.old) }
    ensures { out.new ≡ sets out.old to (bytes_for Class.Index lead row.now) }
{
    out[to] = lead;
    let _ = numbers::put_unsigned(row[1], to + 1, out);
}

fn index_row(lead: u8, row: &[u32], out: &mut [u8], at: usize) -> Option<usize>
    ensures { Put Class.Index lead row.now out.old at result out.new }
{
    let size = index_size(row)?;
    if writing::fits(size, at, out.len()) {
        put_index(lead, row, out, at);
        return Some(size);
    }
    None
}

// A byte 00 and an index.
fn zero_index_size(row: &[u32]) -> Option<usize>
    ensures { IfSome result (λ r. Known Class.ZeroIndex row.now r) }
{
    if row.len() != 2 {
        return None;
    }
    Some(2 + numbers::unsigned_size(row[1]))
}

fn put_zero_index(lead: u8, row: &[u32], out: &mut [u8], to: usize)
    requires { Good Class.ZeroIndex row.now × (to + size_for Class.ZeroIndex row.now ≤ length out.old) }
    ensures { out.new ≡ sets out.old to (bytes_for Class.ZeroIndex lead row.now) }
{
    out[to] = lead;
    out[to + 1] = 0x00;
    let _ = numbers::put_unsigned(row[1], to + 2, out);
}

fn zero_index_row(lead: u8, row: &[u32], out: &mut [u8], at: usize) -> Option<usize>
    ensures { Put Class.ZeroIndex lead row.now out.old at result out.new }
{
    let size = zero_index_size(row)?;
    if writing::fits(size, at, out.len()) {
        put_zero_index(lead, row, out, at);
        return Some(size);
    }
    None
}

// Two indices.
fn indices_size(row: &[u32]) -> Option<usize>
    ensures { IfSome result (λ r. Known Class.Indices row.now r) }
{
    if row.len() != 3 {
        return None;
    }
    Some(1 + numbers::unsigned_size(row[1]) + numbers::unsigned_size(row[2]))
}

fn put_indices(lead: u8, row: &[u32], out: &mut [u8], to: usize)
    requires { Good Class.Indices row.now × (to + size_for Class.Indices row.now ≤ length out.old) }
    ensures { out.new ≡ sets out.old to (bytes_for Class.Indices lead row.now) }
{
    out[to] = lead;
    let _ = numbers::put_unsigned(row[1], to + 1, out);
    let next = to + 1 + numbers::unsigned_size(row[1]);
    let _ = numbers::put_unsigned(row[2], next, out);
}

fn indices_row(lead: u8, row: &[u32], out: &mut [u8], at: usize) -> Option<usize>
    ensures { Put Class.Indices lead row.now out.old at result out.new }
{
    let size = indices_size(row)?;
    if writing::fits(size, at, out.len()) {
        put_indices(lead, row, out, at);
        return Some(size);
    }
    None
}

// A flag.
fn flag_size(row: &[u32]) -> Option<usize>
    ensures { IfSome result (λ r. Known Class.Flag row.now r) }
{
    if row.len() == 2 && row[1] < 2 {
        Some(2)
    } else {
        None
    }
}

fn put_flag(lead: u8, row: &[u32], out: &mut [u8], to: usize)
    requires { Good Class.Flag row.now × (to + size_for Class.Flag row.now ≤ length out.old) }
    ensures { out.new ≡ sets out.old to (bytes_for Class.Flag lead row.now) }
{
    out[to] = lead;
    out[to + 1] = flag_byte(row[1]);
}

fn flag_row(lead: u8, row: &[u32], out: &mut [u8], at: usize) -> Option<usize>
    ensures { Put Class.Flag lead row.now out.old at result out.new }
{
    let size = flag_size(row)?;
    if writing::fits(size, at, out.len()) {
        put_flag(lead, row, out, at);
        return Some(size);
    }
    None
}

// An index and a flag.
fn index_flag_size(row: &[u32]) -> Option<usize>
    ensures { IfSome result (λ r. Known Class.IndexFlag row.now r) }
{
    if row.len() != 3 || 2 <= row[2] {
        return None;
    }
    Some(2 + numbers::unsigned_size(row[1]))
}

fn put_index_flag(lead: u8, row: &[u32], out: &mut [u8], to: usize)
    requires { Good Class.IndexFlag row.now × (to + size_for Class.IndexFlag row.now ≤ length out.old) }
    ensures { out.new ≡ sets out.old to (bytes_for Class.IndexFlag lead row.now) }
{
    out[to] = lead;
    let _ = numbers::put_unsigned(row[1], to + 1, out);
    let next = to + 1 + numbers::unsigned_size(row[1]);
    out[next] = flag_byte(row[2]);
}

fn index_flag_row(lead: u8, row: &[u32], out: &mut [u8], at: usize) -> Option<usize>
    ensures { Put Class.IndexFlag lead row.now out.old at result out.new }
{
    let size = index_flag_size(row)?;
    if writing::fits(size, at, out.len()) {
        put_index_flag(lead, row, out, at);
        return Some(size);
    }
    None
}

// A representation and an index.
fn rep_index_size(row: &[u32]) -> Option<usize>
    ensures { IfSome result (λ r. Known Class.RepIndex row.now r) }
{
    if row.len() != 3 || 2 <= row[1] {
        return None;
    }
    Some(2 + numbers::unsigned_size(row[2]))
}

fn put_rep_index(lead: u8, row: &[u32], out: &mut [u8], to: usize)
    requires { Good Class.RepIndex row.now × (to + size_for Class.RepIndex row.now ≤ length out.old) }
    ensures { out.new ≡ sets out.old to (bytes_for Class.RepIndex lead row.now) }
{
    out[to] = lead;
    out[to + 1] = rep_byte(row[1]);
    let _ = numbers::put_unsigned(row[2], to + 2, out);
}

fn rep_index_row(lead: u8, row: &[u32], out: &mut [u8], at: usize) -> Option<usize>
    ensures { Put Class.RepIndex lead row.now out.old at result out.new }
{
    let size = rep_index_size(row)?;
    if writing::fits(size, at, out.len()) {
        put_rep_index(lead, row, out, at);
        return Some(size);
    }
    None
}

// One option.
fn option_size(k: u32, x: u32) -> Option<usize>
    ensures x_value { IfSome result (λ r. (choice (k ∷ x ∷ []) ≡ Right) × (r ≡ length (canonopt k x))) }
    ensures upper_bound { IfSome result (λ r. r ≤ 6) }
{
    if k < 10 {
        if is_indexed(k) {
            return Some(1 + numbers::unsigned_size(x));
        }
        if x == 0 {
            return Some(1);
        }
    }
    None
}

fn put_option(k: u32, x: u32, out: &mut [u8], to: usize) -> usize
    requires { (k < 10) × (to + length (canonopt k x) ≤ length out.old) }
    ensures { Wrote out.old to (canonopt k x) result out.new }
{
    out[to] = k as u8;
    if is_indexed(k) {
        let _ = numbers::put_unsigned(x, to + 1, out);
        return to + 1 + numbers::unsigned_size(x);
    }
    to + 1
}

// `base` and the bytes of n options, whose words stand from `from` on, if each is right.
fn options_size(row: &[u32], from: usize, n: usize, base: usize) -> Option<usize>
    requires { (from + n * 2 ≤ length row.now) × (length row.now ≤ row_words) × (base ≤ 32) }
    ensures { IfSome result (λ r. Chosen n (drop from row.now) base r) }
{
    let mut at = from;
    let mut made = base;
    for _ in 0..n {
        made += option_size(row[at], row[at + 1])?;
        at += 2;
    }
    Some(made)
}

fn put_options(row: &[u32], from: usize, n: usize, out: &mut [u8], base: usize) -> usize
    requires { (from + n * 2 ≤ length row.now) × Choices n (drop from row.now) × (base + length (choices n (drop from row.now)) ≤ length out.old) }
    ensures { Wrote out.old base (choices n (drop from row.now)) result out.new }
{
    let mut at = from;
    let mut to = base;
    for _ in 0..n {
        to = put_option(row[at], row[at + 1], out, to);
        at += 2;
    }
    to
}

// An index and options, behind `head` bytes.
fn optioned_size(row: &[u32], head: usize) -> Option<usize>
    requires { (1 ≤ head) × (head ≤ 2) }
    ensures { IfSome result (λ r. Optioned row.now × (r ≡ head + optioned_size row.now)) }
{
    if row.len() < 3 || ROW_WORDS < row.len() {
        return None;
    }
    let n = row[2] as usize;
    if row.len() != 3 + n * 2 {
        return None;
    }
    let base = head + numbers::unsigned_size(row[1]) + numbers::unsigned_size(row[2]);
    options_size(row, 3, n, base)
}

fn put_optioned(row: &[u32], out: &mut [u8], to: usize)
    requires { Optioned row.now × (to + optioned_size row.now ≤ length out.old) }
    ensures { out.new ≡ sets out.old to (optioned_bytes row.now) }
{
    let _ = numbers::put_unsigned(row[1], to, out);
    let second = to + numbers::unsigned_size(row[1]);
    let _ = numbers::put_unsigned(row[2], second, out);
    let third = second + numbers::unsigned_size(row[2]);
    put_options(row, 3, row[2] as usize, out, third);
}

fn put_lead_options(lead: u8, row: &[u32], out: &mut [u8], to: usize)
    requires { Good Class.Options row.now × (to + size_for Class.Options row.now ≤ length out.old) }
    ensures { out.new ≡ sets out.old to (bytes_for Class.Options lead row.now) }
{
    out[to] = lead;
    put_optioned(row, out, to + 1);
}

fn options_row(lead: u8, row: &[u32], out: &mut [u8], at: usize) -> Option<usize>
    ensures { Put Class.Options lead row.now out.old at result out.new }
{
    let size = optioned_size(row, 1)?;
    if writing::fits(size, at, out.len()) {
        put_lead_options(lead, row, out, at);
        return Some(size);
    }
    None
}

fn put_zero_options(lead: u8, row: &[u32], out: &mut [u8], to: usize)
    requires { Good Class.ZeroOptions row.now × (to + size_for Class.ZeroOptions row.now ≤ length out.old) }
    ensures { out.new ≡ sets out.old to (bytes_for Class.ZeroOptions lead row.now) }
{
    out[to] = lead;
    out[to + 1] = 0x00;
    put_optioned(row, out, to + 2);
}

fn zero_options_row(lead: u8, row: &[u32], out: &mut [u8], at: usize) -> Option<usize>
    ensures { Put Class.ZeroOptions lead row.now out.old at result out.new }
{
    let size = optioned_size(row, 2)?;
    if writing::fits(size, at, out.len()) {
        put_zero_options(lead, row, out, at);
        return Some(size);
    }
    None
}

// The size of a row of a class, if all of it is seen to be right.
pub fn class_size(class: Class, row: &[u32], pool: &[u8]) -> Option<usize>
    ensures { IfSome result (λ r. (lead : ℕ) → measured_row (shape_for class lead) row.now pool.now ≡ Ok r) }
{
    if POOL_BYTES < pool.len() {
        return None;
    }
    match class {
        Class::Nothing => nothing_size(row),
        Class::Zero => zero_size(row),
        Class::Index => index_size(row),
        Class::ZeroIndex => zero_index_size(row),
        Class::Indices => indices_size(row),
        Class::Flag => flag_size(row),
        Class::IndexFlag => index_flag_size(row),
        Class::RepIndex => rep_index_size(row),
        Class::Options => optioned_size(row, 1),
        Class::ZeroOptions => optioned_size(row, 2),
        Class::Not => None,
    }
}

// A row of a class that is right and has room.
pub fn put_class(class: Class, lead: u8, row: &[u32], out: &mut [u8], to: usize)
    requires { Good class row.now × (to + size_for class row.now ≤ length out.old) }
    ensures { out.new ≡ sets out.old to (bytes_for class lead row.now) }
{
    match class {
        Class::Nothing => put_nothing(lead, out, to),
        Class::Zero => put_zero(lead, out, to),
        Class::Index => put_index(lead, row, out, to),
        Class::ZeroIndex => put_zero_index(lead, row, out, to),
        Class::Indices => put_indices(lead, row, out, to),
        Class::Flag => put_flag(lead, row, out, to),
        Class::IndexFlag => put_index_flag(lead, row, out, to),
        Class::RepIndex => put_rep_index(lead, row, out, to),
        Class::Options => put_lead_options(lead, row, out, to),
        Class::ZeroOptions => put_zero_options(lead, row, out, to),
        Class::Not => {}
    }
}

// A row of a class, if all of it is seen to be right and there is room; its size, if it was done.
pub fn write_class(
    class: Class,
    lead: u8,
    row: &[u32],
    pool: &[u8],
    out: &mut [u8],
    at: usize,
) -> Option<usize>
    ensures { Tried (shape_for class lead) row.now pool.now out.old at result out.new }
{
    if POOL_BYTES < pool.len() {
        return None;
    }
    match class {
        Class::Nothing => nothing_row(lead, row, out, at),
        Class::Zero => zero_row(lead, row, out, at),
        Class::Index => index_row(lead, row, out, at),
        Class::ZeroIndex => zero_index_row(lead, row, out, at),
        Class::Indices => indices_row(lead, row, out, at),
        Class::Flag => flag_row(lead, row, out, at),
        Class::IndexFlag => index_flag_row(lead, row, out, at),
        Class::RepIndex => rep_index_row(lead, row, out, at),
        Class::Options => options_row(lead, row, out, at),
        Class::ZeroOptions => zero_options_row(lead, row, out, at),
        Class::Not => None,
    }
}

// A lift, seen in the order of its words: function, type, count and options.
pub fn lift_size(row: &[u32], pool: &[u8]) -> Option<usize>
    ensures { IfSome result (λ r. Lifted row.now pool.now × (r ≡ 2 + lifted_size row.now)) }
{
    if row.len() < 4 || ROW_WORDS < row.len() || POOL_BYTES < pool.len() {
        return None;
    }
    let n = row[3] as usize;
    if row.len() != 4 + n * 2 {
        return None;
    }
    let base = 2
        + numbers::unsigned_size(row[1])
        + numbers::unsigned_size(row[2])
        + numbers::unsigned_size(row[3]);
    options_size(row, 4, n, base)
}

// Its count and options.
fn put_counted(row: &[u32], out: &mut [u8], to: usize) -> usize
    requires { (length row.now ≡ 4 + word row.now 3 * 2) × Choices (word row.now 3) (drop 4 row.now) × (to + counted_size row.now ≤ length out.old) }
    ensures { Wrote out.old to (counted_bytes row.now) result out.new }
{
    let _ = numbers::put_unsigned(row[3], to, out);
    let next = to + numbers::unsigned_size(row[3]);
    put_options(row, 4, row[3] as usize, out, next)
}

// A lift that is right and has room: two bytes 00, function, options, and the type last.
pub fn put_lift(row: &[u32], out: &mut [u8], to: usize)
    requires { (length row.now ≡ 4 + word row.now 3 * 2) × Choices (word row.now 3) (drop 4 row.now) × (to + (2 + lifted_size row.now) ≤ length out.old) }
    ensures { out.new ≡ sets out.old to (lift (drop 1 row.now)) }
{
    out[to] = 0x00;
    out[to + 1] = 0x00;
    let _ = numbers::put_unsigned(row[1], to + 2, out);
    let next = to + 2 + numbers::unsigned_size(row[1]);
    let last = put_counted(row, out, next);
    let _ = numbers::put_unsigned(row[2], last, out);
}

// A lift, if all of it is seen to be right and there is room; its size, if it was done.
pub fn lift_row(row: &[u32], pool: &[u8], out: &mut [u8], at: usize) -> Option<usize>
    ensures { LiftTried row.now pool.now out.old at result out.new }
{
    let size = lift_size(row, pool)?;
    if writing::fits(size, at, out.len()) {
        put_lift(row, out, at);
        return Some(size);
    }
    None
}
