// The two fields of a group, by the kind: how many words each has, and how many bytes it takes, if it is right.
ghost use Rattle.std.specs.Prelude.{ℕ, ◌≤◌, ◌<◌, ◌≡◌, length};
ghost use Rattle.fields.specs.declared.Field.TheVariants as field;
ghost use Rattle.fields.specs.Words.{wide};
ghost use Rattle.fields.specs.Limits.{input_bytes};
ghost use Rattle.reading.specs.Seen.{pair};
ghost use Rattle.reading.specs.Scan.{scan};
ghost use Rattle.reading.specs.inside.Steps.{end_of};
ghost use Rattle.instance_items.specs.inside.Group.{group_one, group_two, sort_pair};

use numbers::seen_unsigned;
use reading::Pair;

pub fn one_wide(kind: u32) -> usize
    ensures { result ≡ wide (group_one kind) }
{
    if kind == 21 {
        return 11;
    }
    2
}

pub fn two_wide(kind: u32) -> usize
    ensures { result ≡ wide (group_two kind) }
{
    if kind == 18 {
        return 1;
    }
    2
}

// A sort and, behind k bytes, an index.
fn sorted(sort: u32, k: usize, bs: &[u8]) -> Option<Pair>
    requires { (k ≤ 2) × (k ≤ length bs.now) }
    ensures { result ≡ sort_pair sort k bs.now }
{
    let n = seen_unsigned(&bs[k..])?;
    Some(Pair {
        took: k + n.took,
        a: sort,
        b: n.value,
    })
}

// 12 and an index.
fn argument(bs: &[u8]) -> Option<Pair>
    requires { 0 < length bs.now }
    ensures { (g : ℕ) → result ≡ pair g field.Argument bs.now }
{
    if bs[0] == 0x12 {
        let n = seen_unsigned(&bs[1..])?;
        return Some(Pair {
            took: 1 + n.took,
            a: n.value,
            b: 0,
        });
    }
    None
}

// The second field: an argument, a core sort and an index, or a sort and an index, whose core module is 00 11.
pub fn second(kind: u32, bs: &[u8]) -> Option<Pair>
    ensures { (g : ℕ) → result ≡ pair g (group_two kind) bs.now }
{
    if bs.len() == 0 {
        return None;
    }
    if kind == 18 {
        return argument(bs);
    }
    let sort = bs[0];
    if kind == 20 {
        if sort < 5 {
            return sorted(sort as u32, 1, bs);
        }
        return None;
    }
    if sort == 0x00 {
        if bs.len() == 1 {
            return None;
        }
        if bs[1] == 0x11 {
            return sorted(0, 2, bs);
        }
        return None;
    }
    if sort < 6 {
        return sorted(sort as u32, 1, bs);
    }
    None
}

// An extern name; one without options is read as its name.
fn extern_took(grade: u32, bs: &[u8]) -> Option<usize>
    requires { (length bs.now ≤ input_bytes) × (1 ≤ grade) × (grade ≤ 3) }
    ensures { result ≡ end_of (scan 1 grade field.ExternName bs.now) }
{
    if bs.len() == 0 {
        return None;
    }
    if bs[0] == 0x00 {
        let n = reading::name(&bs[1..])?;
        return Some(1 + n.took);
    }
    let e = items::extern_name(grade, bs)?;
    Some(e.took)
}

// The first field: a name, or an extern name.
pub fn first_took(kind: u32, grade: u32, bs: &[u8]) -> Option<usize>
    requires { (length bs.now ≤ input_bytes) × (1 ≤ grade) × (grade ≤ 3) }
    ensures { result ≡ end_of (scan 1 grade (group_one kind) bs.now) }
{
    if kind == 21 {
        return extern_took(grade, bs);
    }
    let n = reading::name(bs)?;
    Some(n.took)
}
