// The grades of forms, by the bytes that mark them.
ghost use Rattle.std.specs.Prelude.{◌≡◌};
ghost use Rattle.fields.specs.Grades.{grade_of, marks_at, grade_in};

use crate::Site;

fn type_grade(b: u8) -> u32
    ensures { result ≡ grade_in (marks_at Site.TypeLead) b }
{
    match b {
        0x43 => 2,
        0x63 => 3,
        0x65 => 2,
        0x66 => 2,
        0x67 => 3,
        _ => 1,
    }
}

fn canon_grade(b: u8) -> u32
    ensures { result ≡ grade_in (marks_at Site.CanonLead) b }
{
    if b < 0x05 {
        return 1;
    }
    if b < 0x40 {
        return 2;
    }
    if b < 0x42 {
        return 3;
    }
    2
}

fn option_grade(b: u8) -> u32
    ensures { result ≡ grade_in (marks_at Site.CanonOption) b }
{
    if b < 0x06 {
        return 1;
    }
    if b < 0x08 {
        return 2;
    }
    if b < 0x0a {
        return 3;
    }
    1
}

// The grade of what a byte marks at a site.
pub fn grade_of(site: Site, b: u8) -> u32
    ensures { result ≡ grade_of site b }
{
    match site {
        Site::Primitive => {
            if b == 0x64 {
                return 2;
            }
            1
        }
        Site::TypeLead => type_grade(b),
        Site::NameLead => {
            if b == 0x02 {
                return 3;
            }
            1
        }
        Site::CanonLead => canon_grade(b),
        Site::CanonOption => option_grade(b),
    }
}
