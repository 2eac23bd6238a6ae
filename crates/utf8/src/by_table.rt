// A character by its lead byte's class, which the table has (lead_bytes.rt): the class says how many bytes the character has and which its second
// byte may be.
ghost use Rattle.std.specs.Prelude.{◌≡◌, ◌<◌, drop};
ghost use Rattle.paper.specs.LeadBytes.{length_by, size_of};
ghost use Rattle.utf8.specs.Valid.{Step};
ghost use Rattle.utf8.specs.LeadBytes.{seen, Begins};

use crate::characters::{TAIL, ascii_run, sized};
use crate::lead_bytes::{Class, class_of};

// The length of the character with which s begins and whose lead byte is of this class. 0 where none does. The lead byte has decided the
// class, and is not looked at.
fn of_class(class: Class, s: &[u8]) -> usize
    ensures { result ≡ length_by (seen class) (drop 1 s.now) }
{
    match class {
        Class::NoLead => 0,
        Class::Ascii => 1,
        Class::TwoBytes => sized::<2>(TAIL, s),
        Class::LeadE0 => sized::<3>((0xA0, 0xBF), s),
        Class::ThreeBytes => sized::<3>(TAIL, s),
        Class::LeadEd => sized::<3>((0x80, 0x9F), s),
        Class::LeadF0 => sized::<4>((0x90, 0xBF), s),
        Class::FourBytes => sized::<4>(TAIL, s),
        Class::LeadF4 => sized::<4>((0x80, 0x8F), s),
    }
}

// How many bytes the characters take with which s begins and whose lead bytes are of this class, which leads N bytes; the first is of it.
fn run<const N: usize>(class: Class, s: &[u8]) -> usize
    requires begins { Begins (seen class) s.now }
    requires size { size_of (seen class) ≡ N }
    requires some { 0 < N }
    ensures { Step s.now result }
{
    let mut at = 0;
    for character in s.chunks_exact(N) {
        if class_of(character[0]) != class || of_class(class, character) == 0 {
            return at;
        }
        at += N;
    }
    at
}

// The length of a run of ASCII, which needs no table, or of the characters with which s begins. 0 where no character begins s, or s is empty.
// Letters of the two classes that most alphabets are written in come in runs.
pub(crate) fn step_by_table(s: &[u8]) -> usize
    ensures { Step s.now result }
{
    let Some(lead) = s.first() else {
        return 0;
    };
    if *lead < 0x80 {
        return ascii_run(s);
    }
    match class_of(*lead) {
        Class::TwoBytes => run::<2>(Class::TwoBytes, s),
        Class::ThreeBytes => run::<3>(Class::ThreeBytes, s),
        class => of_class(class, s),
    }
}
