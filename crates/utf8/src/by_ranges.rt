// The name check without the table, as it was before there was one: each lead byte is compared with the ranges of RFC 3629. It answers what
// `valid_up_to` answers, on every name (proofs/Same.antt).
ghost use Rattle.paper.specs.Utf8.{Longest};
ghost use Rattle.utf8.specs.Valid.{Step};

use crate::characters::{TAIL, ascii_run, sized};
use crate::valid_beginning;

// The length of a run of ASCII, or of one longer character, with which s begins. 0 where no character begins s, or s is empty. 80 to BF stand inside
// a character, and C0 and C1 would lead overlong forms, as E0 would before a second byte below A0, and F0 before one below 90. ED before one above 9F
// would lead a surrogate, and F4 before one above 8F a number above 10FFFF; so would F5 and what follows it.
fn step_by_ranges(s: &[u8]) -> usize
    ensures { Step s.now result }
{
    let Some(lead) = s.first() else {
        return 0;
    };
    match *lead {
        0x00..=0x7F => ascii_run(s),
        0xC2..=0xDF => sized::<2>(TAIL, s),
        0xE0 => sized::<3>((0xA0, 0xBF), s),
        0xED => sized::<3>((0x80, 0x9F), s),
        0xE1..=0xEF => sized::<3>(TAIL, s),
        0xF0 => sized::<4>((0x90, 0xBF), s),
        0xF1..=0xF3 => sized::<4>(TAIL, s),
        0xF4 => sized::<4>((0x80, 0x8F), s),
        _ => 0,
    }
}

// The length of the longest beginning of the name that is UTF-8; the whole length where all of it is.
pub fn valid_up_to_by_ranges(name: &[u8]) -> usize
    ensures { Longest name.now result }
{
    valid_beginning(name, step_by_ranges)
}
