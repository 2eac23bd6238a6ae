// The name check: UTF-8 as RFC 3629 has it. What a long name begins with is judged in blocks of bytes (blocks.rt), which is the faster way;
// what they leave, and a short name, is read character by character (characters.rt), each by the class of its lead byte: lead_bytes.rt has them
// all in one table, and is the file to read first.
#![tactic(auto)]

mod blocks;
pub mod by_ranges;
mod by_table;
mod characters;
mod lead_bytes;

ghost use Rattle.std.specs.Prelude.{◌≡◌};
ghost use Rattle.std.specs.Fn.{FnReturnsAt};
ghost use Rattle.paper.specs.Utf8.{Longest, is_utf8};
ghost use Rattle.utf8.specs.Valid.{MakesSteps};

use crate::blocks::{BLOCK, by_blocks};
use crate::by_table::step_by_table;
use crate::characters::by_characters;

// The length of the longest beginning of a long name that is UTF-8; `step` passes one character or more.
fn long_beginning<F: Fn(&[u8]) -> usize>(name: &[u8], step: F) -> usize
    requires callable { F.IsAlwaysCallable step }
    requires steps { MakesSteps (FnReturnsAt F.Fn step) }
    ensures { Longest name.now result }
{
    let at = by_blocks(name);
    at + by_characters(&name[at..], step)
}

// The same of any name. One shorter than a block is at once read by its characters: the preparations for whole blocks cost more than such a name.
fn valid_beginning<F: Fn(&[u8]) -> usize>(name: &[u8], step: F) -> usize
    requires callable { F.IsAlwaysCallable step }
    requires steps { MakesSteps (FnReturnsAt F.Fn step) }
    ensures { Longest name.now result }
{
    if name.len() < BLOCK {
        return by_characters(name, step);
    }
    long_beginning(name, step)
}

// The length of the longest beginning of the name that is UTF-8; the whole length where all of it is.
pub fn valid_up_to(name: &[u8]) -> usize
    ensures { Longest name.now result }
{
    valid_beginning(name, step_by_table)
}

// Whether the whole name is UTF-8. An empty name is.
#[tactic(auto, using(paper::proofs::Utf8::whole_is))]
pub fn is_utf8(name: &[u8]) -> bool
    ensures { result ≡ is_utf8 name.now }
{
    valid_up_to(name) == name.len()
}
