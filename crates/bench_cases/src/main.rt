// Takes nothing: runs every row of document 01's bench table through the real functions, and prints whether it is right or differs, and at the end how many differ.
#![tactic(auto)]

mod rows;
mod table;
mod tally;

use crate::table::all_rows;
use crate::tally::Tally;
use std::io;

fn main(rt: HostRuntime) -> io::Result<()> {
    let mut tally = Tally::start();
    all_rows(&rt, &mut tally)?;
    tally.sum_up(&rt)
}
