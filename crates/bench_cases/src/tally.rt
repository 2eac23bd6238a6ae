// Prints a line for each row, and counts.
ghost use Rattle.std.specs.Prelude.{◌≡◌, OnOk};
ghost use Rattle.bench_cases.specs.Tally.{nothing_yet, counted};

use std::io;

#[derive(Clone, Copy)]
pub(crate) struct Tally {
    rows: u64,
    differ: u64,
}

// Only prints.
fn print_row(rt: &impl Print, what: &str, right: bool) -> io::Result<()> {
    let verdict = if right { "right    " } else { "DIFFERS  " };
    println!(rt; "{verdict}{what}")
}

impl Tally {
    pub(crate) fn start() -> Tally
        ensures { result ≡ nothing_yet }
    {
        Tally { rows: 0, differ: 0 }
    }

    // `right` is whether the functions answered what the row says.
    fn count(&mut self, right: bool)
        ensures { self.new ≡ counted self.old right }
    {
        self.rows = self.rows.wrapping_add(1);
        if !right {
            self.differ = self.differ.wrapping_add(1);
        }
    }

    // Prints the row, and counts it.
    pub(crate) fn tried(&mut self, rt: &impl Print, what: &str, right: bool) -> io::Result<()>
        ensures { OnOk result (self.new ≡ counted self.old right) }
    {
        print_row(rt, what, right)?;
        self.count(right);
        Ok(())
    }

    // Only prints.
    pub(crate) fn sum_up(self, rt: &impl Print) -> io::Result<()> {
        println!(rt; "{} rows, {} differ", self.rows, self.differ)
    }
}
