// Prints, for each file that its arguments name, the file's name and what `export_listing` prints of its contents.
#![tactic(auto)]

ghost use Rattle.std.specs.Prelude.{◌≡◌, ◌++◌, codes};
ghost use Rattle.paper.specs.ListingProgram.{export_text};

use listing_text::export::{export_text, text_room};
use std::io::{self, Read, Write};
use streams::Case;

struct ExportedListing;

impl Case for ExportedListing {
    // The path and the listing's text.
    ghost prints = { λ it path input text. text ≡ path ++ (codes ":\n" ++ export_text input) };

    fn print<R: Read, W: Write>(
        &self,
        _rt: &HostRuntime,
        path: &[u8],
        file: &mut R,
        out: &mut W,
    ) -> io::Result<()> {
        let mut listing = listing_text::room();
        let n = streams::read_full(file, &mut listing)?;
        let mut text = text_room();
        let k = export_text(&listing[..n], &mut text);
        streams::print_line(out, path, b":\n", &text[..k])
    }
}

fn main(rt: HostRuntime) -> io::Result<()> {
    ExportedListing.print_each(&rt, &mut rt.stdout(), &mut rt.stderr())
}
