// What `export_listing` prints of a listing.
ghost use Rattle.std.specs.Prelude.{◌≡◌, ◌≤◌, length, replicate};
ghost use Rattle.io.specs.Counts.{IsPrefixLen};
ghost use Rattle.paper.specs.Answer.{over};
ghost use Rattle.paper.specs.CodeText.{export_listing};
ghost use Rattle.paper.specs.ListingProgram.{sub_function_said, lines_or, export_text};
ghost use Rattle.ascii_text.specs.Text.{Put};

use ascii_text::put_refused;
use code_text::lines::export_listing;
use listing::sub_function_said;
use wire::write::put_bytes;

// Room for the text of any listing: 4,096 lines of twelve characters. All zeros.
pub fn text_room() -> [u8; 49152]
    ensures len { 49152 ≡ length result }
    ensures zeros { result ≡ replicate 49152 0 }
{
    [0; 49152]
}

// The lines of a listing, or the line of its refusal.
fn put_lines(listing: &[u8], out: &mut [u8]) -> usize
    requires { 49152 ≤ length out.old }
    ensures { Put (lines_or (export_listing (sub_function_said listing.now) listing.now)) result 49152 out.old out.new }
{
    match export_listing(sub_function_said(listing), listing, out) {
        Ok(n) => n,
        Err(e) => put_refused(e, out),
    }
}

// All that the program prints of a listing, from the start of `out`. How many bytes it has. Above 65,536 bytes the listing is too long.
pub fn export_text(listing: &[u8], out: &mut [u8; 49152]) -> usize
    ensures value { result ≡ length (export_text listing.now) }
    ensures out_after { out.new ≡ over (export_text listing.now) out.old }
    ensures prefix_len { IsPrefixLen result out.new }
{
    if 65536 < listing.len() {
        let _ = put_bytes(b"too long\n", out);
        return 9;
    }
    put_lines(listing, out)
}
