// What `import_listing` writes of a text, and the mask that its argument is.
ghost use Rattle.std.specs.Prelude.{◌≡◌, ◌≤◌, length, replicate};
ghost use Rattle.io.specs.Counts.{IsPrefixLen};
ghost use Rattle.paper.specs.Answer.{over};
ghost use Rattle.paper.specs.CodeText.{import_listing};
ghost use Rattle.paper.specs.ListingProgram.{listing_or, import_prints, how_to_use};
ghost use Rattle.listing_text.specs.Import.{MaskRight, PutPrinted, Prints};

use ascii_text::put_refused;
use code_text::character::hex_value;
use code_text::lines::import_listing;
use dtc::status::DtcStatusMask;
use wire::write::put_bytes;

// How many bytes go to standard output, or to standard error.
// Two words of its own, and no `Result`: the length of a line for standard error is no error.
#[derive(Clone, Copy, Debug, PartialEq, Eq)]
pub enum Printed {
    ToOutput(usize),
    ToError(usize),
}

// Room for the listing of any text: three bytes and 4,096 records of four. All zeros.
pub fn listing_room() -> [u8; 16387]
    ensures len { 16387 ≡ length result }
    ensures zeros { result ≡ replicate 16387 0 }
{
    [0; 16387]
}

// The mask that a word is: two hex digits, capitals, and no other word.
pub fn mask_in(word: &[u8]) -> Option<DtcStatusMask>
    ensures { MaskRight word.now result }
{
    let [high, low] = *word else {
        return None;
    };
    let high = hex_value(high)?;
    let low = hex_value(low)?;
    Some(DtcStatusMask::from_bits((high * 16 + low) as u8))
}

// The listing of a text, or the line of its refusal.
fn put_listing(mask: DtcStatusMask, text: &[u8], out: &mut [u8]) -> Printed
    requires { 16387 ≤ length out.old }
    ensures { PutPrinted (listing_or (import_listing mask.bits text.now)) result out.old out.new }
{
    match import_listing(mask, text, out) {
        Ok(n) => Printed::ToOutput(n),
        Err(e) => Printed::ToError(put_refused(e, out)),
    }
}

// All that the program writes of a text, from the start of `out`: a listing, or a line for standard error. Above 65,536 bytes the text is too long.
pub fn import_text(mask: DtcStatusMask, text: &[u8], out: &mut [u8; 16387]) -> Printed
    ensures { Prints (import_prints mask.bits text.now) result out.old out.new }
{
    if 65536 < text.len() {
        let _ = put_bytes(b"too long\n", out);
        return Printed::ToError(9);
    }
    put_listing(mask, text, out)
}

// How the program is used, which it says where its argument is no mask.
pub fn usage_text(out: &mut [u8; 16387]) -> usize
    ensures value { result ≡ length how_to_use }
    ensures out_after { out.new ≡ over how_to_use out.old }
    ensures prefix_len { IsPrefixLen result out.new }
{
    let _ = put_bytes(
        b"usage: import_listing MASK < TEXT, where MASK is two hex digits, 00 to FF\n",
        out,
    );
    74
}
