// Codes as the workshop writes them, and listings as text: a code written and read, a listing exported and imported.
ghost use Rattle.std.specs.Prelude.{◌≡◌};
ghost use Rattle.paper.specs.Answer.{accepted};
ghost use Rattle.paper.specs.TroubleCode.{trouble_code};
ghost use Rattle.paper.specs.CodeText.{code_text, read_code_text, export_in, import_listing};
ghost use Rattle.station.specs.Records.{WroteRecord, code_record};
ghost use Rattle.workshop.specs.Listings.{listing_handed};

use crate::listings::known_sub;
use code_text::code::{put_code_text, read_code_text};
use code_text::lines::{export_listing, import_listing};
use dtc::status::{DtcRecord, DtcStatusMask};
use station::records::{TroubleCodeRecord, WrittenRecord, flat};

// A code in eight characters.
#[unsafe(no_mangle)]
pub extern "C" fn skr_code_text(high: u8, middle: u8, low: u8, out: &mut [u8]) -> WrittenRecord
    ensures { WroteRecord (accepted (code_text (trouble_code high middle low))) out.old result out.new }
{
    flat(put_code_text(DtcRecord::new(high, middle, low), out))
}

// The code that a text of eight characters is.
#[unsafe(no_mangle)]
pub extern "C" fn skr_read_code_text(text: &[u8]) -> TroubleCodeRecord
    ensures { result ≡ code_record (read_code_text text.now) }
{
    flat(read_code_text(text))
}

// A listing as text, one line to a code.
#[unsafe(no_mangle)]
pub extern "C" fn skr_export_listing(sub: u8, listing: &[u8], out: &mut [u8]) -> WrittenRecord
    ensures { WroteRecord (export_in (listing_handed «sub» listing.now)) out.old result out.new }
{
    match known_sub(sub) {
        Ok(f) => flat(export_listing(f, listing, out)),
        Err(e) => e.into(),
    }
}

// Such a text as a listing of sub-function 0x02, with this availability mask.
#[unsafe(no_mangle)]
pub extern "C" fn skr_import_listing(mask: u8, text: &[u8], out: &mut [u8]) -> WrittenRecord
    ensures { WroteRecord (import_listing mask text.now) out.old result out.new }
{
    flat(import_listing(DtcStatusMask::from_bits(mask), text, out))
}
