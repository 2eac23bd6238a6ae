// Codes as the workshop writes them, and listings as text: a code written and read, a listing exported and imported.
ghost use Rattle.std.specs.Prelude.{◌≡◌};
ghost use Rattle.paper.specs.Answer.{accepted};
ghost use Rattle.paper.specs.TroubleCode.{trouble_code};
ghost use Rattle.paper.specs.CodeText.{code_text, read_code_text, export_in, import_listing};
ghost use Rattle.station.specs.Records.{WroteRecord, code_record};
ghost use Rattle.workshop.specs.Listings.{listing_handed};

use station::records::{TroubleCodeRecord, WrittenRecord};

// A code in eight characters.
#[unsafe(no_mangle)]
pub extern "C" fn skr_code_text(high: u8, middle: u8, low: u8, out: &mut [u8]) -> WrittenRecord
    ensures { WroteRecord (accepted (code_text (trouble_code high middle low))) out.old result out.new }
{
    workshop::texts::skr_code_text(high, middle, low, out)
}

// The code that a text of eight characters is.
#[unsafe(no_mangle)]
pub extern "C" fn skr_read_code_text(text: &[u8]) -> TroubleCodeRecord
    ensures { result ≡ code_record (read_code_text text.now) }
{
    workshop::texts::skr_read_code_text(text)
}

// A listing as text, one line to a code.
#[unsafe(no_mangle)]
pub extern "C" fn skr_export_listing(sub: u8, listing: &[u8], out: &mut [u8]) -> WrittenRecord
    ensures { WroteRecord (export_in (listing_handed «sub» listing.now)) out.old result out.new }
{
    workshop::texts::skr_export_listing(sub, listing, out)
}

// Such a text as a listing of sub-function 0x02, with this availability mask.
#[unsafe(no_mangle)]
pub extern "C" fn skr_import_listing(mask: u8, text: &[u8], out: &mut [u8]) -> WrittenRecord
    ensures { WroteRecord (import_listing mask text.now) out.old result out.new }
{
    workshop::texts::skr_import_listing(mask, text, out)
}
