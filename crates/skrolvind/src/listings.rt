// Trouble-code listings: read, record by record, indexed, looked up, written. A sub-function that does not exist is 15, before anything else.
ghost use Rattle.std.specs.Prelude.{◌≡◌};
ghost use Rattle.paper.specs.TroubleCode.{trouble_code};
ghost use Rattle.paper.specs.Listing.{head_of, look_up_in};
ghost use Rattle.listing.specs.Index.{numbers_in};
ghost use Rattle.station.specs.Records.{WroteRecord};
ghost use Rattle.workshop.specs.Listings.{listing_handed, write_sub_handed, listing_record, listed_record};
ghost use Rattle.workshop.specs.Listings.{index_record, look_up_record};

use station::records::WrittenRecord;
use workshop::listings::{IndexRecord, ListedRecord, ListingRecord, LookUpRecord};

#[unsafe(no_mangle)]
pub extern "C" fn skr_read_listing(sub: u8, listing: &[u8]) -> ListingRecord
    ensures { result ≡ listing_record (head_of (listing_handed «sub» listing.now)) }
{
    workshop::listings::skr_read_listing(sub, listing)
}

// The record at a place, counted from 0.
#[unsafe(no_mangle)]
pub extern "C" fn skr_listing_record(sub: u8, listing: &[u8], place: usize) -> ListedRecord
    ensures { result ≡ listed_record place (listing_handed «sub» listing.now) }
{
    workshop::listings::skr_listing_record(sub, listing, place)
}

// The index beside a listing: all zeros beside a refusal.
#[unsafe(no_mangle)]
pub extern "C" fn skr_listing_index(sub: u8, listing: &[u8]) -> IndexRecord
    ensures { result ≡ index_record (listing_handed «sub» listing.now) }
{
    workshop::listings::skr_listing_index(sub, listing)
}

// The first record that has the code. Counts and first places are those of the listing's own index, 256 each.
#[unsafe(no_mangle)]
pub extern "C" fn skr_listing_lookup(
    sub: u8,
    listing: &[u8],
    counts: &[u32],
    firsts: &[u32],
    high: u8,
    middle: u8,
    low: u8,
) -> LookUpRecord
    ensures { result ≡ look_up_record (look_up_in (numbers_in counts.now firsts.now) (trouble_code high middle low) (listing_handed «sub» listing.now)) }
{
    workshop::listings::skr_listing_lookup(sub, listing, counts, firsts, high, middle, low)
}

// A listing from its mask and its records, seven bytes each: whether severity and functional unit are known, these two, three code bytes and a status byte.
#[unsafe(no_mangle)]
pub extern "C" fn skr_write_listing(
    sub: u8,
    mask: u8,
    records: &[u8],
    out: &mut [u8],
) -> WrittenRecord
    ensures { WroteRecord (write_sub_handed «sub» mask records.now) out.old result out.new }
{
    workshop::listings::skr_write_listing(sub, mask, records, out)
}
