// What changed between two listings.
ghost use Rattle.paper.specs.Changes.{without_repeats, compared_in};
ghost use Rattle.workshop.specs.Listings.{listing_handed};
ghost use Rattle.workshop.specs.Changes.{ComparedRecord};

use workshop::changes::ChangesRecord;

// What changed between two listings, as entries of 6 bytes at the start of the room.
#[unsafe(no_mangle)]
pub extern "C" fn skr_listing_changes(
    first_sub: u8,
    first: &[u8],
    second_sub: u8,
    second: &[u8],
    out: &mut [u8],
) -> ChangesRecord
    ensures { ComparedRecord (compared_in (without_repeats (listing_handed first_sub first.now)) (without_repeats (listing_handed second_sub second.now)) out.old) result out.new }
{
    workshop::changes::skr_listing_changes(first_sub, first, second_sub, second, out)
}
