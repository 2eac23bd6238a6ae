// What changed between two listings.
ghost use Rattle.std.specs.Prelude.{◌≡◌, Ok, Err};
ghost use Rattle.paper.specs.Changes.{without_repeats, compared_in};
ghost use Rattle.listing.specs.Changes.{which_said, changes_told, ComparedRight};
ghost use Rattle.workshop.specs.Listings.{listing_handed};
ghost use Rattle.workshop.specs.Changes.{changes_record, ComparedRecord};

use crate::listings::known_sub;
use listing::changes::{ChangesRefusal, listing_changes, read_once};
use station::records::flat;

// Which listing was refused, 0 where neither was, a number since C reads it; and how many bytes were written.
#[repr(C)]
#[derive(Clone, Copy, Default)]
pub struct ChangesRecord {
    pub number: u64,
    pub first: u64,
    pub second: u64,
    pub which: u64,
    pub written: u64,
}

impl From<usize> for ChangesRecord {
    ghost from_gives = { λ written r. r ≡ changes_record (which_said (Ok written)) (changes_told (Ok written)) };

    fn from(written: usize) -> ChangesRecord {
        ChangesRecord {
            written: written as u64,
            ..ChangesRecord::default()
        }
    }
}

impl From<ChangesRefusal> for ChangesRecord {
    ghost from_gives = { λ x r. r ≡ changes_record (which_said (Err x)) (changes_told (Err x)) };

    fn from(x: ChangesRefusal) -> ChangesRecord {
        let (which, e) = match x {
            ChangesRefusal::First(e) => (1, e),
            ChangesRefusal::Second(e) => (2, e),
            ChangesRefusal::Room(e) => (0, e),
        };
        ChangesRecord {
            number: e.number() as u64,
            first: e.first() as u64,
            second: e.second() as u64,
            which,
            ..ChangesRecord::default()
        }
    }
}

// A second sub-function that does not exist is 15 of the second listing, once the first is found good.
// It takes its door's own parameters: it is that door up to the record, so that `?` can leave it.
fn compare(
    first_sub: u8,
    first: &[u8],
    second_sub: u8,
    second: &[u8],
    out: &mut [u8],
) -> Result<usize, ChangesRefusal>
    ensures { ComparedRight (compared_in (without_repeats (listing_handed first_sub first.now)) (without_repeats (listing_handed second_sub second.now)) out.old) result out.new }
{
    let f = known_sub(first_sub).map_err(ChangesRefusal::First)?;
    match known_sub(second_sub) {
        Ok(g) => listing_changes(f, first, g, second, out),
        Err(e) => {
            let _ = read_once(f, first).map_err(ChangesRefusal::First)?;
            Err(ChangesRefusal::Second(e))
        }
    }
}

// What changed between two listings, as entries of 6 bytes at the start of the room.
#[unsafe(no_mangle)]
pub extern "C" fn skr_listing_changes(
    first_sub: u8,
    first: &[u8],
    second_sub: u8,
    second: &[u8],
    out: &mut [u8],
) -> ChangesRecord
    ensures { ComparedRecord (compared_in (without_repeats (listing_handed first_sub first.now)) (without_repeats (listing_handed second_sub second.now)) out.old) result out.new }
{
    flat(compare(first_sub, first, second_sub, second, out))
}
