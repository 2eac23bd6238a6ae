// A listing that can be searched.
ghost use Rattle.std.specs.Prelude.{◌≡◌};
ghost use Rattle.paper.specs.Listing.{index_of};
ghost use Rattle.listing.specs.Records.{listed_in};
ghost use Rattle.listing.specs.Index.{index_said};

use crate::index::Index;
use crate::records::Records;

// Its records, with their index.
#[derive(Clone, Copy)]
pub(crate) struct Searchable<'a> {
    pub(crate) records: Records<'a>,
    pub(crate) index: Index,
    ghost own: { index_said index ≡ index_of (listed_in records) },
}
