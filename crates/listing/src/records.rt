// The records of a listing, which stay in its message.
ghost use Rattle.listing.specs.Listing.{sub_of, Held};

use crate::SubFunction;

// So many records behind the three first bytes of a message that was read as a listing, and no byte more.
// `count` stands beside the message, since it is found by a division.
#[derive(Clone, Copy)]
pub(crate) struct Records<'a> {
    pub(crate) sub: SubFunction,
    pub(crate) message: &'a [u8],
    pub(crate) count: usize,
    ghost held: { Held (sub_of sub) count message.now },
}
