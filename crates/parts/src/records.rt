// The records that cross the doors: numbers in a fixed layout, since C reads them. Each begins with the refusal's number (0 for accepted) and the two values that it carries, and ends with
// `tail`, where the part ends; after a refusal every other field is 0.

// A name or a block length that was read: `start` and `len` are its place, after the count.
#[repr(C)]
#[derive(Clone, Copy, Default)]
pub struct PartRecord {
    pub number: u64,
    pub first: u64,
    pub second: u64,
    pub start: u64,
    pub len: u64,
    pub tail: u64,
}

// Sizes that were read, each in two halves; one that stands alone is the uncompressed.
#[repr(C)]
#[derive(Clone, Copy, Default)]
pub struct SizesRecord {
    pub number: u64,
    pub first: u64,
    pub second: u64,
    pub uncompressed_high: u64,
    pub uncompressed_low: u64,
    pub compressed_high: u64,
    pub compressed_low: u64,
    pub tail: u64,
}

#[repr(C)]
#[derive(Clone, Copy, Default)]
pub struct PositionRecord {
    pub number: u64,
    pub first: u64,
    pub second: u64,
    pub position: u64,
    pub tail: u64,
}
