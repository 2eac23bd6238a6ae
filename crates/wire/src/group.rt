// Sizes in a message: of a width that is known, or in a group that says its width first.
ghost use Rattle.std.specs.Prelude.{◌≡◌, ◌+◌, ◌≤◌, ◌<◌, length, take, drop};
ghost use Rattle.paper.specs.Bytes.{of_bytes};
ghost use Rattle.wire.specs.Prefix.{prefix_len};
ghost use Rattle.wire.specs.Group.{UintRight, WidthRight, OneSizeRight, TwoSizesRight};

use crate::available::available_at;
use crate::number::{gather, pair};
use crate::prefix::Prefix;
use crate::refusal::Refusal;
use crate::size::Size;

// The size in `width` bytes, high byte first, and where the next field begins: they must be there, then the width must be from 1 to 16.
pub fn read_be_uint(s: &[u8], at: usize, width: usize) -> Result<(Size, usize), Refusal>
    ensures { UintRight width s.now at result }
{
    let available = available_at(s, at);
    if available < width {
        return Err(Refusal::TooShort {
            needed: width,
            available,
        });
    }
    if width < 1 {
        return Err(Refusal::BadWidth(width));
    }
    if 16 < width {
        return Err(Refusal::BadWidth(width));
    }
    Ok((gather(s, at, width), at + width))
}

// The number in the one or two bytes of `s` from `at` on, which are there.
pub(crate) fn head(prefix: Prefix, s: &[u8], at: usize) -> usize
    requires { at + prefix_len prefix ≤ length s.now }
    ensures { (result ≡ of_bytes (take (prefix_len prefix) (drop at s.now))) × (result < 65536) }
{
    match prefix {
        Prefix::One => usize::from(s[at]),
        Prefix::Two => usize::from(pair(s, at)),
    }
}

// The width of a group of `count` sizes: its head must be there, then all of its bytes, and then its width is judged.
fn width_at(prefix: Prefix, count: usize, s: &[u8], at: usize) -> Result<usize, Refusal>
    requires { count ≤ 2 }
    ensures { WidthRight (prefix_len prefix) count s.now at result }
{
    let available = available_at(s, at);
    let before = prefix.len();
    if available < before {
        return Err(Refusal::TooShort {
            needed: before,
            available,
        });
    }
    let w = head(prefix, s, at);
    let needed = before + count * w;
    if available < needed {
        return Err(Refusal::TooShort { needed, available });
    }
    if w < 1 {
        return Err(Refusal::BadWidth(w));
    }
    if 16 < w {
        return Err(Refusal::BadWidth(w));
    }
    Ok(w)
}

// A group of one size, and where the next field begins.
pub fn one_size_at(prefix: Prefix, s: &[u8], at: usize) -> Result<(Size, usize), Refusal>
    ensures { OneSizeRight (prefix_len prefix) s.now at result }
{
    let width = width_at(prefix, 1, s, at)?;
    let first = at + prefix.len();
    Ok((gather(s, first, width), first + width))
}

#[derive(Clone, Copy, Debug, PartialEq, Eq)]
pub struct TwoSizes {
    pub uncompressed: Size,
    pub compressed: Size,
}

// A group of two sizes of one width, the uncompressed first, and where the next field begins.
pub fn two_sizes_at(prefix: Prefix, s: &[u8], at: usize) -> Result<(TwoSizes, usize), Refusal>
    ensures { TwoSizesRight (prefix_len prefix) s.now at result }
{
    let width = width_at(prefix, 2, s, at)?;
    let first = at + prefix.len();
    let second = first + width;
    let sizes = TwoSizes {
        uncompressed: gather(s, first, width),
        compressed: gather(s, second, width),
    };
    Ok((sizes, second + width))
}
