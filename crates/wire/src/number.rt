// Numbers in bytes, high byte first.
ghost use Rattle.std.specs.Prelude.{◌≡◌, ◌+◌, ◌≤◌, ◌<◌, length, take, drop};
ghost use Rattle.paper.specs.Bytes.{of_bytes};
ghost use Rattle.wire.specs.Size.{value};
ghost use Rattle.wire.specs.Number.{ByteRight, EightRight};

use crate::available::available_at;
use crate::refusal::Refusal;
use crate::size::Size;

// The byte and where the next field begins, or the refusal.
pub fn byte_at(s: &[u8], at: usize) -> Result<(u8, usize), Refusal>
    ensures { ByteRight s.now at result }
{
    if s.len() <= at {
        return Err(Refusal::TooShort {
            needed: 1,
            available: 0,
        });
    }
    Ok((s[at], at + 1))
}

// The number in the `width` bytes of `s` from `at` on, which are there: the last eight are the low half, those before them the high half.
pub(crate) fn gather(s: &[u8], at: usize, width: usize) -> Size
    requires { (width ≤ 16) × (at + width ≤ length s.now) }
    ensures { value result ≡ of_bytes (take width (drop at s.now)) }
{
    if width < 8 {
        return Size {
            high: 0,
            low: few(s, at, width),
        };
    }
    let above = width - 8;
    Size {
        high: few(s, at, above),
        low: few(s, at + above, 8),
    }
}

// The number in at most eight bytes, which one half holds.
fn few(s: &[u8], at: usize, width: usize) -> u64
    requires { (width ≤ 8) × (at + width ≤ length s.now) }
    ensures { result ≡ of_bytes (take width (drop at s.now)) }
{
    let mut x = 0;
    for &b in &s[at..at + width] {
        x = x * 256 + u64::from(b);
    }
    x
}

// The number in the two bytes of `s` from `at` on, which are there.
pub(crate) fn pair(s: &[u8], at: usize) -> u16
    requires { at + 2 ≤ length s.now }
    ensures { result ≡ of_bytes (take 2 (drop at s.now)) }
{
    u16::from_be_bytes([s[at], s[at + 1]])
}

// The number in eight bytes and where the next field begins, or the refusal.
pub fn eight_at(s: &[u8], at: usize) -> Result<(u64, usize), Refusal>
    ensures { EightRight s.now at result }
{
    let available = available_at(s, at);
    if available < 8 {
        return Err(Refusal::TooShort {
            needed: 8,
            available,
        });
    }
    Ok((few(s, at, 8), at + 8))
}
