// Writers of the fields that messages share, each into the room that is lent for it, from its start.
// Too little room is refusal 7, and then nothing changes; else exactly the counted bytes are written, and the rest stays as it was.
ghost use Rattle.std.specs.Prelude.{◌≡◌, [], ◌∷◌, ◌^◌, ◌≤◌, ◌<◌, length};
ghost use Rattle.paper.specs.Answer.{accepted};
ghost use Rattle.paper.specs.Bytes.{to_bytes};
ghost use Rattle.wire.specs.Prefix.{prefix_len, prefix_most};
ghost use Rattle.wire.specs.Size.{value};
ghost use Rattle.wire.specs.Writing.{Wrote, Filled, counted_run, sizes_out};

use crate::prefix::Prefix;
use crate::refusal::Refusal;
use crate::size::{Size, width_of, width_of_both};

// The bytes as they are.
pub fn put_bytes(src: &[u8], out: &mut [u8]) -> Result<usize, Refusal>
    ensures { Wrote (accepted src.now) out.old result out.new }
{
    let needed = src.len();
    let room = out.len();
    if room < needed {
        return Err(Refusal::NoRoom { needed, room });
    }
    // A loop, and no `copy_from_slice`: that is a call of `memmove`, which the archive for C would need from outside.
    for i in 0..needed {
        out[i] = src[i];
    }
    Ok(needed)
}

pub fn put_byte(x: u8, out: &mut [u8]) -> Result<usize, Refusal>
    ensures { Wrote (accepted (x ∷ [])) out.old result out.new }
{
    put_bytes(&[x], out)
}

// High byte first, here and below. A function for each width: `to_be_bytes` is a method of each type of number, and of no trait of std.
#[tactic(auto, using(crate::proofs::FieldBytes::be_bytes))]
pub fn put_two(x: u16, out: &mut [u8]) -> Result<usize, Refusal>
    ensures { Wrote (accepted (to_bytes 2 x)) out.old result out.new }
{
    put_bytes(&u16::to_be_bytes(x), out)
}

#[tactic(auto, using(crate::proofs::FieldBytes::be_bytes))]
pub fn put_eight(x: u64, out: &mut [u8]) -> Result<usize, Refusal>
    ensures { Wrote (accepted (to_bytes 8 x)) out.old result out.new }
{
    put_bytes(&u64::to_be_bytes(x), out)
}

// A number that fits in `width` bytes: stored from the low byte up to the front.
fn put_half(x: u64, width: usize, out: &mut [u8]) -> Result<usize, Refusal>
    requires { x < 256 ^ width }
    ensures { Wrote (accepted (to_bytes width x)) out.old result out.new }
{
    let needed = width;
    let room = out.len();
    if room < needed {
        return Err(Refusal::NoRoom { needed, room });
    }
    let mut rest = x;
    for i in (0..width).rev() {
        out[i] = (rest % 256) as u8;
        rest /= 256;
    }
    Ok(needed)
}

// A size that fits in `width` bytes: up to eight of them hold its low half, and those in front of eight its high half.
fn write_be_uint(x: Size, width: usize, out: &mut [u8]) -> Result<usize, Refusal>
    requires { (value x < 256 ^ width) × (width ≤ 16) }
    ensures { Wrote (accepted (to_bytes width (value x))) out.old result out.new }
{
    if width <= 8 {
        return put_half(x.low, width, out);
    }
    let room = out.len();
    if room < width {
        return Err(Refusal::NoRoom {
            needed: width,
            room,
        });
    }
    // The room was checked first, so that a refused write changes nothing: now no part is refused, and the answers are dropped, here and below.
    let high = width - 8;
    let _ = put_half(x.high, high, out);
    let _ = put_eight(x.low, &mut out[high..]);
    Ok(width)
}

// A count or a width in one byte or in two, which hold it.
fn put_head(prefix: Prefix, n: usize, out: &mut [u8]) -> Result<usize, Refusal>
    requires { n ≤ prefix_most prefix }
    ensures { Wrote (accepted (to_bytes (prefix_len prefix) n)) out.old result out.new }
{
    match prefix {
        Prefix::One => put_byte(n as u8, out),
        Prefix::Two => put_two(n as u16, out),
    }
}

// The bytes of `src` after their count; more of them than the count holds are refusal 2, judged before the room.
pub fn put_counted(prefix: Prefix, src: &[u8], out: &mut [u8]) -> Result<usize, Refusal>
    ensures { Wrote (counted_run (prefix_len prefix) (prefix_most prefix) src.now) out.old result out.new }
{
    if prefix.most() < src.len() {
        return Err(Refusal::WrongFormat { good: 0 });
    }
    let at = prefix.len();
    let needed = at + src.len();
    let room = out.len();
    if room < needed {
        return Err(Refusal::NoRoom { needed, room });
    }
    let _ = put_head(prefix, src.len(), out);
    let _ = put_bytes(src, &mut out[at..]);
    Ok(needed)
}

// One size at its smallest width, after the width.
pub fn put_one_size(prefix: Prefix, x: Size, out: &mut [u8]) -> Result<usize, Refusal>
    ensures { Wrote (accepted (sizes_out (prefix_len prefix) (value x ∷ []))) out.old result out.new }
{
    let first = prefix.len();
    let width = width_of(x);
    let needed = first + width;
    let room = out.len();
    if room < needed {
        return Err(Refusal::NoRoom { needed, room });
    }
    let _ = put_head(prefix, width, out);
    let _ = write_be_uint(x, width, &mut out[first..]);
    Ok(needed)
}

// Two sizes at the smallest width that holds both, after the width.
pub fn put_two_sizes(prefix: Prefix, a: Size, b: Size, out: &mut [u8]) -> Result<usize, Refusal>
    ensures { Wrote (accepted (sizes_out (prefix_len prefix) (value a ∷ value b ∷ []))) out.old result out.new }
{
    let first = prefix.len();
    let width = width_of_both(a, b);
    let second = first + width;
    let needed = second + width;
    let room = out.len();
    if room < needed {
        return Err(Refusal::NoRoom { needed, room });
    }
    let _ = put_head(prefix, width, out);
    let _ = write_be_uint(a, width, &mut out[first..]);
    let _ = write_be_uint(b, width, &mut out[second..]);
    Ok(needed)
}
