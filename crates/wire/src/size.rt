// Sizes: the numbers from 0 to 2^128 - 1, held as two halves. They are compared, and measured in bytes.
ghost use Rattle.std.specs.Prelude.{◌≡◌, [], ◌∷◌};
ghost use Rattle.paper.specs.Sizes.{Smallest, compare};
ghost use Rattle.wire.specs.Size.{value, order_of};

use std::cmp::Ordering;

// Two halves, and no `u128`: the doors take them from C and hand them to C one by one.
// The high half comes first, so the derived order is that of the numbers.
#[derive(Clone, Copy, Debug, PartialEq, Eq, PartialOrd, Ord)]
pub struct Size {
    pub high: u64,
    pub low: u64,
}

// The order of two sizes by their exact values.
// By name beside the derived order: docs/STATEMENTS.md names it.
pub fn compare(a: Size, b: Size) -> Ordering
    ensures { order_of result ≡ compare (value a) (value b) }
{
    a.cmp(&b)
}

// The smallest width from 1 to 16 that holds a size: a byte for every 8 bits, less one for every 8 zero bits that lead.
// They are counted in the top half, or in the low half where the top one is zero. `| 1` gives 0 its one byte, and leaves every other width as it is.
//     2^64 - 1    low half: no zero bit leads           8 -  0 / 8 = 8
//     2^64        top half: it is 1, and 63 lead       16 - 63 / 8 = 9
//     0           low half: 0 | 1 is 1, and 63 lead     8 - 63 / 8 = 1
pub fn width_of(x: Size) -> usize
    ensures { Smallest (value x ∷ []) result }
{
    if x.high == 0 {
        8 - u64::leading_zeros(x.low | 1) as usize / 8
    } else {
        16 - u64::leading_zeros(x.high) as usize / 8
    }
}

// The smallest width from 1 to 16 that holds both sizes. Two zeros take one byte.
pub fn width_of_both(a: Size, b: Size) -> usize
    ensures { Smallest (value a ∷ value b ∷ []) result }
{
    width_of(a.max(b))
}
