// The sums A and B over the block's 126 numbers, wrapping at 32 bits, both in one walk over the lent bytes where they lie.
ghost use Rattle.std.specs.Prelude.{◌≡◌};
ghost use Rattle.sheet.specs.Layout.{numbers, A, B};
ghost use Rattle.sheet.specs.Sums.{sum_a, sum_b};

use crate::bytes::Bytes;
use crate::numbers::number;

#[derive(Clone, Copy, PartialEq, Eq)]
pub(crate) struct Sums {
    pub(crate) a: u32,
    pub(crate) b: u32,
}

// A running value of A is added to B as soon as it is there. Neither the bytes nor the running values are kept: the handheld has little stack.
pub(crate) fn sums_of(block: Bytes<'_>) -> Sums
    ensures { (result.a ≡ sum_a (numbers block.entry.all.now)) × (result.b ≡ sum_b (numbers block.entry.all.now)) }
{
    let mut a: u32 = 0;
    let mut b: u32 = 0;
    for i in 0..126 {
        a = a.wrapping_add(number::<4>(block.all, 4 * i) as u32);
        b = b.wrapping_add(a);
    }
    Sums { a, b }
}

// The sums that stand in the block.
pub(crate) fn sums_in(block: Bytes<'_>) -> Sums
    ensures { (result.a ≡ A block.entry.all.now) × (result.b ≡ B block.entry.all.now) }
{
    Sums {
        a: number::<4>(block.all, 504) as u32,
        b: number::<4>(block.all, 508) as u32,
    }
}
