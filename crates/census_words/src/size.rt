// Sizes m * 2^k: the size of a word, and the sizes that lie just below and just above a size. No exponent of theirs comes near the ends of i32.
ghost use Rattle.std.specs.Prelude.{pos, negsuc, ◌+ℤ◌, ◌≤ℤ◌};

use bounds::width::Width;
use census::widths::TOP_BIT;
use word::reading::{Kind, Reading, read};

#[derive(Clone, Copy)]
pub(crate) struct Size {
    pub(crate) m: u64,
    pub(crate) k: i32,
}

impl Size {
    // The size of a positive word, with an odd significand. Where the library reads no number, the size 0 has to show it.
    pub(crate) fn of_word(width: Width, word: u64) -> Size
        ensures { (negsuc 599 ≤ℤ result.k) × (result.k ≤ℤ pos 400) }
    {
        match read(width, word) {
            Ok(
                Reading {
                    kind: Kind::Number { h, m, p, .. },
                    ..
                },
            ) => Size {
                m,
                k: h.saturating_sub_unsigned(p),
            }
            .odd(),
            _ => Size { m: 0, k: 0 },
        }
    }

    // The same size without its factors two. Only zero has 64 of them.
    pub(crate) fn odd(self) -> Size
        ensures { (self.k ≤ℤ result.k) × (result.k ≤ℤ (self.k +ℤ pos 64)) }
    {
        let twos = self.m.trailing_zeros();
        if twos < 64 {
            return Size {
                m: self.m >> twos,
                k: self.k.saturating_add_unsigned(twos),
            };
        }
        self
    }

    // The same size with the top bit of its significand set. Only zero has none to set.
    pub(crate) fn full(self) -> Size
        ensures { (self.k ≤ℤ (result.k +ℤ pos 64)) × (result.k ≤ℤ self.k) }
    {
        let zeros = self.m.leading_zeros();
        if zeros < 64 {
            return Size {
                m: self.m << zeros,
                k: self.k.saturating_sub_unsigned(zeros),
            };
        }
        self
    }

    // The next full size below a full size.
    pub(crate) fn just_below(self) -> Size
        ensures { result.k ≤ℤ self.k }
    {
        if self.m <= TOP_BIT {
            return Size {
                m: u64::MAX,
                k: self.k.saturating_sub(1),
            };
        }
        Size {
            m: self.m - 1,
            ..self
        }
    }

    // The next full size above a full size.
    pub(crate) fn just_above(self) -> Size
        ensures { result.k ≤ℤ (self.k +ℤ pos 1) }
    {
        if self.m < u64::MAX {
            return Size {
                m: self.m + 1,
                ..self
            };
        }
        Size {
            m: TOP_BIT,
            k: self.k.saturating_add(1),
        }
    }
}
