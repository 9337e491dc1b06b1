// Long sizes (high * 2^64 + low) * 2^k, and their four roundings. No exponent of theirs comes near the ends of i32, but for those that part 44 names.
ghost use Rattle.std.specs.Prelude.{◌≡◌, pos, ◌+ℤ◌, ◌≤ℤ◌};

use crate::size::Size;
use crate::writings::take_four;
use bounds::width::Width;
use census::digest::Digest;
use round::value::LongValue;
use round::writing::write_long;

#[derive(Clone, Copy)]
pub(crate) struct Long {
    pub(crate) high: u64,
    pub(crate) low: u64,
    pub(crate) k: i32,
}

impl Long {
    // The lowest bit of a word's size in 128 bits, and that of a midpoint, is 0, so one more changes nothing else.
    pub(crate) fn one_more(self) -> Long
        ensures { result.k ≡ self.k }
    {
        Long {
            low: self.low | 1,
            ..self
        }
    }

    pub(crate) fn one_less(self) -> Long
        ensures { result.k ≡ self.k }
    {
        if self.low == 0 {
            return Long {
                high: self.high.wrapping_sub(1),
                low: u64::MAX,
                ..self
            };
        }
        Long {
            low: self.low - 1,
            ..self
        }
    }

    // The same size without its factors two.
    pub(crate) fn odd(self) -> Long
        ensures { (self.k ≤ℤ result.k) × (result.k ≤ℤ (self.k +ℤ pos 128)) }
    {
        let twos = self.low.trailing_zeros();
        if twos < 64 {
            return Long {
                high: self.high >> twos,
                low: (self.low >> twos) | ((self.high << 1) << (63 - twos)),
                k: self.k.saturating_add_unsigned(twos),
            };
        }
        let odd = Size {
            m: self.high,
            k: self.k,
        }
        .odd();
        Long {
            high: 0,
            low: odd.m,
            k: odd.k.saturating_add(64),
        }
    }
}

pub(crate) fn take_roundings(digest: &mut Digest, width: Width, long: Long) {
    let Long { high, low, k } = long;
    take_four(digest, |rule, negative| {
        write_long(
            width,
            rule,
            LongValue {
                negative,
                high,
                low,
                k,
            },
        )
    });
}
