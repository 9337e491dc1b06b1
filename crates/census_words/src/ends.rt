// Part 52: the writings and the roundings at both ends of a width, and just inside and outside of them.
ghost use Rattle.std.specs.Prelude.{◌≤ℤ◌};

use crate::long::{Long, take_roundings};
use crate::midpoints::take_around;
use crate::size::Size;
use bounds::good::GoodWidth;
use bounds::width::Width;
use census::digest::Digest;
use census::line::print_line;
use census::widths::TOP_BIT;

// The smallest positive word and the largest: the size itself and those around it, also as a long value.
pub(crate) fn print_ends(good: GoodWidth) {
    let width = Width::from(good);
    let mut digest = Digest::EMPTY;
    for word in [1, good.largest()] {
        let size = Size::of_word(width, word);
        take_around(&mut digest, width, size);
        let full = size.full();
        let itself = Long {
            high: full.m,
            low: 0,
            k: full.k.saturating_sub(64),
        };
        for long in [just_below(itself), itself, itself.one_more()] {
            take_roundings(&mut digest, width, long);
        }
    }
    print_line("ends", &[good.bits as u64], digest);
}

// Below a power of two the significand has its top bit only one place lower.
fn just_below(long: Long) -> Long
    ensures { result.k ≤ℤ long.k }
{
    if long.high <= TOP_BIT {
        return Long {
            high: u64::MAX,
            low: u64::MAX,
            k: long.k.saturating_sub(1),
        };
    }
    long.one_less()
}
