// Part 7: the writings of the value of a word, and of the sizes at and beside the midpoint between it and the next word.
use crate::size::Size;
use crate::writings::take_writings;
use bounds::good::GoodWidth;
use bounds::width::Width;
use census::digest::Digest;
use census::runs::print_runs;
use census::widths::TOP_BIT;

// The largest word has no next one.
pub(crate) fn print_midpoints(good: GoodWidth) {
    let n = good.bits;
    let width = Width { bits: n };
    print_runs("write", &[n as u64], 1..good.nar(), 256, |digest, word| {
        let size = Size::of_word(width, word);
        take_writings(digest, width, size);
        if word < good.largest() {
            take_between(digest, width, size, Size::of_word(width, word + 1));
        }
    });
}

// The midpoint doesn't depend on which of the two sizes has the lower exponent.
fn take_between(digest: &mut Digest, width: Width, a: Size, b: Size) {
    if a.k <= b.k {
        take_midpoint(digest, width, a, b);
    } else {
        take_midpoint(digest, width, b, a);
    }
}

// The midpoint is half the sum, so its exponent is one below the lower one.
fn take_midpoint(digest: &mut Digest, width: Width, low: Size, high: Size) {
    let gap = high.k.abs_diff(low.k);
    if gap < 64 {
        // The sum of two neighbours then is below 2^64, and nothing wraps.
        let middle = Size {
            m: low.m.wrapping_add(high.m << gap),
            k: low.k.saturating_sub(1),
        };
        take_around(digest, width, middle.odd());
    } else {
        // Below width 12 two powers of two can be 64 apart, and no more: the sum is 2^64 + 1, which is no significand.
        let below = Size { m: TOP_BIT, ..low };
        take_writings(digest, width, below);
        take_writings(digest, width, below.just_above());
    }
}

// A size itself, just below it and just above it.
pub(crate) fn take_around(digest: &mut Digest, width: Width, size: Size) {
    let full = size.full();
    take_writings(digest, width, size);
    take_writings(digest, width, full.just_below());
    take_writings(digest, width, full.just_above());
}
