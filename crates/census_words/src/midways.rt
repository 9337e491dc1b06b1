// Parts 41 and 42: the roundings of long values at and beside the midpoint between a word and the next one.
ghost use Rattle.std.specs.Prelude.{◌≤ℤ◌};

use crate::long::{Long, take_roundings};
use crate::size::Size;
use bounds::good::GoodWidth;
use bounds::width::Width;
use census::digest::Digest;
use census::runs::print_runs;
use census::sequence::{Sequence, drawn_up_to};
use census::widths::TOP_BIT;

// Part 41.
pub(crate) fn print_midways(good: GoodWidth) {
    let n = good.bits;
    print_runs(
        "midway",
        &[n as u64],
        1..good.largest(),
        256,
        |digest, word| {
            take_midway(digest, Width { bits: n }, word);
        },
    );
}

// Part 42: a drawn one of the words from 1 to the last one that has a next one.
pub(crate) fn print_drawn_midways(good: GoodWidth) {
    let n = good.bits;
    let mut sequence = Sequence::of(9000 + n as u64);
    print_runs("midway", &[n as u64], 0..512, 256, |digest, _| {
        let word = drawn_up_to(good.largest().saturating_sub(1), sequence.next_number());
        take_midway(digest, Width { bits: n }, word);
    });
}

// The offers around the midpoint above a word.
fn take_midway(digest: &mut Digest, width: Width, word: u64) {
    let middle = midpoint(
        Size::of_word(width, word).full(),
        Size::of_word(width, word.wrapping_add(1)).full(),
    );
    for long in [middle.one_less(), middle, middle.one_more(), middle.odd()] {
        take_roundings(digest, width, long);
    }
}

// Half the sum of the sizes of two neighbours, both full, the higher one at most 64 above. Nothing of it is lost: words have so few digits.
fn midpoint(low: Size, high: Size) -> Long
    ensures { result.k ≤ℤ high.k }
{
    let gap = high.k.abs_diff(low.k).min(64);
    if gap == 0 {
        // The sum has a bit more than they have, at the top.
        let sum = low.m.wrapping_add(high.m);
        return Long {
            high: TOP_BIT | sum >> 1,
            low: sum << 63,
            k: high.k.saturating_sub(64),
        };
    }
    // The higher one is a power of two, and the sum has as many bits as it has.
    Long {
        high: high.m.wrapping_add((low.m >> 1) >> (gap - 1)),
        low: low.m << (64 - gap),
        k: high.k.saturating_sub(65),
    }
}
