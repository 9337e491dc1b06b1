// Parts 23 to 25: the ways in of drawn binary64 numbers, of those at powers of two, and of the extreme ones.
use crate::around::{both_signs, three};
use crate::numbers::{INFINITY, NAN};
use crate::patterns::{drawn_of_words, drawn_pattern, pattern_out};
use crate::ways::take_binary64_in;
use bounds::good::GoodWidth;
use bounds::width::Width;
use census::digest::Digest;
use census::line::print_line;
use census::runs::print_runs;
use census::sequence::Sequence;
use census::widths::{DRAWN, TOP_BIT};

// Part 23. A draw takes three numbers from the sequence: the first chooses the kind and the sign, the others make the number.
pub(crate) fn print_numbers(good: GoodWidth) {
    let n = good.bits as u64;
    let width = Width::from(good);
    let mut sequence = Sequence::of(7000 + n);
    print_runs("binary", &[n], 0..DRAWN, 256, |digest, _| {
        let x1 = sequence.next_number();
        let x2 = sequence.next_number();
        let x3 = sequence.next_number();
        let kind = x1 % 32;
        let sign = (x1 << 58) & TOP_BIT;
        if kind < 20 {
            take_binary64_in(digest, width, drawn_pattern(kind, x2, x3) | sign);
        } else {
            for pattern in three(drawn_of_words(kind, good, x2) | sign) {
                take_binary64_in(digest, width, pattern);
            }
        }
    });
}

// Part 24: around 2^c, from c = -257 on.
pub(crate) fn print_twos(good: GoodWidth) {
    let mut digest = Digest::EMPTY;
    for field in 766..1280 {
        take_three(&mut digest, good, field << 52);
    }
    print_line("twos", &[good.bits as u64], digest);
}

// Part 25: the extreme numbers, and those of the smallest positive word and of the largest.
pub(crate) fn print_extreme(good: GoodWidth) {
    let width = Width::from(good);
    let mut digest = Digest::EMPTY;
    for x in [
        0,
        1,
        0xf_ffff_ffff_ffff,
        0x10_0000_0000_0000,
        INFINITY - 1,
        INFINITY,
    ] {
        for pattern in both_signs(x) {
            take_binary64_in(&mut digest, width, pattern);
        }
    }
    take_binary64_in(&mut digest, width, NAN);
    for word in [1, good.largest()] {
        take_three(&mut digest, good, pattern_out(width, word));
    }
    print_line("extreme", &[good.bits as u64], digest);
}

// Three patterns in a row, each with both signs.
fn take_three(digest: &mut Digest, good: GoodWidth, middle: u64) {
    for x in three(middle) {
        for pattern in both_signs(x) {
            take_binary64_in(digest, Width::from(good), pattern);
        }
    }
}
