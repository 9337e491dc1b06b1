// The patterns of part 23, without the sign: of drawn fields, of a drawn word, and of the midpoint between two words.
use crate::drawn::without_lowest;
use crate::numbers::{INFINITY, NAN};
use binary64::taking::{Binary64, take_binary64};
use bounds::good::GoodWidth;
use bounds::width::Width;
use census::sequence::drawn_up_to;
use std::num::f64_to_bits_with_nan;

// The exponent field 1.
const FIELD: u64 = 0x10_0000_0000_0000;

// The kinds 0 to 19, each one number. In the kinds from 8 on they have about the sizes that words have, from 16 on with fewer digits.
pub(crate) fn drawn_pattern(kind: u64, x2: u64, x3: u64) -> u64 {
    let fraction = x2 % FIELD;
    let power = (766 + x3 % 514) << 52;
    match kind {
        0 => NAN,
        1 => INFINITY,
        2 => 0,
        3 => fraction >> (x3 % 52),
        4..=7 => ((x3 % 2047) << 52) | fraction,
        8..=15 => power | fraction,
        _ => power | without_lowest(fraction, (x3 >> 32) % 53),
    }
}

// The kinds 20 to 31: q, the number of a drawn word or the midpoint between two. At width 2 there is one positive word alone.
pub(crate) fn drawn_of_words(kind: u64, good: GoodWidth, x2: u64) -> u64 {
    let width = Width::from(good);
    let largest = good.largest();
    let itself = pattern_out(width, drawn_up_to(largest, x2));
    if kind < 24 || largest < 2 {
        return itself;
    }
    let word = drawn_up_to(largest - 1, x2);
    midpoint(pattern_out(width, word), pattern_out(width, word + 1)).unwrap_or(itself)
}

// The midpoint of two neighbours' patterns, if a binary64 number is the midpoint.
fn midpoint(low: u64, high: u64) -> Option<u64> {
    let gap = high.wrapping_sub(low);
    if gap < 2 {
        return None;
    }
    if gap <= FIELD {
        return Some(low.wrapping_add(gap >> 1));
    }
    // Two powers of two, so far apart: the midpoint is half of the higher one, and half of the lower one as its fraction.
    let apart = gap >> 52;
    if apart <= 52 {
        return Some(high.wrapping_sub(FIELD).wrapping_add(FIELD >> apart));
    }
    None
}

// The pattern of a word out as binary64. Where the library gives no number, the pattern 0 has to show it.
pub(crate) fn pattern_out(width: Width, word: u64) -> u64 {
    match take_binary64(width, word) {
        Binary64::Number(x) => f64_to_bits_with_nan(x),
        _ => 0,
    }
}
