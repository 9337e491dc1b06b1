// Part 51: the ways out of the words beside i and a half, where rounding to the nearest whole number turns.
use crate::around::{both, four, three};
use crate::ways::take_out;
use bounds::good::GoodWidth;
use bounds::width::Width;
use census::digest::Digest;
use census::line::print_line;
use round::value::Rule;
use write::value::Value;
use write::writing::write;

// The whole numbers i: those up to 63, and then the four around each power of two from 2^6 on.
pub(crate) fn print_halves(good: GoodWidth) {
    let mut digest = Digest::EMPTY;
    for i in 0..64 {
        take_half(&mut digest, good, i);
    }
    for k in 6..56u32 {
        for i in four(1 << k) {
            take_half(&mut digest, good, i);
        }
    }
    print_line("half", &[good.bits as u64], digest);
}

// Around the word of i and a half, or the nearest one where the width has none. Where the library refuses it, the word 0 has to show it.
fn take_half(digest: &mut Digest, good: GoodWidth, i: u64) {
    let width = Width::from(good);
    let half = Value {
        negative: false,
        m: (i << 1) | 1,
        k: -1,
    };
    let middle = write(width, Rule::Rounded, half).map_or(0, |written| written.word);
    for x in three(middle) {
        for word in both(x) {
            take_out(digest, width, word & good.ones());
        }
    }
}
