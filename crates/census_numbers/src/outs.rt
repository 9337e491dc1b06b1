// Parts 13 to 17: the ways out of every word, of drawn words, and of the words at powers of two.
use crate::around::{both, four, three};
use crate::drawn::without_lowest;
use crate::ways::{take_out, take_out_as_binary64};
use bounds::good::GoodWidth;
use bounds::width::Width;
use census::digest::Digest;
use census::line::print_line;
use census::runs::print_runs;
use census::sequence::Sequence;
use census::widths::{WIDEST_WHOLE, words_of};
use round::value::Rule;
use write::value::Value;
use write::writing::write;

// Parts 13 and 14. At a place the word is the place's own number where every word is taken, and else a drawn one.
pub(crate) fn print_outs(good: GoodWidth) {
    let n = good.bits as u64;
    let width = Width::from(good);
    let mut sequence = Sequence::of(5000 + n);
    print_runs("out", &[n], 0..words_of(good.bits), 256, |digest, place| {
        let word = if good.bits <= WIDEST_WHOLE {
            place
        } else {
            drawn_word(&mut sequence, good)
        };
        take_out(digest, width, word);
    });
}

// About every second word has zeros at its end, so that more words are whole numbers.
fn drawn_word(sequence: &mut Sequence, width: GoodWidth) -> u64 {
    let word = sequence.next_word(width);
    let cut = sequence.next_number();
    if cut % 2 == 1 {
        return without_lowest(word, (cut >> 1) % width.bits as u64);
    }
    word
}

// Part 15: around the powers of two.
pub(crate) fn print_out_edge(good: GoodWidth) {
    let mut digest = Digest::EMPTY;
    for k in 0..good.bits {
        take_four_out(&mut digest, good, 1 << k);
    }
    print_line("outedge", &[good.bits as u64], digest);
}

// Part 16: around the words of value 2^c.
pub(crate) fn print_out_power(good: GoodWidth) {
    let mut digest = Digest::EMPTY;
    for c in -1..=64 {
        let word = word_of_power(good, c).unwrap_or(0);
        take_four_out(&mut digest, good, word);
    }
    print_line("outpower", &[good.bits as u64], digest);
}

// x - 2 to x + 1, each with its negation.
fn take_four_out(digest: &mut Digest, good: GoodWidth, x: u64) {
    for neighbour in four(x) {
        for word in both(neighbour) {
            take_out(digest, Width::from(good), word & good.ones());
        }
    }
}

// Part 17: below the word of value 2^(c+1), from c = -255 on. There is none for c = 254: past the largest word comes NaR. Words
// are taken around those that lie a power of two from 1 to 64 below it. The check doesn't know that a place is below 510, so it is cut.
pub(crate) fn print_out_full(good: GoodWidth) {
    let n = good.bits as u64;
    print_runs("outfull", &[n], 0..510, 64, |digest, place| {
        let next = word_of_power(good, place.min(509) as i32 - 254).unwrap_or(good.nar());
        for below in [1, 2, 4, 8, 16, 32, 64] {
            for x in three(next.wrapping_sub(below)) {
                for word in both(x) {
                    take_out_as_binary64(digest, Width::from(good), word & good.ones());
                }
            }
        }
    });
}

// The word of value 2^c, if there is one.
fn word_of_power(good: GoodWidth, c: i32) -> Option<u64> {
    let power = Value {
        negative: false,
        m: 1,
        k: c,
    };
    let width = Width::from(good);
    let written = write(width, Rule::Strict, power).ok()?;
    Some(written.word)
}
