// Parts 2 to 4: the facts of every word at the widths up to 16, of words of a pseudo-random sequence above, and of the powers of two.
use crate::facts::take_facts;
use bounds::good::GoodWidth;
use census::digest::Digest;
use census::line::print_line;
use census::runs::print_runs;
use census::sequence::Sequence;
use census::widths::{WIDEST_WHOLE, words_of};

// Parts 2 and 3. At a place the word is the place's own number where every word is taken, and else the next of the sequence. Beside it goes the next
// word of the sequence.
pub(crate) fn print_words(width: GoodWidth) {
    let n = width.bits;
    let mut sequence = Sequence::of(n as u64);
    print_runs("word", &[n as u64], 0..words_of(n), 256, |digest, place| {
        let word = if n <= WIDEST_WHOLE {
            place
        } else {
            sequence.next_word(width)
        };
        take_facts(digest, width, word, sequence.next_word(width));
    });
}

// Part 4: each power of two and the word just below it.
pub(crate) fn print_edge(width: GoodWidth) {
    let mut digest = Digest::EMPTY;
    for k in 0..width.bits {
        let power = 1 << k;
        take_facts(&mut digest, width, power, power - 1);
        take_facts(&mut digest, width, power - 1, power);
    }
    print_line("edge", &[width.bits as u64], digest);
}
