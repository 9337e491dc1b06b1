// Parts 57 and 58: the ways of words from width to width, of which the laws of moving speak (paper 02, Wish 14).
use crate::draws::drawn_width;
use bounds::answer::Written;
use bounds::good::GoodWidth;
use bounds::refusal::Refusal;
use bounds::width::Width;
use census::digest::Digest;
use census::runs::print_runs;
use census::sequence::Sequence;
use census::widths::{WIDEST_WHOLE, words_of};
use order::order::{compare, negate};
use round::value::Rule;
use write::moving::move_word;

// From a to b, on to c, and back to b.
#[derive(Clone, Copy)]
struct Way {
    a: Width,
    b: Width,
    c: Width,
}

// Part 57: by every b up to 16, and a c that changes with the word and with b, beside the next word.
pub(crate) fn print_ways(good: GoodWidth) {
    let n = good.bits;
    print_runs("way", &[n as u64], 0..words_of(n), 256, |digest, w| {
        let next = w.wrapping_add(1) & good.ones();
        for b in Width::LEAST..=WIDEST_WHOLE {
            let way = Way {
                a: Width { bits: n },
                b: Width { bits: b },
                c: drawn_width(w % 63 + 7 * b as u64),
            };
            way.take(digest, w, next);
        }
    });
}

// Part 58: a draw takes four numbers from the sequence.
pub(crate) fn print_drawn_ways(good: GoodWidth) {
    let n = good.bits as u64;
    let mut sequence = Sequence::of(60_000 + n);
    print_runs("drawnway", &[n], 0..1024, 256, |digest, _| {
        let w = sequence.next_word(good);
        let x = sequence.next_word(good);
        let way = Way {
            a: Width::from(good),
            b: drawn_width(sequence.next_number()),
            c: drawn_width(sequence.next_number()),
        };
        way.take(digest, w, x);
    });
}

impl Way {
    // The way of w, beside x. No word is refused here, since the widths are good and the words are cut to them: 0 stands for what doesn't come up.
    fn take(self, digest: &mut Digest, w: u64, x: u64) {
        let Way { a, b, c } = self;
        let there = rounded(a, b, w);
        let out = rounded(b, c, word_of(there));
        digest.take(there);
        digest.take(out);
        digest.take(rounded(c, b, word_of(out)));
        digest.take(rounded(a, c, w));
        digest.take(rounded(a, b, negate(a, w).unwrap_or(0)));
        digest.take(compare(a, w, x));
        let beside = rounded(a, b, x);
        digest.take(compare(b, word_of(there), word_of(beside)));
    }
}

fn rounded(from: Width, to: Width, word: u64) -> Result<Written, Refusal> {
    move_word(from, to, Rule::Rounded, word)
}

fn word_of(answer: Result<Written, Refusal>) -> u64 {
    answer.map_or(0, |written| written.word)
}
