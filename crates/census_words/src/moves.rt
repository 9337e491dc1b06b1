// Part 9: the moves of a word to other widths, each rounded and strict.
use bounds::good::GoodWidth;
use bounds::width::Width;
use census::digest::Digest;
use census::runs::print_runs;
use census::widths::words_of;
use round::value::Rule;
use write::moving::move_word;

// The widest width whose words go to every width.
const WIDEST_TO_ALL: u32 = 12;

pub(crate) fn print_moves(good: GoodWidth) {
    let n = good.bits;
    let width = Width { bits: n };
    print_runs("move", &[n as u64], 0..words_of(n), 256, |digest, word| {
        if n <= WIDEST_TO_ALL {
            take_moves_up_to(digest, width, Width::GREATEST, word);
        } else {
            take_moves_up_to(digest, width, 20, word);
            for bits in [24, 32, 48, 57, 58, 63, 64] {
                take_moves(digest, width, Width { bits }, word);
            }
        }
    });
}

fn take_moves_up_to(digest: &mut Digest, from: Width, last: u32, word: u64) {
    for bits in Width::LEAST..=last {
        take_moves(digest, from, Width { bits }, word);
    }
}

// The rounded move and the strict one.
pub(crate) fn take_moves(digest: &mut Digest, from: Width, to: Width, word: u64) {
    for rule in [Rule::Rounded, Rule::Strict] {
        digest.take(move_word(from, to, rule, word));
    }
}
