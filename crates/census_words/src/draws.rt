// Part 10: the writings of a drawn size, and the moves of a drawn word to a drawn width.
use crate::moves::take_moves;
use crate::size::Size;
use crate::writings::take_writings;
use bounds::good::GoodWidth;
use bounds::width::Width;
use census::runs::print_runs;
use census::sequence::Sequence;
use census::widths::DRAWN;

// A draw takes five numbers from the sequence. Exponents run from -352 to 287.
pub(crate) fn print_draws(good: GoodWidth) {
    let n = good.bits as u64;
    let width = Width::from(good);
    let mut sequence = Sequence::of(1000 + n);
    print_runs("draw", &[n], 0..DRAWN, 256, |digest, _| {
        let bits = sequence.next_number();
        let m = bits >> (sequence.next_number() % 64);
        let k = (sequence.next_number() % 640) as i32 - 352;
        let word = sequence.next_word(good);
        let to = drawn_width(sequence.next_number());
        take_writings(digest, width, Size { m, k });
        take_moves(digest, width, to, word);
    });
}

// One of the 63 widths.
pub(crate) fn drawn_width(x: u64) -> Width {
    Width {
        bits: Width::LEAST + (x % 63) as u32,
    }
}
