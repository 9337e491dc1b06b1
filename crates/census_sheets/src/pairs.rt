// Part 31: short columns from each width to every width.
use crate::columns::{Move, draw_exact, draw_free};
use crate::row::Room;
use bounds::good::GoodWidth;
use census::digest::Digest;
use census::line::print_line;
use census::sequence::Sequence;
use census::widths::at_every_width;

// The sequence runs on from one target width to the next.
pub(crate) fn print_pairs(from: GoodWidth) {
    let n = from.bits as u64;
    let mut sequence = Sequence::of(30_000 + n);
    let mut digest = Digest::EMPTY;
    let mut column = [0; 8];
    at_every_width(|to| {
        draw_exact(&mut column, from, to, &mut sequence);
        Move::between(from, to, &column).take_two(&mut digest, Room { words: 8 });
        draw_free(&mut column, from, &mut sequence);
        Move::between(from, to, &column).take_two(&mut digest, Room { words: 12 });
    });
    print_line("pairs", &[n], digest);
}
