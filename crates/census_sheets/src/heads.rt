// Parts 36 and 37: blocks of a head and no words, with each width byte and with each mark.
use crate::block::{Leaf, MARK};
use crate::reading::take_reading;
use crate::row::Room;
use census::digest::Digest;
use census::line::print_line;

// Part 36: a line for each count.
pub(crate) fn print_width_bytes() {
    for count in [1, 63] {
        let mut digest = Digest::EMPTY;
        for v in 0..=255 {
            let leaf = Leaf::headed(MARK, v, count, v as u32);
            take_reading(&mut digest, leaf.sealed().block(), Room { words: 64 });
        }
        print_line("widthbyte", &[count as u64], digest);
    }
}

// Part 37.
pub(crate) fn print_marks() {
    let mut digest = Digest::EMPTY;
    for v in 0..=255 {
        let leaf = Leaf::headed(v, 16, 1, v as u32);
        take_reading(&mut digest, leaf.sealed().block(), Room { words: 4 });
    }
    print_line("mark", &[16], digest);
}
