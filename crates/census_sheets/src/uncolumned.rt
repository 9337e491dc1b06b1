// Part 30: moving a short column where a width is bad.
use crate::columns::Move;
use crate::row::Room;
use bounds::width::Width;
use census::digest::Digest;
use census::widths::TOP_BIT;

// From the bad width, to it, and both.
pub(crate) fn take_uncolumned(digest: &mut Digest, bad: Width) {
    let good = Width { bits: 16 };
    let words = [1, TOP_BIT];
    for (from, to) in [(bad, good), (good, bad), (bad, bad)] {
        for length in [0, 1, 2] {
            let column = &words[..length];
            for words in [0, 1, 2] {
                Move { from, to, column }.take_two(digest, Room { words });
            }
        }
    }
}
