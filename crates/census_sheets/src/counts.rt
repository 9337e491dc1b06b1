// Parts 32 and 38: blocks of each count, read as they are, and with a bit set in a byte, used or unused.
use crate::block::Leaf;
use crate::layout::Layout;
use crate::reading::take_reading;
use crate::row::{Room, at_rooms_around};
use census::digest::Digest;
use census::line::print_line;
use census::sequence::Sequence;

// Part 32.
pub(crate) fn print_blocks(w: Layout) {
    let mut sequence = Sequence::of(40_000 + w.number());
    let full = w.full as u16;
    for count in [0, 1, 2, full - 1, full, full + 1, 65_535] {
        let leaf = Leaf::draw(w, count, &mut sequence);
        let mut digest = Digest::EMPTY;
        at_rooms_around(w.full.min(count as usize), |room| {
            take_reading(&mut digest, leaf.block(), room)
        });
        print_line("block", &[w.number(), count as u64], digest);
    }
}

// Part 38: with the top bit of a byte flipped, and sealed anew. The bytes are the first one of the words, the last one, the first one behind
// them, one in the middle of the rest, and the last one.
pub(crate) fn print_fills(w: Layout) {
    let mut sequence = Sequence::of(44_000 + w.number());
    for count in [0, 1, w.full - 1] {
        let leaf = Leaf::draw(w, count as u16, &mut sequence);
        let end = (8 + count * w.bytes()).min(504);
        let mut digest = Digest::EMPTY;
        for at in [8, end - 1, end, (end + 503) / 2, 503] {
            let mut changed = leaf;
            changed.flip(at, 0x80);
            take_reading(
                &mut digest,
                changed.sealed().block(),
                Room { words: count + 1 },
            );
        }
        print_line("fill", &[w.number(), count as u64], digest);
    }
}
