// Part 50: blocks of each count, read, and written again with what was read.
use crate::block::{Leaf, SIZE};
use crate::layout::Layout;
use crate::reading::take_reading_into;
use crate::row::{BESIDE, Room, number_row};
use crate::writing::Content;
use bounds::width::Width;
use census::digest::Digest;
use census::runs::print_runs;
use census::sequence::Sequence;

// The place is a block's count. It is at most 496, but the check doesn't know it, so it is cut.
pub(crate) fn print_again(w: Layout) {
    let mut sequence = Sequence::of(51_000 + w.number());
    let end = w.full as u64 + 1;
    print_runs("again", &[w.number()], 0..end, 64, |digest, place| {
        let leaf = Leaf::draw(w, place.min(496) as u16, &mut sequence);
        let words = place.min(496) as usize;
        take_again(digest, leaf, Room { words });
    });
}

// No block of this part is refused. Its count is at most 496 too.
fn take_again(digest: &mut Digest, leaf: Leaf, room: Room) {
    let mut row = number_row();
    let answer = take_reading_into(digest, leaf.block(), &mut row[..room.words + 2 * BESIDE]);
    if let Ok(block) = answer {
        let content = Content {
            width: Width { bits: block.width },
            number: block.number,
            words: &row[BESIDE..BESIDE + block.count.min(496) as usize],
        };
        content.take(digest, SIZE);
    }
}
