// Parts 33, 39 and 40: a block with each byte changed, with other bytes lent, and with another number.
use crate::block::Leaf;
use crate::layout::Layout;
use crate::reading::take_reading;
use crate::row::Room;
use census::digest::Digest;
use census::line::print_line;
use census::runs::print_runs;
use census::sequence::Sequence;

// Part 33: read as it is changed, and then sealed. The check doesn't know that a place is below 512, so it is cut.
pub(crate) fn print_bytes(w: Layout) {
    let mut sequence = Sequence::of(41_000 + w.number());
    let leaf = Leaf::draw(w, w.full as u16 / 2, &mut sequence);
    print_runs("byte", &[w.number()], 0..512, 64, |digest, place| {
        let x = 1 + (sequence.next_number() % 255) as u8;
        let mut changed = leaf;
        changed.flip(place.min(511) as usize, x);
        take_changed(digest, w, changed);
    });
}

fn take_changed(digest: &mut Digest, w: Layout, changed: Leaf) {
    let room = Room {
        words: w.full / 2 + 4,
    };
    take_reading(digest, changed.block(), room);
    take_reading(digest, changed.sealed().block(), room);
}

// Part 39: so many bytes are lent.
pub(crate) fn print_sizes(w: Layout) {
    let mut sequence = Sequence::of(45_000 + w.number());
    let leaf = Leaf::draw(w, w.full as u16, &mut sequence);
    let mut digest = Digest::EMPTY;
    for size in [0, 1, 2, 8, 503, 504, 511, 512, 513, 520] {
        take_reading(&mut digest, &leaf.bytes[..size], Room { words: w.full });
    }
    print_line("size", &[w.number()], digest);
}

// The block numbers of parts 40 and 49.
pub(crate) const NUMBERS: [u32; 9] = [
    0,
    1,
    255,
    256,
    65_535,
    65_536,
    0x7fff_ffff,
    0x8000_0000,
    u32::MAX,
];

// Part 40.
pub(crate) fn print_numbers(w: Layout) {
    let mut sequence = Sequence::of(46_000 + w.number());
    let mut leaf = Leaf::draw(w, 3, &mut sequence);
    let mut digest = Digest::EMPTY;
    for number in NUMBERS {
        leaf.put_number(1, number);
        take_reading(&mut digest, leaf.sealed().block(), Room { words: 3 });
    }
    print_line("number", &[w.number()], digest);
}
