// Part 35: a block with any set of faults.
ghost use Rattle.std.specs.Prelude.{◌≤◌};

use crate::block::{Leaf, MARK, SIZE};
use crate::layout::Layout;
use crate::reading::take_reading;
use crate::row::Room;
use census::digest::Digest;
use census::runs::print_runs;
use census::sequence::Sequence;

// Numbers and no enum: docs/CENSUS.md numbers the faults so, and a place, which is a set of them, is their sum.
const OF_SIZE: u64 = 1;

const OF_MARK: u64 = 2;

const OF_CHECK: u64 = 4;

const OF_WIDTH: u64 = 8;

const OF_COUNT: u64 = 16;

const OF_FILL: u64 = 32;

const OF_ROOM: u64 = 64;

// How often a set has a fault of the sum on the page: once or not at all.
pub(crate) fn times_in(faults: u64, fault: u64) -> u8
    requires { 1 ≤ fault }
    ensures { result ≤ 1 }
{
    (faults / fault % 2) as u8
}

// A place is a set of faults.
pub(crate) fn print_faults(w: Layout) {
    let mut sequence = Sequence::of(43_000 + w.number());
    let leaf = Leaf::draw(w, w.full as u16 / 2, &mut sequence);
    print_runs("fault", &[w.number()], 0..128, 16, |digest, faults| {
        take_faults(digest, w, leaf, faults);
    });
}

// The block, which has half as many words as it has room for, is changed, and read. Only CHECK is made after sealing.
fn take_faults(digest: &mut Digest, w: Layout, leaf: Leaf, faults: u64) {
    let mut spoilt = leaf;
    spoilt.put(
        0,
        &[
            MARK + times_in(faults, OF_MARK),
            w.number() as u8 + 4 * times_in(faults, OF_WIDTH),
        ],
    );
    let count = count_of(w, times_in(faults, OF_COUNT)) as u16;
    spoilt.put(2, &count.to_le_bytes());
    spoilt.put(503, &[times_in(faults, OF_FILL)]);
    spoilt.seal();
    spoilt.flip(508, times_in(faults, OF_CHECK));
    let lent = SIZE - times_in(faults, OF_SIZE) as usize;
    let words = w.full / 2 + 4 - 5 * times_in(faults, OF_ROOM) as usize;
    take_reading(digest, &spoilt.bytes[..lent], Room { words });
}

// Half as many words as there is room for, or one more than there is.
pub(crate) fn count_of(w: Layout, too_many: u8) -> usize
    ensures { result ≤ 497 }
{
    if too_many == 1 {
        return w.full + 1;
    }
    w.full / 2
}
