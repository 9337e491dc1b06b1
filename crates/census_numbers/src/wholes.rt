// Parts 18 to 22: the ways in of whole numbers, and their rounds, in order, at limits, at powers of two, and drawn.
use crate::around::{both, five, three};
use crate::drawn::without_lowest;
use crate::ways::{take_out, take_round, take_whole_in};
use bounds::good::GoodWidth;
use bounds::width::Width;
use census::digest::Digest;
use census::line::print_line;
use census::runs::print_runs;
use census::sequence::Sequence;
use census::widths::TOP_BIT;

// How many places parts 18 and 53 have.
pub(crate) const IN_ORDER: u64 = 140_001;

// The number at a place of parts 18 and 53: the first one is -70,000.
pub(crate) fn number_at(place: u64) -> u64 {
    place.wrapping_sub(70_000)
}

// Part 18.
pub(crate) fn print_wholes(good: GoodWidth) {
    let n = good.bits as u64;
    let width = Width::from(good);
    print_runs("whole", &[n], 0..IN_ORDER, 4096, |digest, place| {
        take_whole_in(digest, width, number_at(place));
    });
}

// Part 19. Where the library refuses the width, the limit 0 has to show it.
pub(crate) fn print_limit(good: GoodWidth) {
    let width = Width::from(good);
    let mut digest = Digest::EMPTY;
    for x in five(width.limit().unwrap_or(0)) {
        for z in both(x) {
            take_round(&mut digest, width, z);
        }
    }
    print_line("limit", &[good.bits as u64], digest);
}

// Part 20: the ends, and the words around that of value 2^63. Below width 4 there is none.
pub(crate) fn print_brink(good: GoodWidth) {
    let width = Width::from(good);
    let mut digest = Digest::EMPTY;
    for z in ends() {
        take_round(&mut digest, width, z);
    }
    if good.bits >= 4 {
        for x in five(7 << (good.bits - 4)) {
            for word in both(x) {
                take_out(&mut digest, width, word & good.ones());
            }
        }
    }
    print_line("brink", &[good.bits as u64], digest);
}

// The four least numbers and the four greatest ones, from the ends on, one of each in turn.
pub(crate) fn ends() -> [u64; 8] {
    [
        TOP_BIT,
        TOP_BIT - 1,
        TOP_BIT + 1,
        TOP_BIT - 2,
        TOP_BIT + 2,
        TOP_BIT - 3,
        TOP_BIT + 3,
        TOP_BIT - 4,
    ]
}

// Part 21: around 2^k and 2^63 - 2^k.
pub(crate) fn print_power(good: GoodWidth) {
    let width = Width::from(good);
    let mut digest = Digest::EMPTY;
    for k in 1..63u32 {
        let power = 1 << k;
        for x in five(power) {
            for z in both(x) {
                take_whole_in(&mut digest, width, z);
            }
        }
        for x in three(TOP_BIT.wrapping_sub(power)) {
            for z in both(x) {
                take_whole_in(&mut digest, width, z);
            }
        }
    }
    print_line("power", &[good.bits as u64], digest);
}

// Part 22.
pub(crate) fn print_tally(good: GoodWidth) {
    let n = good.bits as u64;
    let width = Width::from(good);
    let mut sequence = Sequence::of(6000 + n);
    print_runs("tally", &[n], 0..512, 256, |digest, _| {
        for z in three(drawn_whole(&mut sequence)) {
            take_round(digest, width, z);
        }
    });
}

// The 64 bits of a whole number below 2^63 in size, of either sign.
fn drawn_whole(sequence: &mut Sequence) -> u64 {
    let bits = sequence.next_number();
    let cut = sequence.next_number();
    let shift = 1 + cut % 63;
    let size = without_lowest(bits >> shift, (cut >> 16) % (64 - shift));
    if (cut >> 32) % 2 == 1 {
        return size.wrapping_neg();
    }
    size
}
