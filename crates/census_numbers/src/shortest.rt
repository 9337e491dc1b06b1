// Parts 53 to 56: the shortest widths of whole numbers in order, beside powers of two, of drawn ones, and of those that words have.
use crate::around::{both, five};
use crate::drawn::without_lowest;
use crate::wholes::{IN_ORDER, ends, number_at};
use bounds::good::GoodWidth;
use bounds::width::Width;
use census::digest::Digest;
use census::line::print_line;
use census::runs::print_runs;
use census::sequence::Sequence;
use census::widths::words_of;
use whole::shortest::shortest_width;
use whole::taking::{Taking, take_whole};

// Part 53.
pub(crate) fn print_in_order() {
    print_runs("shortest", &[], 0..IN_ORDER, 4096, |digest, place| {
        take_shortest(digest, number_at(place));
    });
}

// The shortest width of the whole number of 64 bits.
fn take_shortest(digest: &mut Digest, bits: u64) {
    digest.take(shortest_width(bits.cast_signed()));
}

fn take_both(digest: &mut Digest, x: u64) {
    for bits in both(x) {
        take_shortest(digest, bits);
    }
}

// Part 54: the line of k, which is n - 1: 2^k - 2 to 2^k + 2, and then 2^k + 2^j and 2^k - 2^j. For k = 63, beyond which there are none, the
// ends, and the latter alone.
pub(crate) fn print_powers(good: GoodWidth) {
    let k = good.bits - 1;
    let power = good.nar();
    let mut digest = Digest::EMPTY;
    if k < 63 {
        for x in five(power) {
            take_both(&mut digest, x);
        }
    } else {
        for bits in ends() {
            take_shortest(&mut digest, bits);
        }
    }
    for j in 0..k {
        let step = 1 << j;
        if k < 63 {
            take_both(&mut digest, power.wrapping_add(step));
        }
        take_both(&mut digest, power.wrapping_sub(step));
    }
    print_line("shortpower", &[k as u64], digest);
}

// Part 55: a number of up to 63 bits with zeros at its end and its negation, and one of 48 or more, of which some have no word.
pub(crate) fn print_drawn() {
    let mut sequence = Sequence::of(9500);
    print_runs("shortdraw", &[], 0..4096, 256, |digest, _| {
        let bits = sequence.next_number();
        let cut = sequence.next_number();
        let shift = 1 + cut % 63;
        take_both(
            digest,
            without_lowest(bits >> shift, (cut >> 8) % (64 - shift)),
        );
        take_both(
            digest,
            without_lowest(bits >> (1 + cut % 16), (cut >> 16) % 16),
        );
    });
}

// Part 56.
pub(crate) fn print_of_words(good: GoodWidth) {
    let mut digest = Digest::EMPTY;
    let mut count = 0u64;
    for word in 0..words_of(good.bits) {
        if let Ok(z) = take_whole(Width::from(good), Taking::Strict, word) {
            digest.take(shortest_width(z));
            count += 1;
        }
    }
    print_line("shortword", &[good.bits as u64, count], digest);
}
