// Part 43: the roundings of drawn long values.
use crate::long::{Long, take_roundings};
use bounds::good::GoodWidth;
use bounds::width::Width;
use census::runs::print_runs;
use census::sequence::Sequence;

// A draw takes four numbers from the sequence. About every second value has nothing in its low number. Exponents run from -416 to 223.
pub(crate) fn print_longs(good: GoodWidth) {
    let n = good.bits as u64;
    let width = Width::from(good);
    let mut sequence = Sequence::of(8000 + n);
    print_runs("long", &[n], 0..1024, 256, |digest, _| {
        let bits = sequence.next_number();
        let low_bits = sequence.next_number();
        let cut = sequence.next_number();
        let k = (sequence.next_number() % 640) as i32 - 416;
        let low = if (cut >> 8) % 2 == 1 { low_bits } else { 0 };
        for high in [bits >> (cut % 64), 0] {
            take_roundings(digest, width, Long { high, low, k });
        }
    });
}
