// Part 44: the roundings of long values at exponents up to the last that there are, at every width and at bad ones.
use crate::long::{Long, take_roundings};
use bounds::width::Width;
use census::digest::Digest;
use census::line::print_line;
use census::widths::TOP_BIT;

const EXPONENTS: [i32; 19] = [
    i32::MIN,
    -2147483647,
    -1000,
    -435,
    -434,
    -382,
    -381,
    -127,
    -64,
    0,
    127,
    128,
    191,
    192,
    254,
    255,
    1000,
    2147483646,
    i32::MAX,
];

pub(crate) fn print_farther() {
    for bits in (0..=65).chain([0x8000_0000, 0xffff_ffff]) {
        let mut digest = Digest::EMPTY;
        for (high, low) in [
            (0, 0),
            (0, 1),
            (0, TOP_BIT),
            (1, 0),
            (TOP_BIT, 0),
            (TOP_BIT, 1),
            (u64::MAX, u64::MAX),
        ] {
            for k in EXPONENTS {
                take_roundings(&mut digest, Width { bits }, Long { high, low, k });
            }
        }
        print_line("farther", &[bits as u64], digest);
    }
}
