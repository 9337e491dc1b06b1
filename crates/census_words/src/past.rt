// Part 8: the writings of no size, of the least and of the greatest significand, at exponents up to the last that there are.
use crate::size::Size;
use crate::writings::take_writings;
use bounds::good::GoodWidth;
use bounds::width::Width;
use census::digest::Digest;
use census::line::print_line;

const EXPONENTS: [i32; 15] = [
    i32::MIN,
    -2147483647,
    -1000,
    -308,
    -307,
    -256,
    -255,
    0,
    191,
    192,
    254,
    255,
    1000,
    2147483646,
    i32::MAX,
];

pub(crate) fn print_past(good: GoodWidth) {
    let width = Width::from(good);
    let mut digest = Digest::EMPTY;
    for m in [0, 1, u64::MAX] {
        for k in EXPONENTS {
            take_writings(&mut digest, width, Size { m, k });
        }
    }
    print_line("past", &[good.bits as u64], digest);
}
