// The value of a number as an odd whole number times a power of two, which shows each value in one way only.
use crate::text::{print_number, print_signed, print_text};

// The size is m * 2^(h - p). Of zero, which has 64 factors two, none is taken.
pub(crate) fn print_value(negative: bool, h: i32, m: u64, p: u32) {
    if negative {
        print_text("-");
    }
    let twos = m.trailing_zeros() % 64;
    print_number(m >> twos);
    print_text(" * 2^");
    print_signed(h as i64 - p as i64 + twos as i64);
}
