// Lines of how many fraction bits of a word are its own.
use crate::lines::print_own_bits_of;

pub(crate) fn print_own_bits() {
    print_of_tags();
    print_below_12();
    print_from_12();
}

// The words that the lister's printed case has, zero, and what is refused.
fn print_of_tags() {
    for (n, word) in [(16, 0x5a00), (16, 0x8000), (16, 0), (16, 0x10000), (65, 0)] {
        print_own_bits_of(n, word);
    }
}

// Zeros that are appended are none of them: 0x7f has 0 at width 8, and every word of width 2.
fn print_below_12() {
    for word in [0x7f, 0x40, 0x4f, 0x50, 0x81, 0xc0, 0xff] {
        print_own_bits_of(8, word);
    }
    for word in 0b00..=0b11 {
        print_own_bits_of(2, word);
    }
    for (n, word) in [(5, 8), (6, 0x10), (6, 0x14), (11, 0x200), (11, 0x7ff)] {
        print_own_bits_of(n, word);
    }
}

// From width 12 on every fraction bit is the word's own: 1 has 59 at width 64.
fn print_from_12() {
    for (n, word) in [
        (12, 0x400),
        (12, 0xfff),
        (13, 1),
        (16, 0xbc00),
        (16, 0x7000),
        (16, 0x7fff),
        (32, 0x5a01_8000),
    ] {
        print_own_bits_of(n, word);
    }
    for word in [0x4000_0000_0000_0000, 0, 0x8000_0000_0000_0000, 1] {
        print_own_bits_of(64, word);
    }
}
