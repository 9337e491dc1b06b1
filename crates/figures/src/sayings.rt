// Lines of which way a value went, by each of the calls that write or move.
use crate::lines::{minus, plus, print_move, print_writing};
use crate::numbers::{print_binary64_in, print_whole_in};
use round::value::Rule::{Rounded, Strict};
use write::value::Value;

pub(crate) fn print_sayings() {
    print_of_tallies();
    print_at_the_largest();
    print_at_the_smallest();
    print_of_narrow_words();
    print_of_moves();
    print_of_whole_numbers();
    print_of_binary64();
}

fn print_rounded(n: u32, values: &[Value]) {
    for value in values {
        print_writing(n, Rounded, *value);
    }
}

// A true 512 and a rounded 513; below zero the word of -512 is above -513.
fn print_of_tallies() {
    print_rounded(
        16,
        &[plus(513, 0), plus(1, 9), minus(513, 0), minus(515, 0)],
    );
}

// 31 * 2^250 has the largest word. What is beyond it is past the end, however little, and what is short of it is below.
fn print_at_the_largest() {
    print_rounded(16, &[minus(1, 300), plus(31, 250), minus(31, 250)]);
    print_writing(16, Strict, plus(31, 250));
    print_rounded(
        16,
        &[
            plus(u64::MAX, 190),
            plus(0xf800_0000_0000_0001, 191),
            plus(0xf7ff_ffff_ffff_ffff, 191),
        ],
    );
}

// 17 * 2^-259 has the smallest word, and zero is exact. Each value comes with both signs.
fn print_at_the_smallest() {
    for (m, k) in [(17, -259), (33, -260), (35, -260), (0, 0)] {
        print_rounded(16, &[plus(m, k), minus(m, k)]);
    }
}

// At width 2 only 1 and -1 are within the ends; at width 8 words lie far apart there.
fn print_of_narrow_words() {
    print_rounded(2, &[minus(3, 0), minus(1, 0), plus(1, -1)]);
    print_writing(2, Strict, plus(1, 0));
    print_rounded(
        8,
        &[
            minus(1, 231),
            plus(1, 239),
            plus(3, 238),
            plus(1, -239),
            plus(3, -241),
        ],
    );
}

fn print_of_moves() {
    for word in [0x5a01, 0x8000, 0, 0x7fff, 1] {
        print_move(16, 8, Rounded, word);
    }
    print_move(16, 64, Rounded, 0xa600);
    print_move(64, 16, Rounded, 0x5a00_8000_0000_0000);
    print_move(64, 16, Rounded, 0xa5ff_8000_0000_0000);
    print_move(32, 16, Rounded, 0x5a01_8000);
}

fn print_of_whole_numbers() {
    for (n, x) in [
        (16, 513),
        (16, 512),
        (16, -513),
        (16, -515),
        (32, 515),
        (16, 0),
        (2, 3),
        (2, 1),
    ] {
        print_whole_in(n, Rounded, x);
    }
}

// 515 and -513, the infinities and NaN, negative zero, the least number and -2^-1074.
fn print_of_binary64() {
    for x in [
        515.0,
        -513.0,
        f64::INFINITY,
        f64::NEG_INFINITY,
        f64::NAN,
        -0.0,
        f64::MIN,
        -5e-324,
    ] {
        print_binary64_in(16, Rounded, x);
    }
}
