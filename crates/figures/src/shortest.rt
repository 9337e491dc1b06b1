// Lines of the shortest width of a whole number.
use crate::lines::{print_answer, print_width};
use crate::text::{print_signed, print_text};
use whole::shortest::shortest_width;

pub(crate) fn print_shortest_widths() {
    print_of_few();
    print_of_counts();
    print_of_many();
    print_near_the_end();
    print_below_zero();
}

fn print_shortest(x: i64) {
    print_text("whole number ");
    print_signed(x);
    print_answer(
        " needs ",
        shortest_width(x),
        |width| print_width(width.bits),
    );
}

// The numbers up to 10. Proposition 4 as printed gives 9 for 9, which needs 10.
fn print_of_few() {
    for x in 0..=10 {
        print_shortest(x);
    }
}

// From 8 on a power of two needs far less than its neighbours.
fn print_of_counts() {
    for x in [
        16, 17, 42, 255, 256, 257, 511, 512, 513, 514, 515, 516, 1023, 1024, 1025, 2048, 4095,
        4096, 65_535, 65_536,
    ] {
        print_shortest(x);
    }
}

// The limits of widths 32 and 64, which are 2^24 and 2^55, with the first numbers past them, and other powers of two.
fn print_of_many() {
    for x in [
        16_777_215,
        16_777_216,
        16_777_217,
        16_777_218,
        4_294_967_296,
        4_294_967_295,
        18_014_398_509_481_985,
        36_028_797_018_963_967,
        36_028_797_018_963_968,
        36_028_797_018_963_969,
        36_028_797_018_963_970,
        72_057_594_037_927_936,
        72_057_594_037_927_938,
    ] {
        print_shortest(x);
    }
}

// From 2^62 on only multiples of 2^8 have a word.
fn print_near_the_end() {
    for x in [
        4_611_686_018_427_387_904,
        4_611_686_018_427_388_160,
        4_611_686_018_427_388_032,
        4_611_686_018_427_387_903,
        9_223_372_036_854_775_807,
        9_223_372_036_854_775_296,
        9_223_372_036_854_775_552,
        9_223_372_036_854_775_680,
    ] {
        print_shortest(x);
    }
}

// As their opposites; that of -2^63 is no i64.
fn print_below_zero() {
    for x in [
        -1,
        -2,
        -3,
        -8,
        -9,
        -10,
        -512,
        -513,
        -515,
        -1024,
        -16_777_217,
        -36_028_797_018_963_968,
        -36_028_797_018_963_969,
        -4_611_686_018_427_387_904,
        -9_223_372_036_854_775_807,
        -9_223_372_036_854_775_296,
        i64::MIN,
    ] {
        print_shortest(x);
    }
}
