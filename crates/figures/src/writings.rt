// Lines of values that are written, and of the errors that look right.
use crate::lines::{minus, plus, print_move, print_word, print_writing};
use round::value::Rule::{Rounded, Strict};

pub(crate) fn print_writings() {
    for (n, rule, m) in [
        (16, Rounded, 514),
        (16, Strict, 514),
        (16, Rounded, 515),
        (16, Strict, 515),
    ] {
        print_writing(n, rule, plus(m, 0));
    }
    print_ends(16);
    for (rule, m) in [
        (Rounded, 7),
        (Strict, 7),
        (Rounded, 8),
        (Strict, 8),
        (Rounded, 9),
        (Strict, 9),
        (Rounded, 10),
    ] {
        print_writing(8, rule, plus(m, 0));
    }
    print_writing(2, Rounded, plus(1, 0));
    print_writing(2, Rounded, plus(3, 0));
    print_ends(2);
}

// Below the smallest word of every width, and above the largest.
fn print_ends(n: u32) {
    for k in [-300, 300] {
        print_writing(n, Rounded, plus(1, k));
    }
}

// The errors that look right, each by cases that it would get wrong.
pub(crate) fn print_errors() {
    print_sign_beside_size();
    print_next_bit();
    print_middle_width();
    print_tiny();
    print_carry();
}

fn print_sign_beside_size() {
    print_word(16, 0xbc00);
    print_writing(16, Strict, minus(3, -1));
}

fn print_next_bit() {
    print_writing(8, Rounded, plus(1, 231));
}

// 513 + 2^-20 goes straight to the word of 514, and by way of width 32 to that of 512.
fn print_middle_width() {
    print_writing(64, Strict, plus((513 << 20) + 1, -20));
    print_move(64, 16, Rounded, 0x5a00_8000_0800_0000);
    print_move(64, 32, Rounded, 0x5a00_8000_0800_0000);
    print_move(32, 16, Rounded, 0x5a00_8000);
}

fn print_tiny() {
    print_writing(16, Rounded, minus(1, -300));
    print_writing(64, Rounded, plus(1, i32::MIN));
}

// Just below 2, 4, 2^7 and 2^15, whose words begin another regime or, at 4, another characteristic.
fn print_carry() {
    for k in [-63, -62, -57, -49] {
        print_writing(16, Rounded, plus(u64::MAX, k));
    }
}
