// Figures of papers 01 and 02: those that are run and compared, one line each.
#![tactic(auto)]

mod lines;
mod numbers;
mod own_bits;
mod sayings;
mod shortest;
mod text;
mod value;
mod writings;

use crate::lines::{print_limit, print_made, print_word};
use crate::numbers::{
    print_binary64, print_ends_of_64_bits, print_halves, print_last_halves, print_tally,
    print_whole_numbers,
};
use crate::own_bits::print_own_bits;
use crate::sayings::print_sayings;
use crate::shortest::print_shortest_widths;
use crate::writings::{print_errors, print_writings};

fn main() {
    print_words();
    print_limits();
    print_refusals();
    print_writings();
    print_errors();
    print_tally();
    print_whole_numbers();
    print_ends_of_64_bits();
    print_halves();
    print_last_halves();
    print_binary64();
    print_own_bits();
    print_sayings();
    print_shortest_widths();
}

fn print_words() {
    for (n, word) in [
        (12, 0xfff),
        (16, 0x4800),
        (16, 0x4a00),
        (16, 0x5a01),
        (8, 0x4f),
        (8, 0x50),
        (8, 0x7e),
        (2, 0b01),
        (2, 0b11),
        (2, 0b10),
    ] {
        print_word(n, word);
    }
}

fn print_limits() {
    for n in [2, 3, 4, 5, 8, 12, 16, 32, 64] {
        print_limit(n);
    }
}

fn print_refusals() {
    print_made(0);
    print_made(65);
    print_word(16, 0x10000);
}
