// The census of numbers: the lines of whole numbers and binary64 that docs/CENSUS.md fixes and an independent program prints too.
#![tactic(auto)]

mod around;
mod binaries;
mod drawn;
mod halves;
mod numbers;
mod outs;
mod patterns;
mod shortest;
mod unnumbered;
mod ways;
mod wholes;

use crate::binaries::{print_extreme, print_numbers, print_twos};
use crate::halves::print_halves;
use crate::outs::{print_out_edge, print_out_full, print_out_power, print_outs};
use crate::shortest::{print_drawn, print_in_order, print_of_words, print_powers};
use crate::unnumbered::{print_strays, take_unnumbered};
use crate::wholes::{print_brink, print_limit, print_power, print_tally, print_wholes};
use bounds::width::Width;
use census::widths::{WIDEST_WHOLE, at_every_width, at_widths, print_bad_widths};

fn main() {
    print_words_out();
    print_wholes_in();
    print_binary64_in();
    print_bad_widths("unnumbered", take_unnumbered);
    at_every_width(print_strays);
    at_widths(17, Width::GREATEST, print_halves);
    print_shortest_widths();
}

// Parts 13 to 17.
fn print_words_out() {
    at_every_width(print_outs);
    at_widths(17, Width::GREATEST, print_out_edge);
    at_widths(17, Width::GREATEST, print_out_power);
    at_widths(56, Width::GREATEST, print_out_full);
}

// Parts 18 to 22.
fn print_wholes_in() {
    at_widths(Width::LEAST, 20, print_wholes);
    at_widths(24, 24, print_wholes);
    at_widths(32, 32, print_wholes);
    at_widths(64, 64, print_wholes);
    at_every_width(print_limit);
    at_every_width(print_brink);
    at_every_width(print_power);
    at_every_width(print_tally);
}

// Parts 23 to 25.
fn print_binary64_in() {
    at_every_width(print_numbers);
    at_widths(Width::LEAST, 12, print_twos);
    at_widths(56, 60, print_twos);
    at_every_width(print_extreme);
}

// Parts 53 to 56. The runs of the parts 53 and 55 belong to no width.
fn print_shortest_widths() {
    print_in_order();
    at_every_width(print_powers);
    print_drawn();
    at_widths(Width::LEAST, WIDEST_WHOLE, print_of_words);
}
