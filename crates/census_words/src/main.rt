// The census of words: the lines of reading, writing and moving that docs/CENSUS.md fixes and an independent program prints too.
#![tactic(auto)]

mod draws;
mod ends;
mod facts;
mod farther;
mod long;
mod longs;
mod midpoints;
mod midways;
mod moves;
mod past;
mod refused;
mod size;
mod ways;
mod widths;
mod words;
mod writings;

use crate::draws::print_draws;
use crate::ends::print_ends;
use crate::farther::print_farther;
use crate::longs::print_longs;
use crate::midpoints::print_midpoints;
use crate::midways::{print_drawn_midways, print_midways};
use crate::moves::print_moves;
use crate::past::print_past;
use crate::refused::{
    print_strays, take_facts_of_stray, take_moves_of_stray, take_unmoved, take_unread,
};
use crate::ways::{print_drawn_ways, print_ways};
use crate::widths::print_width;
use crate::words::{print_edge, print_words};
use bounds::width::Width;
use census::widths::{WIDEST_WHOLE, at_every_width, at_widths, print_bad_widths};

fn main() {
    print_readings();
    print_writings();
    print_long_values();
    print_laws();
}

// Parts 1 to 6.
fn print_readings() {
    at_every_width(print_width);
    at_every_width(print_words);
    at_every_width(print_edge);
    print_bad_widths("refused", take_unread);
    at_every_width(|width| print_strays("stray", width, take_facts_of_stray));
}

// Parts 7 to 12.
fn print_writings() {
    at_widths(Width::LEAST, WIDEST_WHOLE, print_midpoints);
    at_every_width(print_past);
    at_widths(Width::LEAST, WIDEST_WHOLE, print_moves);
    at_every_width(print_draws);
    print_bad_widths("unmoved", take_unmoved);
    at_every_width(|width| print_strays("strayed", width, take_moves_of_stray));
}

// Parts 41 to 44, and then part 52, of short and of long values.
fn print_long_values() {
    at_widths(3, WIDEST_WHOLE, print_midways);
    at_widths(17, Width::GREATEST, print_drawn_midways);
    at_every_width(print_longs);
    print_farther();
    at_every_width(print_ends);
}

// Parts 57 and 58.
fn print_laws() {
    at_widths(Width::LEAST, WIDEST_WHOLE, print_ways);
    at_every_width(print_drawn_ways);
}
