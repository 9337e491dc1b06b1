// The census of sheets: the lines of columns and blocks that docs/CENSUS.md fixes and an independent program prints too.
#![tactic(auto)]

mod again;
mod block;
mod changed;
mod columns;
mod counts;
mod faults;
mod heads;
mod layout;
mod lengths;
mod pairs;
mod planted;
mod reading;
mod row;
mod strayed;
mod sums;
mod uncolumned;
mod unwritten;
mod writing;
mod written;

use crate::again::print_again;
use crate::changed::{print_bytes, print_numbers, print_sizes};
use crate::counts::{print_blocks, print_fills};
use crate::faults::print_faults;
use crate::heads::{print_marks, print_width_bytes};
use crate::layout::at_block_widths;
use crate::lengths::{print_drawn_columns, print_planted_columns};
use crate::pairs::print_pairs;
use crate::strayed::print_strayed;
use crate::sums::print_sums;
use crate::uncolumned::take_uncolumned;
use crate::unwritten::{print_unwritten, print_written_numbers, print_written_widths};
use crate::written::print_written;
use census::widths::{at_every_width, print_bad_widths};

fn main() {
    print_columns();
    print_blocks_read();
    print_blocks_written();
}

// Parts 28 to 31.
fn print_columns() {
    print_drawn_columns();
    print_planted_columns();
    print_bad_widths("uncolumned", take_uncolumned);
    at_every_width(print_pairs);
}

// Parts 32 to 40.
fn print_blocks_read() {
    at_block_widths(print_blocks);
    at_block_widths(print_bytes);
    at_block_widths(print_sums);
    at_block_widths(print_faults);
    print_width_bytes();
    print_marks();
    at_block_widths(print_fills);
    at_block_widths(print_sizes);
    at_block_widths(print_numbers);
}

// Parts 45 to 50.
fn print_blocks_written() {
    at_block_widths(print_written);
    at_block_widths(print_strayed);
    at_block_widths(print_unwritten);
    print_written_widths();
    at_block_widths(print_written_numbers);
    at_block_widths(print_again);
}
