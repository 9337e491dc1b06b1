// Parts 26 and 27: the ways in and out where they are refused, at bad widths and of words with a bit at or above their width.
use crate::around::both_signs;
use crate::numbers::{INFINITY, NAN};
use crate::ways::{take_binary64_in, take_out, take_whole_in};
use bounds::good::GoodWidth;
use bounds::width::Width;
use census::digest::Digest;
use census::line::print_line;
use census::widths::TOP_BIT;

// The pattern of 1.
const ONE: u64 = 0x3ff0_0000_0000_0000;

// Part 26.
pub(crate) fn take_unnumbered(digest: &mut Digest, width: Width) {
    for z in [0, 1, TOP_BIT - 1, TOP_BIT] {
        take_whole_in(digest, width, z);
    }
    for x in [0, ONE, INFINITY] {
        for pattern in both_signs(x) {
            take_binary64_in(digest, width, pattern);
        }
    }
    take_binary64_in(digest, width, NAN);
    for word in [0, 1, TOP_BIT, u64::MAX] {
        take_out(digest, width, word);
    }
}

// Part 27. At width 64 no word is stray. Not the function of parts 6 and 12: their lines have one word less.
pub(crate) fn print_strays(good: GoodWidth) {
    let bits = good.bits;
    if bits < Width::GREATEST {
        let least = 1 << bits;
        let mut digest = Digest::EMPTY;
        for word in [least, least + 1, least | (least >> 1), TOP_BIT, u64::MAX] {
            take_out(&mut digest, Width { bits }, word);
        }
        print_line("unread", &[bits as u64], digest);
    }
}
