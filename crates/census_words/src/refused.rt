// Parts 5, 6, 11 and 12: what is refused, at bad widths and of words with a bit at or above their width.
use crate::facts::take_itself;
use crate::moves::take_moves;
use crate::size::Size;
use crate::writings::take_writings;
use bounds::good::GoodWidth;
use bounds::width::Width;
use census::digest::Digest;
use census::line::print_line;
use census::widths::TOP_BIT;
use order::order::compare;

// Part 5.
pub(crate) fn take_unread(digest: &mut Digest, width: Width) {
    digest.take(Width::new(width.bits));
    digest.take(width.largest());
    digest.take(width.smallest());
    digest.take(width.nar());
    digest.take(width.limit());
    for word in [0, 1, TOP_BIT, u64::MAX] {
        take_itself(digest, width, word);
        digest.take(compare(width, word, word));
    }
}

// Part 11: writing at the bad width; and moving from it, to it, and both.
pub(crate) fn take_unmoved(digest: &mut Digest, width: Width) {
    take_writings(digest, width, Size { m: 1, k: 0 });
    for word in [1, TOP_BIT] {
        take_moves(digest, width, Width { bits: 16 }, word);
        take_moves(digest, Width { bits: 16 }, width, word);
        take_moves(digest, width, width, word);
    }
}

// Parts 6 and 12: a line of what is taken in of each stray word. At width 64 there is none.
pub(crate) fn print_strays<F: Fn(&mut Digest, Width, u64)>(name: &str, width: GoodWidth, take: F)
    requires { F.IsAlwaysCallable take }
{
    let bits = width.bits;
    if bits < Width::GREATEST {
        let least = 1 << bits;
        let mut digest = Digest::EMPTY;
        for word in [least, least + 1, TOP_BIT, u64::MAX] {
            take(&mut digest, Width { bits }, word);
        }
        print_line(name, &[bits as u64], digest);
    }
}

// Part 6.
pub(crate) fn take_facts_of_stray(digest: &mut Digest, width: Width, word: u64) {
    take_itself(digest, width, word);
    digest.take(compare(width, word, 1));
    digest.take(compare(width, 1, word));
    digest.take(compare(width, word, word));
}

// Part 12: to a good width, to a bad one, and to its own.
pub(crate) fn take_moves_of_stray(digest: &mut Digest, width: Width, word: u64) {
    for bits in [64, 65, width.bits] {
        take_moves(digest, width, Width { bits }, word);
    }
}
