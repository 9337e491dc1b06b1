// The widths that the parts go through: good ones in order, and bad ones.
ghost use Rattle.std.specs.Prelude.{◌≤◌};

use crate::digest::Digest;
use crate::line::print_line;
use bounds::good::GoodWidth;
use bounds::width::Width;

// The top bit of the 64 that carry a word.
pub const TOP_BIT: u64 = 1 << 63;

// The widest width of which every word is taken.
pub const WIDEST_WHOLE: u32 = 16;

// How many places there are where words or values are drawn.
pub const DRAWN: u64 = 4096;

// How many words are taken at a width: all of them, or as many as are drawn.
pub fn words_of(n: u32) -> u64 {
    if n <= WIDEST_WHOLE {
        return 1 << n;
    }
    DRAWN
}

// Prints a part at each width from the first one to the last one.
pub fn at_widths<F: FnMut(GoodWidth)>(first: u32, last: u32, mut print: F)
    requires least { 2 ≤ first }
    requires most { last ≤ 64 }
    requires prints { F.IsAlwaysCallable print }
{
    for bits in first..=last {
        print(GoodWidth { bits });
    }
}

pub fn at_every_width<F: FnMut(GoodWidth)>(print: F)
    requires { F.IsAlwaysCallable print }
{
    at_widths(Width::LEAST, Width::GREATEST, print);
}

// Prints a line for each bad width.
pub fn print_bad_widths<F: FnMut(&mut Digest, Width)>(name: &str, mut take: F)
    requires { F.IsAlwaysCallable take }
{
    for bits in [0, 1, 65, 0x8000_0000, 0xffff_ffff] {
        let mut digest = Digest::EMPTY;
        take(&mut digest, Width { bits });
        print_line(name, &[bits as u64], digest);
    }
}
