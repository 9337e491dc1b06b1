// The widths that a block can have, and how many words of each it has room for.
ghost use Rattle.std.specs.Prelude.{◌≤◌};

use bounds::good::GoodWidth;
use bounds::width::Width;

#[derive(Clone, Copy)]
pub(crate) struct Layout {
    pub(crate) width: GoodWidth,
    // The words that a block has room for.
    pub(crate) full: usize,
    pub(crate) ghost whole_bytes: { 8 ≤ width.bits },
    pub(crate) ghost room: { (62 ≤ full) × (full ≤ 496) },
}

impl Layout {
    // The bytes of a word.
    pub(crate) fn bytes(self) -> usize
        ensures { (1 ≤ result) × (result ≤ 8) }
    {
        (self.width.bits / 8) as usize
    }

    // The width as the calls take it.
    pub(crate) fn plain(self) -> Width {
        Width::from(self.width)
    }

    // The width as a line has it.
    pub(crate) fn number(self) -> u64
        ensures { result ≤ 64 }
    {
        self.width.bits as u64
    }
}

// Prints a part at every width that a block can have.
pub(crate) fn at_block_widths<F: FnMut(Layout)>(mut print: F)
    requires { F.IsAlwaysCallable print }
{
    for (bits, full) in [(8, 496), (16, 248), (32, 124), (64, 62)] {
        print(Layout {
            width: GoodWidth { bits },
            full,
        });
    }
}
