// Writing a block with a buffer of some length.
ghost use Rattle.std.specs.Prelude.{◌≤◌};

use crate::columns::draw_free;
use crate::layout::Layout;
use crate::row::{BESIDE, byte_row};
use bounds::width::Width;
use census::digest::Digest;
use census::sequence::Sequence;
use sheet::writing::write_block;

// What is written: a width, a number and words.
#[derive(Clone, Copy)]
pub(crate) struct Content<'a> {
    pub(crate) width: Width,
    pub(crate) number: u32,
    pub(crate) words: &'a [u64],
}

// Draws the words of a content, and gives back its number, which is drawn before them.
pub(crate) fn draw_content(words: &mut [u64], w: Layout, sequence: &mut Sequence) -> u32 {
    let number = sequence.next_low();
    draw_free(words, w.width, sequence);
    number
}

impl Content<'_> {
    // Gives back the row as the call has left it, the buffer in its middle.
    pub(crate) fn take(self, digest: &mut Digest, size: usize) -> [u8; 536]
        requires { size ≤ 520 }
    {
        let mut row = byte_row();
        let buffer = &mut row[BESIDE..BESIDE + size];
        digest.take(write_block(self.width, self.number, self.words, buffer));
        digest.take(&row[..size + 2 * BESIDE]);
        row
    }
}
