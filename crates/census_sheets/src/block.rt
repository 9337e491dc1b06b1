// The bytes of a block, and eight more behind them: its fields, its seal, and the block of w and c, drawn from a sequence.
ghost use Rattle.std.specs.Prelude.{◌+◌, ◌<◌, ◌≤◌, length};

use crate::layout::Layout;
use census::sequence::Sequence;

pub(crate) const MARK: u8 = 0x54;

// The bytes of a block.
pub(crate) const SIZE: usize = 512;

// An array, since no program here asks for memory. Part 39 lends the eight more bytes.
#[derive(Clone, Copy)]
pub(crate) struct Leaf {
    pub(crate) bytes: [u8; 520],
}

impl Leaf {
    // The block that has a head and no words; it isn't sealed.
    pub(crate) fn headed(mark: u8, width: u8, count: u16, number: u32) -> Leaf {
        let mut leaf = Leaf { bytes: [0; 520] };
        leaf.put(0, &[mark, width]);
        leaf.put(2, &count.to_le_bytes());
        leaf.put_number(1, number);
        leaf
    }

    // The block of w and c, and as many words as it has room for.
    pub(crate) fn draw(w: Layout, count: u16, sequence: &mut Sequence) -> Leaf {
        let number = sequence.next_low();
        let mut leaf = Leaf::headed(MARK, w.number() as u8, count, number);
        let size = w.bytes();
        let words = leaf.bytes[8..504].chunks_exact_mut(size);
        for word in words.take(count as usize) {
            word.copy_from_slice(&sequence.next_number().to_le_bytes()[..size]);
        }
        leaf.seal();
        leaf
    }

    // The bytes of the block alone.
    pub(crate) fn block(&self) -> &[u8] {
        &self.bytes[..SIZE]
    }

    pub(crate) fn put(&mut self, at: usize, bytes: &[u8])
        requires { at + length bytes.now ≤ 520 }
    {
        self.bytes[at..at + bytes.len()].copy_from_slice(bytes);
    }

    // A byte becomes its exclusive or with x.
    pub(crate) fn flip(&mut self, at: usize, x: u8)
        requires { at < 520 }
    {
        self.bytes[at] ^= x;
    }

    // The number at a place of the 126, and of those that A and B are.
    pub(crate) fn number_at(&self, place: usize) -> u32
        requires { place < 128 }
    {
        let at = 4 * place;
        u32::from_le_bytes([
            self.bytes[at],
            self.bytes[at + 1],
            self.bytes[at + 2],
            self.bytes[at + 3],
        ])
    }

    pub(crate) fn put_number(&mut self, place: usize, number: u32)
        requires { place < 128 }
    {
        self.put(4 * place, &number.to_le_bytes());
    }

    // Stores paper 01's sums A and B of the 126 numbers. By itself: with the library's own sums an error of theirs wouldn't show.
    pub(crate) fn seal(&mut self) {
        let mut a = 0u32;
        let mut b = 0u32;
        for place in 0..126 {
            a = a.wrapping_add(self.number_at(place));
            b = b.wrapping_add(a);
        }
        self.put_number(126, a);
        self.put_number(127, b);
    }

    pub(crate) fn sealed(mut self) -> Leaf {
        self.seal();
        self
    }
}
