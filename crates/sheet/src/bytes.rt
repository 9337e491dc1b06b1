// The bytes of a block, 512 of them, and the fields that lie in them. That they are as many stands beside the slice: a type with a length in it would be an
// array, and tests/stack lets no crate of the library have one.
ghost use Rattle.std.specs.Prelude.{◌≡◌, ◌^◌, ◌<◌, length};

use crate::numbers::number;
use bounds::refusal::Refusal;

#[derive(Clone, Copy)]
pub(crate) struct Bytes<'a> {
    pub(crate) all: &'a [u8],
    ghost sized: { length all.now ≡ 512 },
}

// Refuses what isn't 512 bytes.
impl<'a> TryFrom<&'a [u8]> for Bytes<'a> {
    type Error = Refusal;

    ghost use Rattle.sheet.specs.Whole.{IsBytes};

    ghost try_from_gives = { λ block a. IsBytes block.now a };

    fn try_from(block: &'a [u8]) -> Result<Bytes<'a>, Refusal> {
        if block.len() != 512 {
            return Err(Refusal::Size);
        }
        Ok(Bytes { all: block })
    }
}

impl Bytes<'_> {
    ghost use Rattle.sheet.specs.Layout.{width, count, block_number, word_bytes, end, A, B};

    pub(crate) fn width(self) -> u32
        ensures { (result ≡ width self.entry.all.now) × (result < 2 ^ 8) }
    {
        number::<1>(self.all, 1) as u32
    }

    pub(crate) fn count(self) -> u32
        ensures { (result ≡ count self.entry.all.now) × (result < 2 ^ 16) }
    {
        number::<2>(self.all, 2) as u32
    }

    pub(crate) fn number(self) -> u32
        ensures { result ≡ block_number self.entry.all.now }
    {
        number::<4>(self.all, 4) as u32
    }

    // The bytes that a word has.
    pub(crate) fn word_bytes(self) -> usize
        ensures { (result ≡ word_bytes self.entry.all.now) × (result < 2 ^ 8) }
    {
        (self.width() / 8) as usize
    }

    // The first byte after the words.
    pub(crate) fn end(self) -> usize
        ensures { result ≡ end self.entry.all.now }
    {
        8 + self.word_bytes() * self.count() as usize
    }
}
