// The parts of a block, put into a lent buffer where they stand. Each asks for the length that it needs, since a struct can't hold a fact beside what it is
// lent to write (the kit's docs/NOT_COVERED.md).
ghost use Rattle.std.specs.Prelude.{◌≡◌, ◌+◌, ◌*◌, ◌^◌, ◌<◌, ◌≤◌, length};
ghost use Rattle.sheet.specs.Layout.{IsWordBytes};
ghost use Rattle.sheet.specs.Puts.{AreOfBytes, Packs, Clears, PutsHeader, Seals};

use crate::bytes::Bytes;
use crate::numbers::put;
use crate::sums::sums_of;

pub(crate) fn put_header(width: u32, count: u32, number: u32, buffer: &mut [u8])
    requires { (8 ≤ length buffer.old) × (width < 2 ^ 8) × (count < 2 ^ 16) }
    ensures { PutsHeader width count number buffer.old buffer.new }
{
    put::<1>(0x54, buffer, 0);
    put::<1>(width as u64, buffer, 1);
    put::<2>(count as u64, buffer, 2);
    put::<4>(number as u64, buffer, 4);
}

// The words from byte 8 on. The size is a number of the block, width / 8; here, outside the loop, it becomes the N. No word that
// is written has one byte.
pub(crate) fn pack(size: usize, words: &[u64], buffer: &mut [u8])
    requires { IsWordBytes size × (1 < size) × (8 + size * length words.now ≤ length buffer.old) × AreOfBytes size words.now }
    ensures { Packs size words.now (length words.now) buffer.old buffer.new }
{
    match size {
        2 => pack_by::<2>(words, buffer),
        4 => pack_by::<4>(words, buffer),
        _ => pack_by::<8>(words, buffer),
    }
}

// Words of N bytes.
fn pack_by<const N: usize>(words: &[u64], buffer: &mut [u8])
    requires { (N ≤ 8) × (8 + N * length words.now ≤ length buffer.old) × AreOfBytes N words.now }
    ensures { Packs N words.now (length words.now) buffer.old buffer.new }
{
    for (i, word) in words.iter().enumerate() {
        put::<N>(*word, buffer, 8 + N * i);
    }
}

// The word bytes that are left are zero.
pub(crate) fn clear(from: usize, buffer: &mut [u8])
    requires { (from ≤ 504) × (504 ≤ length buffer.old) }
    ensures { Clears from 504 buffer.old buffer.new }
{
    buffer[from..504].fill(0);
}

// A and B, of the bytes as they lie there.
pub(crate) fn seal(buffer: &mut [u8])
    requires { length buffer.old ≡ 512 }
    ensures { Seals buffer.old buffer.new }
{
    let sums = sums_of(Bytes { all: buffer });
    put::<4>(sums.a as u64, buffer, 504);
    put::<4>(sums.b as u64, buffer, 508);
}
