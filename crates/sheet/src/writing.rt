// Writing a sheet block into a lent buffer: everything is tried before a byte is written, so that a refusal leaves the buffer as it came.
ghost use Rattle.std.specs.Prelude.{◌≡◌, ◌≤◌, length};
ghost use Rattle.bounds.specs.Refusals.{passed};
ghost use Rattle.sheet.specs.Puts.{IsFirstStray};
ghost use Rattle.sheet.specs.Writes.{IsBlockOf, content_test, FitUpTo, WritesBlock, FillsBuffer};

use crate::parts::{clear, pack, put_header, seal};
use crate::testing::is_block_width;
use bounds::good::GoodWidth;
use bounds::refusal::{ListRefusal, Refusal};
use bounds::width::Width;

// The width that no block is written with any more; old blocks of it are still read.
pub const RETIRED: u32 = 8;

// The buffer becomes the block that has this width, number and words; it stays as it came where the call is refused.
pub fn write_block(
    width: Width,
    number: u32,
    words: &[u64],
    buffer: &mut [u8],
) -> Result<(), ListRefusal>
    ensures writes_block { WritesBlock width.bits words.now buffer.old result }
    ensures fills_buffer { FillsBuffer width.bits number words.now buffer.old result buffer.new }
{
    test_content(width.bits, words.len(), buffer)?;
    if let Some(position) = first_stray(GoodWidth { bits: width.bits }, words) {
        return Err(ListRefusal::At {
            position,
            refusal: Refusal::Stray,
        });
    }
    put_block(width.bits, number, words, buffer);
    Ok(())
}

// The tests of the content as a whole, in the paper's order. A word has n / 8 bytes, and 496 bytes are there for the words.
fn test_content(n: u32, count: usize, buffer: &[u8]) -> Result<(), Refusal>
    ensures { result ≡ content_test n count buffer.now }
{
    if !is_block_width(n) {
        return Err(Refusal::Width);
    }
    if n == RETIRED {
        return Err(Refusal::Retired);
    }
    if count > (496 / (n / 8)) as usize {
        return Err(Refusal::Count);
    }
    if buffer.len() != 512 {
        return Err(Refusal::Size);
    }
    Ok(())
}

// The position of the first word that is above all ones of the width.
fn first_stray(width: GoodWidth, words: &[u64]) -> Option<usize>
    ensures { IsFirstStray width.bits words.now result }
{
    let most = width.ones();
    words.iter().position(|word| *word > most)
}

// The block where it lies. A and B come last, since they are sums of all that stands before them.
fn put_block(n: u32, number: u32, words: &[u64], buffer: &mut [u8])
    requires passes { content_test n (length words.now) buffer.old ≡ passed }
    requires fit_up_to { FitUpTo n words.now (length words.now) }
    ensures { IsBlockOf n number words.now buffer.new }
{
    let size = (n / 8) as usize;
    put_header(n, words.len() as u32, number, buffer);
    pack(size, words, buffer);
    clear(8 + size * words.len(), buffer);
    seal(buffer);
}
