// Reading a sheet block of 512 bytes.
ghost use Rattle.std.specs.Prelude.{length};
ghost use Rattle.sheet.specs.Reads.{ReadsBlock, FillsResults};

use crate::bytes::Bytes;
use crate::testing::test;
use crate::words::unpack;
use bounds::refusal::Refusal;

// What a block that was read says of itself, beside its words.
#[derive(Clone, Copy)]
pub struct Block {
    pub width: u32,
    pub number: u32,
    pub count: u32,
}

// The block's words go into the results from their start, and the others stay; the answer is the block's width, number and count of words.
pub fn read_block(block: &[u8], results: &mut [u64]) -> Result<Block, Refusal>
    ensures reads_block { ReadsBlock block.now (length results.old) result }
    ensures fills_results { FillsResults block.now results.old results.new }
{
    let bytes = Bytes::try_from(block)?;
    test(bytes, results.len())?;
    let count = bytes.count();
    unpack(bytes.all, bytes.word_bytes(), count as usize, results);
    Ok(Block {
        width: bytes.width(),
        number: bytes.number(),
        count,
    })
}
