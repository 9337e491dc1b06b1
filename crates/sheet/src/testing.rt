// The tests of a block, in the paper's order: the first that it fails refuses it.
ghost use Rattle.std.specs.Prelude.{◌≡◌, ◌≤◌, length};
ghost use Rattle.sheet.specs.Sums.{total};
ghost use Rattle.sheet.specs.Reads.{is_block_width, block_test};

use crate::bytes::Bytes;
use crate::sums::{sums_in, sums_of};
use bounds::refusal::Refusal;
use bounds::room::test_room;

pub(crate) fn test(block: Bytes<'_>, places: usize) -> Result<(), Refusal>
    ensures { result ≡ block_test block.entry.all.now places }
{
    if block.all[0] != 0x54 {
        return Err(Refusal::Mark);
    }
    if sums_of(block) != sums_in(block) {
        return Err(Refusal::Check);
    }
    if !is_block_width(block.width()) {
        return Err(Refusal::Width);
    }
    let end = block.end();
    if end > 504 {
        return Err(Refusal::Count);
    }
    // the unused bytes are all zero exactly if their sum is; by `all`, which isn't made of vectors, it took 1.5 times as long and more
    if sum_of(&block.all[end..504]) != 0 {
        return Err(Refusal::Fill);
    }
    test_room(block.count() as usize, places)
}

pub(crate) fn is_block_width(n: u32) -> bool
    ensures { result ≡ is_block_width n }
{
    matches!(n, 8 | 16 | 32 | 64)
}

fn sum_of(bytes: &[u8]) -> u32
    requires { length bytes.now ≤ 512 }
    ensures { result ≡ total bytes.now }
{
    bytes.iter().map(|byte| *byte as u32).sum()
}
