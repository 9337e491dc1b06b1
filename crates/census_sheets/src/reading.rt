// Reading a block with a result slice of some length.
ghost use Rattle.std.specs.Prelude.{◌≤◌, length};

use crate::row::{BESIDE, Room, number_row};
use bounds::refusal::Refusal;
use census::digest::Digest;
use sheet::block::{Block, read_block};

pub(crate) fn take_reading(digest: &mut Digest, bytes: &[u8], room: Room) {
    let mut row = number_row();
    let _ = take_reading_into(digest, bytes, &mut row[..room.words + 2 * BESIDE]);
}

// The results go into the middle of the row, which the caller can look at afterwards.
pub(crate) fn take_reading_into(
    digest: &mut Digest,
    bytes: &[u8],
    row: &mut [u64],
) -> Result<Block, Refusal>
    requires { 16 ≤ length row.old }
{
    let end = row.len() - BESIDE;
    let answer = read_block(bytes, &mut row[BESIDE..end]);
    digest.take(answer.map(|block| (block.width, block.number, block.count)));
    digest.take(&*row);
    answer
}
