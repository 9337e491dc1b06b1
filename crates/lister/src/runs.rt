// The text of a run of blocks: of each in order, with its own place in the input.
ghost use Rattle.std.specs.Prelude.{◌≡◌, ◌+◌, ◌*◌, ◌^◌, ◌<◌, ◌≤◌, length};
ghost use Rattle.sheet.specs.Reads.{block_test};
ghost use Rattle.listing.specs.Listing.{most, text_room, ListsBlock, refusal_number};
ghost use Rattle.listing.specs.Puts.{PutsSome};
ghost use Rattle.lister.specs.Counts.{with_one_more, CountsBlocks};
ghost use Rattle.lister.specs.Runs.{blocks, ListsBlocks};

use crate::report::Counts;
use listing::blocks::list_block;

// How long the text is, and the place of the block that comes after the run.
#[derive(Clone, Copy)]
pub(crate) struct Run {
    pub(crate) length: usize,
    pub(crate) place: u64,
}

// The text of all blocks of a piece, the first of them at this place, and their counts. The last one may be short, and is refused then. The place is
// counted by hand: what is answered is the place behind the last block, which `enumerate` doesn't give.
pub(crate) fn put_blocks(out: &mut [u8], piece: &[u8], place: u64, counts: &mut Counts) -> Run
    requires { (47616 * blocks (length piece.now) ≤ length out.old) × (place + blocks (length piece.now) < 2 ^ 64) }
    ensures { PutsSome (ListsBlocks piece.now place) out.old 0 out.new result.length × (result.place ≡ place + blocks (length piece.now)) × CountsBlocks piece.now counts.old.by_number counts.new.by_number }
{
    let mut at = 0;
    let mut here = place;
    for block in piece.chunks(512) {
        at = put_block(out, at, block, here, counts);
        here += 1;
    }
    Run {
        length: at,
        place: here,
    }
}

// The text of one block behind what stands, and its count. There is room for it, so it is never refused. `list_block` fills the start of a slice. That is
// cut here and not by the caller: it would be the same cut there, and the length would have to be added to the place beside it.
fn put_block(out: &mut [u8], at: usize, block: &[u8], place: u64, counts: &mut Counts) -> usize
    requires { at + text_room ≤ length out.old }
    ensures { PutsSome (ListsBlock block.now place) out.old at out.new result × (result ≤ at + text_room) × (counts.new.by_number ≡ with_one_more (refusal_number (block_test block.now most)) counts.old.by_number) }
{
    let listed = list_block(block, place, &mut out[at..]).unwrap();
    counts.count(listed.refused);
    at + listed.length
}
