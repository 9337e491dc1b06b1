// The text of a block: a line for each of its words, or its refusal.
ghost use Rattle.std.specs.Prelude.{◌≡◌, ◌*◌, ◌^◌, ◌<◌, ◌≤◌, length};
ghost use Rattle.listing.specs.Adds.{AddsSome, HasRoom};
ghost use Rattle.sheet.specs.Reads.{block_test};
ghost use Rattle.listing.specs.Listing.{most, refusal_of, text_room, ListsBlock, ListsInto};
ghost use Rattle.listing.specs.Text.{AreLines, IsRefusedLine};

use crate::lines::put_line;
use crate::text::Text;
use bounds::refusal::Refusal;
use bounds::room::test_room;
use sheet::block::{Block, read_block};

// The most words that a block has: 496 of width 8. They go to an array of that length, since no memory is asked for.
const WORDS: usize = 496;

// Room for the text of any block: a line of up to 96 bytes for each word.
const ROOM: usize = WORDS * 96;

// How long the text is, and why the block is refused, if it is.
#[derive(Clone, Copy)]
pub struct Listed {
    pub length: usize,
    pub refused: Option<Refusal>,
}

// Puts the text of a block at its place in the input to the start of `out`; the rest stays, and all of it where it has not the room.
pub fn list_block(block: &[u8], place: u64, out: &mut [u8]) -> Result<Listed, Refusal>
    ensures { ListsInto block.now place out.old out.new result }
{
    test_room(ROOM, out.len())?;
    let mut text = Text { out, at: 0 };
    let refused = put_block(&mut text, block, place);
    Ok(Listed {
        length: text.at,
        refused,
    })
}

// The text of a block, for which there is room; the answer is why it is refused, if it is.
fn put_block(text: &mut Text<'_>, block: &[u8], place: u64) -> Option<Refusal>
    requires { HasRoom text_room text.old }
    ensures { AddsSome text_room (ListsBlock block.now place) text.old text.new × (result ≡ refusal_of (block_test block.now most)) }
{
    // None is read before it is written. Zeros would be a call of the C library's memset for each block, and under the emulator that is slow.
    let mut words = [1u64; WORDS];
    match read_block(block, &mut words) {
        Ok(read) => {
            put_lines(text, read, &words[..read.count as usize]);
            None
        }
        Err(q) => {
            put_refused(text, place, q);
            Some(q)
        }
    }
}

// A line for each word of a block.
fn put_lines(text: &mut Text<'_>, block: Block, words: &[u64])
    requires { (block.width ≤ 64) × (length words.now < 2 ^ 32) × HasRoom (96 * length words.now) text.old }
    ensures { AddsSome (96 * length words.now) (AreLines block.number block.width 0 words.now) text.old text.new }
{
    for (position, word) in words.iter().enumerate() {
        put_line(text, block, position as u32, *word);
    }
}

// `block I refused N`, I being the block's place in the input.
fn put_refused(text: &mut Text<'_>, place: u64, q: Refusal)
    requires { HasRoom 96 text.old }
    ensures { AddsSome 96 (IsRefusedLine place q) text.old text.new }
{
    text.put_text(b"block ");
    text.put_decimal(place);
    text.put_text(b" refused ");
    text.put_decimal(u64::from(q.number()));
    text.put_byte(b'\n');
}
