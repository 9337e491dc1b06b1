// Part 45: contents of each count, drawn from a sequence and written as they are.
ghost use Rattle.std.specs.Prelude.{◌≤◌};

use crate::block::SIZE;
use crate::layout::Layout;
use crate::reading::take_reading;
use crate::row::{BESIDE, Room};
use crate::writing::{Content, draw_content};
use census::digest::Digest;
use census::line::print_line;
use census::sequence::Sequence;

pub(crate) fn print_written(w: Layout) {
    let mut sequence = Sequence::of(47_000 + w.number());
    let full = w.full;
    for count in [0, 1, 2, full - 1, full, full + 1, 2 * full + 1] {
        let mut words = [0; 1000];
        let number = draw_content(&mut words[..count], w, &mut sequence);
        let content = Content {
            width: w.plain(),
            number,
            words: &words[..count],
        };
        let mut digest = Digest::EMPTY;
        take_sizes(&mut digest, content, full);
        print_line("written", &[w.number(), count as u64], digest);
    }
}

// With each size of the buffer. What the last call has left is read where there was room for the words.
fn take_sizes(digest: &mut Digest, content: Content, full: usize)
    requires { full ≤ 1000 }
{
    for size in [0, 8, 504, 511, 513, 520] {
        content.take(digest, size);
    }
    let row = content.take(digest, SIZE);
    let count = content.words.len();
    if count <= full {
        take_reading(
            digest,
            &row[BESIDE..BESIDE + SIZE],
            Room { words: count + 4 },
        );
    }
}
