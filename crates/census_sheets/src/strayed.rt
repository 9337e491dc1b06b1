// Part 46: contents of each count, drawn from a sequence and written with stray bits.
ghost use Rattle.std.specs.Prelude.{◌≤◌, length};

use crate::layout::Layout;
use crate::planted::{plant, stray_bit};
use crate::writing::{Content, draw_content};
use census::digest::Digest;
use census::line::print_line;
use census::sequence::Sequence;
use census::widths::TOP_BIT;

pub(crate) fn print_strayed(w: Layout) {
    let mut sequence = Sequence::of(48_000 + w.number());
    for count in [1, 2, w.full / 2, w.full] {
        let mut words = [0; 1000];
        let number = draw_content(&mut words[..count], w, &mut sequence);
        let content = Content {
            width: w.plain(),
            number,
            words: &words[..count],
        };
        let mut digest = Digest::EMPTY;
        take_strayed(&mut digest, content);
        print_line("strayed", &[w.number(), count as u64], digest);
    }
}

// The bound on the words stands in two contracts here: as a ghost field of Content it would cost the `..content` below.
// The 12 ways to set bits at the first place, the middle one and the last one, and at each two of them.
fn take_strayed(digest: &mut Digest, content: Content)
    requires { (1 ≤ length content.words.now) × (length content.words.now ≤ 1000) }
{
    let low = stray_bit(content.width);
    let middle = content.words.len() / 2;
    let last = content.words.len() - 1;
    for p in [0, middle, last] {
        for bits in [low, TOP_BIT] {
            take_way(digest, content, &[(p, bits)]);
        }
    }
    for (p, q) in [(0, middle), (0, last), (middle, last)] {
        for (bits_at_p, bits_at_q) in [(low, TOP_BIT), (TOP_BIT, low)] {
            take_way(digest, content, &[(p, bits_at_p), (q, bits_at_q)]);
        }
    }
}

fn take_way(digest: &mut Digest, content: Content, sets: &[(usize, u64)])
    requires { length content.words.now ≤ 1000 }
{
    let words = plant(content.words, sets);
    let strayed = Content {
        words: &words[..content.words.len()],
        ..content
    };
    for size in [512, 511] {
        strayed.take(digest, size);
    }
}
