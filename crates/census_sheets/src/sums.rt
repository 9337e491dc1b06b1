// Part 34: the 126 numbers of a block changed, modulo 2^32, so that its sums differ or not. A line for each kind of change.
ghost use Rattle.std.specs.Prelude.{◌≤◌};

use crate::block::Leaf;
use crate::layout::Layout;
use crate::reading::take_reading;
use crate::row::Room;
use census::digest::Digest;
use census::line::print_line;
use census::sequence::Sequence;

// Where a change begins, and what it adds to a number: the place i, the d that is drawn, and the number x at that place.
#[derive(Clone, Copy)]
struct Change {
    i: u32,
    d: u32,
    x: u32,
}

// The sequence runs on from one kind to the next.
pub(crate) fn print_sums(w: Layout) {
    let mut sequence = Sequence::of(42_000 + w.number());
    let leaf = Leaf::draw(w, w.full as u16, &mut sequence);
    let sequence = &mut sequence;
    print_kind(w, leaf, 1, 126, sequence, |Change { d, x, .. }| {
        [(x ^ d).wrapping_sub(x), 0, 0]
    });
    print_kind(w, leaf, 2, 125, sequence, |Change { d, .. }| {
        [d, d.wrapping_neg(), 0]
    });
    print_kind(w, leaf, 3, 125, sequence, |Change { i, d, .. }| {
        let first = d.wrapping_mul(125u32.wrapping_sub(i));
        [first, first.wrapping_add(d).wrapping_neg(), 0]
    });
    print_kind(w, leaf, 4, 124, sequence, |Change { d, .. }| {
        [d, d.wrapping_mul(2).wrapping_neg(), d]
    });
}

// A kind's change at each of its places, which says what is added to the number there and to the two after it. Where nothing is added, a
// number behind the 126 may be meant.
fn print_kind<F: Fn(Change) -> [u32; 3]>(
    w: Layout,
    leaf: Leaf,
    kind: u64,
    end: usize,
    sequence: &mut Sequence,
    added: F,
)
    requires within { end ≤ 126 }
    requires adds { F.IsAlwaysCallable added }
{
    let mut digest = Digest::EMPTY;
    for i in 0..end {
        let d = 1 + (sequence.next_number() % 0xffff_ffff) as u32;
        let [first, second, third] = added(Change {
            i: i as u32,
            d,
            x: leaf.number_at(i),
        });
        let mut changed = leaf;
        changed.add(i, first);
        changed.add(i + 1, second);
        changed.add(i + 2, third);
        take_reading(&mut digest, changed.block(), Room { words: w.full });
    }
    print_line("sums", &[w.number(), kind], digest);
}

impl Leaf {
    fn add(&mut self, place: usize, d: u32)
        requires { place ≤ 127 }
    {
        self.put_number(place, self.number_at(place).wrapping_add(d));
    }
}
