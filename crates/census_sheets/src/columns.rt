// Columns: their words, drawn from a sequence, and the moves of them with a result slice of some length.
ghost use Rattle.std.specs.Prelude.{◌≤◌, length};

use crate::row::{BESIDE, Room, at_rooms_around, number_row};
use bounds::good::GoodWidth;
use bounds::width::Width;
use census::digest::Digest;
use census::sequence::Sequence;
use column::moving::move_column;
use round::value::Rule;

// A column and the widths that it is moved from and to. Part 30 has bad ones too.
#[derive(Clone, Copy)]
pub(crate) struct Move<'a> {
    pub(crate) from: Width,
    pub(crate) to: Width,
    pub(crate) column: &'a [u64],
    pub(crate) ghost fits: { length column.now ≤ 1000 },
}

// Every word of an exact column moves exactly: NaR, zero, or a word whose bits below the target's last are zero.
pub(crate) fn draw_exact(
    column: &mut [u64],
    from: GoodWidth,
    to: GoodWidth,
    sequence: &mut Sequence,
) {
    for (place, word) in column.iter_mut().enumerate() {
        let x = sequence.next_number();
        *word = match place % 16 {
            5 => from.nar(),
            11 => 0,
            _ if to.bits < from.bits => (x & to.ones()) << (from.bits - to.bits),
            _ => x & from.ones(),
        };
    }
}

// A free column has any words, as the content of a block has.
pub(crate) fn draw_free(words: &mut [u64], width: GoodWidth, sequence: &mut Sequence) {
    for word in words {
        *word = sequence.next_word(width);
    }
}

impl<'a> Move<'a> {
    pub(crate) fn between(from: GoodWidth, to: GoodWidth, column: &'a [u64]) -> Move<'a>
        requires { length column.now ≤ 1000 }
    {
        Move {
            from: Width::from(from),
            to: Width::from(to),
            column,
        }
    }

    // The two moves with each of the rooms around the column's length.
    pub(crate) fn take_around(self, digest: &mut Digest) {
        at_rooms_around(self.column.len(), |room| self.take_two(digest, room));
    }

    // The rounded move and the strict one.
    pub(crate) fn take_two(self, digest: &mut Digest, room: Room) {
        for rule in [Rule::Rounded, Rule::Strict] {
            self.take(digest, rule, room);
        }
    }

    pub(crate) fn take(self, digest: &mut Digest, rule: Rule, room: Room) {
        let mut row = number_row();
        let results = &mut row[BESIDE..BESIDE + room.words];
        let answer = move_column(self.from, self.to, rule, self.column, results);
        digest.take(answer.map(|column| (column.moved, column.exact)));
        digest.take(&row[..room.words + 2 * BESIDE]);
    }
}
