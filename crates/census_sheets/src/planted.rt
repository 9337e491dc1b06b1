// Bits set in words for some calls: a stray one, and one that makes a word's move inexact.
ghost use Rattle.std.specs.Prelude.{◌≤◌, length};

use crate::columns::Move;
use crate::row::Room;
use bounds::width::Width;
use census::digest::Digest;
use round::value::Rule;

// The bit of INEXACT.
const LOWEST: u64 = 1;

impl Move<'_> {
    // The 21 ways to set bits at the first place, the middle one and the last one, and at each two of them.
    pub(crate) fn take_planted(self, digest: &mut Digest) {
        let stray = stray_bit(self.from);
        let middle = self.column.len() / 2;
        let last = self.column.len().saturating_sub(1);
        for p in [0, middle, last] {
            for bits in [stray, LOWEST, stray | LOWEST] {
                self.take_way(digest, &[(p, bits)]);
            }
        }
        for (p, q) in [(0, middle), (0, last), (middle, last)] {
            for (bits_at_p, bits_at_q) in [
                (stray, stray),
                (stray, LOWEST),
                (LOWEST, stray),
                (LOWEST, LOWEST),
            ] {
                self.take_way(digest, &[(p, bits_at_p), (q, bits_at_q)]);
            }
        }
    }

    // The three calls of a way.
    fn take_way(self, digest: &mut Digest, sets: &[(usize, u64)]) {
        let words = self.column.len();
        let planted = plant(self.column, sets);
        let moving = Move {
            from: self.from,
            to: self.to,
            column: &planted[..words],
        };
        moving.take(digest, Rule::Rounded, Room { words });
        for words in [words + 8, words.saturating_sub(1)] {
            moving.take(digest, Rule::Strict, Room { words });
        }
    }
}

// The bit worth 2^a. At width 64 there is none.
pub(crate) fn stray_bit(width: Width) -> u64 {
    1u64.unbounded_shl(width.bits)
}

// A copy of the words, with bits set at places of it, which can be the same place.
pub(crate) fn plant(words: &[u64], sets: &[(usize, u64)]) -> [u64; 1000]
    requires { length words.now ≤ 1000 }
{
    let mut planted = [0; 1000];
    planted[..words.len()].copy_from_slice(words);
    for (place, bits) in sets {
        if let Some(word) = planted.get_mut(*place) {
            *word |= *bits;
        }
    }
    planted
}
