// A pseudo-random sequence of 64-bit numbers, of which words are drawn.
ghost use Rattle.std.specs.Prelude.{◌≤◌};

use bounds::good::GoodWidth;

// D0 of docs/CENSUS.md, from which the sequences and the digests start.
pub(crate) const ORIGIN: u64 = 0x9e37_79b9_7f4a_7c15;

// A one-to-one change of a number that spreads each bit over others.
pub(crate) fn scramble(x: u64) -> u64 {
    let y = x ^ (x << 13);
    let z = y ^ (y >> 7);
    z ^ (z << 17)
}

#[derive(Clone, Copy)]
pub struct Sequence {
    state: u64,
}

impl Sequence {
    // The sequence of a START.
    pub fn of(start: u64) -> Sequence {
        Sequence {
            state: ORIGIN.wrapping_add(start),
        }
    }

    pub fn next_number(&mut self) -> u64 {
        self.state = scramble(self.state);
        self.state
    }

    // The low 32 bits of the next number.
    pub fn next_low(&mut self) -> u32 {
        (self.next_number() % 0x1_0000_0000) as u32
    }

    // The next word of a width.
    pub fn next_word(&mut self, width: GoodWidth) -> u64 {
        self.next_number() & width.ones()
    }
}

// One of the words from 1 to the last one, by a drawn number. No caller has none; the test keeps the remainder defined, and 0 is no word of those.
pub fn drawn_up_to(last: u64, x: u64) -> u64
    ensures { result ≤ last }
{
    if last == 0 {
        return 0;
    }
    1 + x % last
}
