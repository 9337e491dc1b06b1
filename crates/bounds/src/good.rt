// A width that has passed its test, from 2 to 64: what asks for one needs no test, and its words come with no refusal.
ghost use Rattle.std.specs.Prelude.{◌≡◌, ◌≤◌};

use crate::refusal::Refusal;

#[derive(Clone, Copy)]
pub struct GoodWidth {
    pub bits: u32,
    pub ghost least: { 2 ≤ bits },
    pub ghost most: { bits ≤ 64 },
}

impl GoodWidth {
    ghost use Rattle.bounds.specs.Refusals.{stray_test};
    ghost use Rattle.bounds.specs.Widths.{ones, largest, nar_word, at_top};

    // As many ones as the width has bits: the greatest number that is a word.
    pub fn ones(self) -> u64
        ensures { result ≡ ones self.bits }
    {
        u64::MAX >> (64 - self.bits)
    }

    // The largest positive word.
    pub fn largest(self) -> u64
        ensures { result ≡ largest self.bits }
    {
        u64::MAX >> (65 - self.bits)
    }

    // The word of NaR, "not a real".
    pub fn nar(self) -> u64
        ensures { result ≡ nar_word self.bits }
    {
        1 << (self.bits - 1)
    }

    // The word at the top of 64 bits, zeros behind it. Bits that the width doesn't have are lost.
    pub fn string(self, word: u64) -> u64
        ensures { result ≡ at_top self.bits word }
    {
        word << (64 - self.bits)
    }

    // Refuses a word that has a bit at or above the width.
    pub fn test_word(self, word: u64) -> Result<(), Refusal>
        ensures { result ≡ stray_test self.bits word }
    {
        if word >> (self.bits - 1) < 2 {
            return Ok(());
        }
        Err(Refusal::Stray)
    }
}
