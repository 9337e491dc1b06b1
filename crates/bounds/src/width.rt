// The width of a word: its bounds, the tests of a width and of a word, its end words, NaR word and exact-count limit.
ghost use Rattle.std.specs.Prelude.{◌≡◌};
ghost use Rattle.bounds.specs.Refusals.{width_test, word_test};
ghost use Rattle.bounds.specs.Widths.{Greatest, largest, smallest, nar_word, IsGood, HasBitsOf, Makes, GivesWord, GivesLimit};

use crate::good::GoodWidth;
use crate::refusal::Refusal;

// Anybody can make one of any number, so every public call on a width tests it.
#[derive(Clone, Copy)]
pub struct Width {
    pub bits: u32,
}

impl Width {
    pub const LEAST: u32 = 2;

    pub const GREATEST: u32 = 64;

    // Refuses what isn't a width.
    pub fn test(self) -> Result<(), Refusal>
        ensures { result ≡ width_test self.bits }
    {
        let n = self.bits;
        if n < Width::LEAST {
            return Err(Refusal::Width);
        }
        if Width::GREATEST < n {
            return Err(Refusal::Width);
        }
        Ok(())
    }

    // The width as one that needs no more tests. Nearly every call begins with `width.good()?`, which says more than a TryFrom would.
    pub fn good(self) -> Result<GoodWidth, Refusal>
        ensures { IsGood self.bits result }
    {
        self.test()?;
        Ok(GoodWidth { bits: self.bits })
    }

    // Refuses what isn't a word of the width: the width is tested first, then the word.
    pub fn test_word(self, word: u64) -> Result<(), Refusal>
        ensures { result ≡ word_test self.bits word }
    {
        self.good()?.test_word(word)
    }

    // A width of a number: a constructor, whose name the wrong edit new_makes_one_width has, and no TryFrom.
    pub fn new(bits: u32) -> Result<Width, Refusal>
        ensures { Makes bits result }
    {
        let width = Width { bits };
        width.test()?;
        Ok(width)
    }

    // The largest positive word.
    pub fn largest(self) -> Result<u64, Refusal>
        ensures { GivesWord largest self.bits result }
    {
        Ok(self.good()?.largest())
    }

    // The smallest positive word.
    pub fn smallest(self) -> Result<u64, Refusal>
        ensures { GivesWord smallest self.bits result }
    {
        self.test()?;
        Ok(1)
    }

    // The word of NaR, "not a real".
    pub fn nar(self) -> Result<u64, Refusal>
        ensures { GivesWord nar_word self.bits result }
    {
        Ok(self.good()?.nar())
    }

    // The exact-count limit: every whole number from minus it to it has a word.
    pub fn limit(self) -> Result<u64, Refusal>
        ensures { GivesLimit self.bits result }
    {
        self.test()?;
        Ok(1 << limit_exponent(self.bits))
    }
}

// The way back, for the calls that take any width.
impl From<GoodWidth> for Width {
    ghost from_gives = { λ good width. HasBitsOf good width };

    fn from(good: GoodWidth) -> Width {
        Width { bits: good.bits }
    }
}

// v of paper 01: the greatest whole number with v >= 1 and v + floor(log2 v) <= n - 4, or 0. Paper 01 names
// leading zeros for the logarithm.
fn limit_exponent(n: u32) -> u32
    ensures { Greatest n result }
{
    if n < 5 {
        return 0;
    }
    let room = n - 4;
    let log = 31 - room.leading_zeros();
    let v = room - log;
    if v + 1 < 1 << log {
        return v + 1;
    }
    v
}
