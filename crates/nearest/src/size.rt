// One normal size goes in with its sign, and the nearest word comes out with its saying: every number but zero that is written passes here.
ghost use Rattle.std.specs.Prelude.{◌≡◌, ◌+◌, ◌-◌, ◌*◌, ◌^◌, ◌<◌};
ghost use Rattle.word.specs.Takum as Takum;
ghost use Rattle.nearest.specs.Sayings.{FindsAndSays};
ghost use Rattle.nearest.specs.Parts.{IsRaised, chosen_of, IsNear, beside, with_sign, signed_saying};

use crate::amount::{Amount, Tail};
use crate::start::Characteristic;
use bounds::answer::Written;
use bounds::good::GoodWidth;
use bounds::refusal::Refusal;
use bounds::saying::Saying;
use bounds::width::Width;
use std::cmp::Ordering;
use word::fields::cut;

// What lies below the last unit of a significand, from the least to the most.
#[derive(Clone, Copy, PartialEq, Eq, PartialOrd, Ord)]
pub enum Rest {
    Nothing,
    UnderHalf,
    Half,
    OverHalf,
}

impl Rest {
    ghost use Rattle.nearest.specs.Parts.{is_none};

    pub(crate) fn is_nothing(self) -> bool
        ensures { result ≡ is_none self }
    {
        self == Rest::Nothing
    }
}

// Of what lies below the last unit, counted in 2^-64 of it.
impl From<u64> for Rest {
    ghost use Rattle.nearest.specs.Offers.{IsRest};

    ghost from_gives = { λ below rest. IsRest below rest };

    fn from(below: u64) -> Rest {
        if below == 0 {
            return Rest::Nothing;
        }
        match below.cmp(&(1 << 63)) {
            Ordering::Less => Rest::UnderHalf,
            Ordering::Equal => Rest::Half,
            Ordering::Greater => Rest::OverHalf,
        }
    }
}

// The word nearest to plus or minus the size (m + below * 2^-64) * 2^(h - 63), the top bit of m being taken as set, and which way it went.
pub fn nearest(width: Width, negative: bool, h: i64, m: u64, below: u64) -> Result<Written, Refusal>
    ensures { FindsAndSays width.bits negative h m below result }
{
    let good = width.good()?;
    let amount = Amount {
        m: (1 << 63) + m % (1 << 63),
        rest: Rest::from(below),
    };
    let near = nearest_word(good, h, amount);
    Ok(Written {
        word: with_sign(good, negative, near.word),
        saying: said(negative, near.saying),
    })
}

// A word's opposite lies as far above NaR as the word lies below it.
fn with_sign(width: GoodWidth, negative: bool, word: u64) -> u64
    requires { (0 < word) × (word < 2 ^ (width.bits - 1)) }
    ensures { result ≡ with_sign width.bits negative word }
{
    if negative {
        let nar = width.nar();
        return nar + (nar - word);
    }
    word
}

// Which way it went, with the sign: of two negative values the larger one in size is below. The two flags are compared as numbers, which the machine does
// without a jump; by `opposite`, a table of jumps, a binary64 number took 1.4 of the time to write.
fn said(negative: bool, saying: Saying) -> Saying
    ensures { result ≡ signed_saying negative saying }
{
    if saying == Saying::Exact || saying == Saying::PastTheEnd {
        return saying;
    }
    let up = (saying == Saying::Above) as u32;
    let turned = negative as u32;
    if up != turned {
        return Saying::Above;
    }
    Saying::Below
}

// The positive word nearest to the size (m + rest) * 2^(h - 63), past either end the end word, and what is said of it beside the size.
fn nearest_word(width: GoodWidth, h: i64, amount: Amount) -> Written
    ensures { IsNear width.bits h amount.m amount.rest result }
{
    if let Some(c) = Characteristic::new(h) {
        return nearest_inside(width, c, amount);
    }
    if h < 0 {
        return end_word(1);
    }
    end_word(width.largest())
}

// An end word, where the size lies past it.
fn end_word(word: u64) -> Written
    ensures { result ≡ record { word = word; saying = Saying.PastTheEnd } }
{
    Written {
        word,
        saying: Saying::PastTheEnd,
    }
}

// The same where h is a characteristic.
fn nearest_inside(width: GoodWidth, h: Characteristic, amount: Amount) -> Written
    ensures { IsNear width.bits h.c amount.m amount.rest result }
{
    let n = width.bits;
    let start = h.start();
    let bits = start.first_bits(amount);
    let low = bits >> (64 - n);
    if low == 0 {
        return end_word(1);
    }
    if low == width.largest() {
        if amount.ends_at(width, low, bits, start) {
            return beside(low, low, true);
        }
        return end_word(low);
    }
    // The nearest is low or the next word, which is one more, across fractions, characteristics and regimes: the carry needs no code.
    // Where the cut falls in the regime or the characteristic, both are powers of two.
    if n < 5 + start.r {
        let side = amount.side_of_powers(
            exponent(width, low),
            exponent(width, low + 1),
            h.raised(),
        );
        let word = chosen(low, side);
        return beside(low, word, amount.ends_at(width, low, bits, start));
    }
    // Where it falls in the fraction, words are evenly spaced and the bits that are cut off decide.
    let tail = Tail {
        bits: (amount.m << 1) << (n - start.r - 5),
        rest: amount.rest,
    };
    beside(low, tail.chosen(low), tail.is_nothing())
}

// The word that is nearest, low being the last one that is not above the size, and the size being exactly low or not.
fn beside(low: u64, word: u64, exact: bool) -> Written
    ensures { result ≡ beside low word exact }
{
    if exact {
        return Written::exactly(word);
    }
    if word == low {
        return Written {
            word,
            saying: Saying::Below,
        };
    }
    Written {
        word,
        saying: Saying::Above,
    }
}

// Low or low + 1, halfway the even one.
fn chosen(low: u64, side: Ordering) -> u64
    requires { low + 1 < 2 ^ 63 }
    ensures { result ≡ chosen_of low side }
{
    match side {
        Ordering::Less => low,
        Ordering::Equal => low + low % 2,
        Ordering::Greater => low + 1,
    }
}

// The characteristic of a positive word, raised. That a word lies below NaR is asked of three (here, `with_sign`, `ends_at`), each of another word: a type
// for it would be made three times, and read longer.
fn exponent(width: GoodWidth, word: u64) -> u32
    requires { (0 < word) × (word < 2 ^ (width.bits - 1)) }
    ensures { IsRaised (Takum.c 64 (word * 2 ^ (64 - width.bits))) result }
{
    Characteristic {
        c: cut(width.string(word)).c as i64,
    }
    .raised()
}
