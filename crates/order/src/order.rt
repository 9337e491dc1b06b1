// The order of words of one width, and their negation.
ghost use Rattle.std.specs.Prelude.{◌≡◌};
ghost use Rattle.order.specs.Orders.{Compares, Negates};
ghost use Rattle.word.specs.Orders.{signed};
ghost use Rattle.bounds.specs.Refusals.{IsWord};

use bounds::good::GoodWidth;
use bounds::refusal::Refusal;
use bounds::width::Width;
use std::cmp::Ordering;

// Whether the first word is below, equal to or above the second, which the paper calls -1, 0 and 1; NaR is below everything.
pub fn compare(width: Width, x: u64, y: u64) -> Result<Ordering, Refusal>
    ensures { Compares width.bits x y result }
{
    let good = width.good()?;
    good.test_word(x)?;
    good.test_word(y)?;
    Ok(as_signed(good, x).cmp(&as_signed(good, y)))
}

// The word with the negated value; zero and NaR stay as they are.
pub fn negate(width: Width, word: u64) -> Result<u64, Refusal>
    ensures { Negates width.bits word result }
{
    let good = width.good()?;
    good.test_word(word)?;
    if word == 0 {
        return Ok(0);
    }
    Ok(good.ones() - word + 1)
}

// The word as an n-bit two's complement number, whose order paper 01 names.
fn as_signed(good: GoodWidth, word: u64) -> i64
    requires { IsWord good.bits word }
    ensures { result ≡ signed good.bits word }
{
    if word < good.nar() {
        return word as i64;
    }
    -1 - (good.ones() - word) as i64
}
