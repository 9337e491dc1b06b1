// A whole number out: the one nearest to what a word means, or, strictly, the one that it means.
ghost use Rattle.std.specs.Prelude.{◌≡◌, ◌+◌, ◌*◌, ◌^◌, ◌≤◌, ◌<◌, false, pos, ◌-ℤ◌};
ghost use Rattle.std.specs.Int.Signed.{mag};
ghost use Rattle.word.specs.Reads.{signed_size};
ghost use Rattle.whole.specs.Wholes.{TakesWhole};
ghost use Rattle.whole.specs.Parts.{NearestSize, by_rule, TakesSize, TakesByEitherRule, WholeWhereLarge};

use bounds::refusal::Refusal;
use bounds::width::Width;
use sizes::size::{Size, WordSize, read_size};

// Nearest rounds, halves to the even number; strict refuses a value that isn't whole. It is no `Rule`, since C has an enum for each, with other names.
#[derive(Clone, Copy, PartialEq, Eq)]
pub enum Taking {
    Nearest,
    Strict,
}

// What a word means, from a half up: m * 2^(k - 64) with its sign. The top bit of m is set.
#[derive(Clone, Copy)]
struct Amount {
    negative: bool,
    k: u32,
    m: u64,
    ghost full: { 2 ^ 63 ≤ m },
}

// The whole number nearest to the word's value, or strictly that value itself, where it falls inside signed 64 bits.
pub fn take_whole(width: Width, rule: Taking, word: u64) -> Result<i64, Refusal>
    ensures { TakesWhole width.bits rule word result }
{
    match read_size(width, word)? {
        WordSize::Zero => Ok(0),
        WordSize::Nar => Err(Refusal::Nar),
        WordSize::Number(size) => take_number(rule, size),
    }
}

// The whole number of a word's size with its sign.
fn take_number(rule: Taking, size: Size) -> Result<i64, Refusal>
    requires { (2 ^ 63 ≤ size.m) × (mag size.h ≤ 254) × WholeWhereLarge size.h size.m }
    ensures { TakesSize rule size.negative size.h size.m result }
{
    if size.h < -1 {
        return below_half(rule);
    }
    let amount = Amount {
        negative: size.negative,
        k: (size.h + 1) as u32,
        m: size.m,
    };
    amount.take(rule)
}

// Of a size below a half zero is the nearest, and something is left beside it.
fn below_half(rule: Taking) -> Result<i64, Refusal>
    ensures { result ≡ by_rule rule false (pos 0) }
{
    match rule {
        Taking::Nearest => Ok(0),
        Taking::Strict => Err(Refusal::Inexact),
    }
}

impl Amount {
    // Its whole number. Each rule makes its own answer: where one function asks the rule last, LLVM doesn't compile it into the call.
    fn take(self, rule: Taking) -> Result<i64, Refusal>
        requires { WholeWhereLarge (pos self.k -ℤ pos 1) self.m }
        ensures { TakesSize rule self.negative (pos self.k -ℤ pos 1) self.m result }
    {
        if 63 < self.k {
            return self.take_far();
        }
        // The lowest 64 - k bits are the fraction. A word that has one is below 2^55, so the nearest whole number stays inside signed 64 bits.
        let whole = (self.m >> 1) >> (63 - self.k);
        let fraction = self.m << self.k;
        match rule {
            Taking::Nearest => Ok(with_sign(self.negative, nearest(whole, fraction))),
            Taking::Strict => {
                if fraction == 0 {
                    return Ok(with_sign(self.negative, whole));
                }
                Err(Refusal::Inexact)
            }
        }
    }

    // From 2^63 on only -2^63 itself falls inside signed 64 bits. No fraction is left, so the rule doesn't matter.
    fn take_far(self) -> Result<i64, Refusal>
        requires { 63 < self.k }
        ensures { TakesByEitherRule self.negative (pos self.k -ℤ pos 1) self.m result }
    {
        if self.negative && self.k == 64 && self.m == 1 << 63 {
            return Ok(i64::MIN);
        }
        Err(Refusal::Over)
    }
}

// Whole or whole + 1, whichever is nearer to whole + fraction * 2^-64. An odd whole lowers the bound by one, so that it goes up at a half. One test decides,
// since nobody can foretell which way it goes.
fn nearest(whole: u64, fraction: u64) -> u64
    requires { whole < 2 ^ 63 }
    ensures { NearestSize (2 ^ 64) (whole * 2 ^ 64 + fraction) result }
{
    if (1 << 63) - whole % 2 < fraction {
        return whole + 1;
    }
    whole
}

fn with_sign(negative: bool, size: u64) -> i64
    requires { size < 2 ^ 63 }
    ensures { result ≡ signed_size negative size }
{
    if negative {
        return -(size as i64);
    }
    size as i64
}
