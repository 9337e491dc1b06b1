// Writing a long value as a word: every number that is written passes here.
ghost use Rattle.std.specs.Prelude.{Ok, ◌≡◌, ◌*◌, ◌^◌, ◌≤◌, ◌<◌, pos, ◌-ℤ◌};
ghost use Rattle.std.specs.Int.Signed.{mag};
ghost use Rattle.round.specs.declared.value.Rule.{Rule};
ghost use Rattle.round.specs.Sayings.{WritesLongAndSays, WritesShortAndSays, WritesSizeAndSays};
ghost use Rattle.round.specs.Offers.{WritesZero, settled, top_bits};

use crate::value::{LongValue, Rule};
use bounds::answer::Written;
use bounds::refusal::Refusal;
use bounds::width::Width;
use nearest::size::nearest;
use sizes::size::Size;

// The word for a long value, the nearest, or exactly that value or INEXACT; and which way it went.
pub fn write_long(width: Width, rule: Rule, value: LongValue) -> Result<Written, Refusal>
    ensures { WritesLongAndSays width.bits rule value result }
{
    if value.high == 0 {
        return write_short(width, rule, value.negative, value.low, value.k);
    }
    write_full(width, rule, value)
}

// The same of m * 2^k with its sign. Most values are so short, so they have a call of their own. README.md has these parameters.
pub fn write_short(
    width: Width,
    rule: Rule,
    negative: bool,
    m: u64,
    k: i32,
) -> Result<Written, Refusal>
    ensures { WritesShortAndSays width.bits rule negative m k result }
{
    write_normal(width, rule, negative, k as i64 + 63, m)
}

// The same of a size as a word is read in, m * 2^(h - 63) with its sign, also where the top bit of m isn't set.
pub fn write_size(width: Width, rule: Rule, size: Size) -> Result<Written, Refusal>
    ensures { WritesSizeAndSays width.bits rule size result }
{
    write_normal(width, rule, size.negative, size.h as i64, size.m)
}

// The same of m * 2^(h - 63) with its sign: the top bit of m is moved to 2^63, and h makes up for it. The parts go
// by themselves and are no `Size`: with 63 more, h can need more than its 32 bits.
fn write_normal(
    width: Width,
    rule: Rule,
    negative: bool,
    h: i64,
    m: u64,
) -> Result<Written, Refusal>
    requires { mag h ≤ 2 ^ 32 }
    ensures { WritesShortAndSays width.bits rule negative m (h -ℤ pos 63) result }
{
    if m == 0 {
        return zero_word(width);
    }
    let zeros = m.leading_zeros();
    let found = nearest(width, negative, h - zeros as i64, m << zeros, 0)?;
    by_rule(rule, found)
}

// What is written for zero.
fn zero_word(width: Width) -> Result<Written, Refusal>
    ensures { WritesZero width.bits result }
{
    width.test()?;
    Ok(Written::exactly(0))
}

// What is written for a significand that goes past 64 bits. Its first 64 stand in m, the others below.
fn write_full(width: Width, rule: Rule, value: LongValue) -> Result<Written, Refusal>
    requires { 0 < value.high }
    ensures { WritesLongAndSays width.bits rule value result }
{
    let zeros = value.high.leading_zeros();
    let h = value.k as i64 + (127 - zeros) as i64;
    let m = top_bits(value.high, value.low, zeros);
    let below = value.low << zeros;
    let found = nearest(width, value.negative, h, m, below)?;
    by_rule(rule, found)
}

// The first 64 bits of two numbers in a row, after so many zeros.
fn top_bits(high: u64, low: u64, zeros: u32) -> u64
    requires { (zeros ≤ 63) × (high * 2 ^ zeros < 2 ^ 64) }
    ensures { result ≡ top_bits high low zeros }
{
    (high << zeros) + ((low >> 1) >> (63 - zeros))
}

// The nearest word by the rule: by the strict one only where it is exactly the value. If any word has the value, that is the nearest.
fn by_rule(rule: Rule, found: Written) -> Result<Written, Refusal>
    ensures { result ≡ settled rule (Ok found) }
{
    match rule {
        Rule::Rounded => Ok(found),
        Rule::Strict => strictly(found),
    }
}

fn strictly(found: Written) -> Result<Written, Refusal>
    ensures { result ≡ settled Rule.Strict (Ok found) }
{
    if found.saying.is_exact() {
        return Ok(found);
    }
    Err(Refusal::Inexact)
}
