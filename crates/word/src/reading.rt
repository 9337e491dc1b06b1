// Reading a word: what its fields mean, in the letters of document 004, Definition 2, and how many fraction bits are its own.
ghost use Rattle.std.specs.Prelude.{cond, ◌≡◌, ◌-◌, ◌/◌, ◌%◌, ◌≤◌, ◌^◌, pos, neg_ℤ, ◌+ℤ◌, ◌-ℤ◌};
ghost use Rattle.std.specs.Int.Signed.{mag};
ghost use Rattle.word.specs.Takum as Takum;
ghost use Rattle.word.specs.Takum.{real, or_zero};
ghost use Rattle.word.specs.Reads.{IsKind, Reads};

use crate::bits::low_bits;
use crate::fields::{cut, regime_of};
use bounds::good::GoodWidth;
use bounds::refusal::Refusal;
use bounds::width::Width;

// A number is its sign and the size m * 2^(h - p), with 2^p <= m < 2^(p + 1).
#[derive(Clone, Copy)]
pub enum Kind {
    Zero,
    Nar,
    Number {
        negative: bool,
        h: i32,
        m: u64,
        p: u32,
    },
}

// What a word says, and how fine: how many fraction bits are its own. Zero and NaR have none.
#[derive(Clone, Copy)]
pub struct Reading {
    pub kind: Kind,
    pub own: u32,
}

// What a word of the width means.
pub fn read(width: Width, word: u64) -> Result<Reading, Refusal>
    ensures { Reads width.bits word result }
{
    let good = width.good()?;
    good.test_word(word)?;
    if word == 0 {
        return Ok(Reading {
            kind: Kind::Zero,
            own: 0,
        });
    }
    let string = good.string(word);
    if string == 1 << 63 {
        return Ok(Reading {
            kind: Kind::Nar,
            own: 0,
        });
    }
    // How long the word's string is: below 12 bits zeros are appended.
    let length = good.bits.max(12);
    Ok(Reading {
        kind: number(length, string),
        own: own_bits(good.bits, string),
    })
}

// How many of the n bits of a word that is a number are fraction bits; it stands at the top of t.
fn own_bits(n: u32, t: u64) -> u32
    ensures { result ≡ or_zero (pos n -ℤ pos (Takum.r 64 t) -ℤ pos 5) }
{
    let others = regime_of(t) + 5;
    n.saturating_sub(others)
}

// The number of a string of n bits, n at least 12, that is neither zero nor NaR; it stands at the top of t, with zeros behind it. Where the sign is 1 and
// the fraction 0, what the size has above 1 is 1 itself, and that is carried into the exponent.
fn number(n: u32, t: u64) -> Kind
    requires { (12 ≤ n) × (n ≤ 64) × (t % 2 ^ (64 - n) ≡ 0) }
    ensures { IsKind (real (Takum.value n (t / 2 ^ (64 - n)))) (Takum.p n (t / 2 ^ (64 - n))) result }
{
    let p = n - regime_of(t) - 5;
    let negative = t >> 63 == 1;
    let fields = cut(t);
    let above = above_one(negative, fields.f >> 1);
    let h = exponent(negative, fields.c) + (above >> 63) as i32;
    let m = ((1 << 63) + low_bits(above, 63)) >> (63 - p);
    Kind::Number { negative, h, m, p }
}

// What the size has above 1, in steps of 2^-63, as f is. With sign 1 the fraction counts up from -2, so the size is 2 - f, which is 1 + (1 - f). This and
// `exponent` are so little that the machine makes both cases and takes one: it doesn't jump on a sign that nobody can foretell.
fn above_one(negative: bool, f: u64) -> u64
    requires { f ≤ 2 ^ 63 }
    ensures { result ≡ cond negative (2 ^ 63 - f) f }
{
    if negative {
        return (1 << 63) - f;
    }
    f
}

// The exponent e of (6), from c, which is from -255 to 254.
fn exponent(negative: bool, c: i32) -> i32
    requires { mag c ≤ 254 }
    ensures { result ≡ cond negative (neg_ℤ (c +ℤ pos 1)) c }
{
    if negative {
        return -1 - c;
    }
    c
}
