// Taking a word out as a binary64 number.
ghost use Rattle.std.specs.Prelude.{◌≡◌, ◌*◌, ◌^◌, ◌≤◌, ◌<◌};
ghost use Rattle.std.specs.Float.Ieee.Exact.{HasValue};
ghost use Rattle.std.specs.Float.Ieee.Nearest.{closest};
ghost use Rattle.binary64.specs.Takes.{TakesBinary64};

use bounds::refusal::Refusal;
use bounds::width::Width;
use sizes::size::{WordSize, read_size};

// No `Result`: paper 01 has an enum with a number, NaR and a refusal.
#[derive(Clone, Copy)]
pub enum Binary64 {
    Number(f64),
    Nar,
    Refused(Refusal),
}

// The number that a word means: exactly up to width 57, and the nearest one from 58 on.
pub fn take_binary64(width: Width, word: u64) -> Binary64
    ensures { TakesBinary64 width.bits word result }
{
    match read_size(width, word) {
        Ok(WordSize::Zero) => Binary64::Number(0.0),
        Ok(WordSize::Nar) => Binary64::Nar,
        Ok(WordSize::Number(size)) => {
            // The lowest of 53 digits is 2^(h - 52).
            let j = (size.h + 971) as u64;
            Binary64::Number(number(size.negative, to_53_digits(size.m), j))
        }
        Err(q) => Binary64::Refused(q),
    }
}

// A significand of 64 digits rounded to its 53 leading ones, ties to even: one more where the eleven that are cut are above half, or are half
// and the last one kept is 1. Up to width 57 they are zero. It is done in whole numbers, so that no rounding mode of the processor matters.
fn to_53_digits(m: u64) -> u64
    requires { 2 ^ 63 ≤ m }
    ensures { result ≡ closest m (2 ^ 11) }
{
    // The leading digit is left out, so that there is room for the sum.
    let digits = m - (1 << 63);
    let up = 0x3ff + (digits >> 11) % 2;
    (1 << 52) + ((digits + up) >> 11)
}

// The number m * 2^(j - 1023), or minus that. The cast and the scaling are exact: in every rounding mode they give the same number,
// and they raise no floating-point exception.
fn number(negative: bool, m: u64, j: u64) -> f64
    requires { (m ≤ 2 ^ 53) × (0 < j) × (j ≤ 1400) }
    ensures { HasValue result negative (m * 2 ^ j) (2 ^ 1023) }
{
    m as f64 * power_of_two(negative, j)
}

// 2^(j - 1023) with its sign: the exponent j alone, with no digit beside the leading one.
fn power_of_two(negative: bool, j: u64) -> f64
    requires { (0 < j) × (j < 2047) }
    ensures { HasValue result negative (2 ^ j) (2 ^ 1023) }
{
    f64::from_bits(((negative as u64) << 63) + (j << 52))
}
