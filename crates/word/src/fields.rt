// The fields of a string, cut from the top of the carrier by shifts and masks, in the letters of document 004, Definition 2.
ghost use Rattle.std.specs.Prelude.{◌≡◌, ◌≤◌, ◌<◌, ◌^◌};
ghost use Rattle.word.specs.Takum as Takum;
ghost use Rattle.word.specs.Takum.{regime_of, characteristic_of};
ghost use Rattle.word.specs.Cuts.{Cuts};

use crate::bits::{low_bits, power_of_two};

// The characteristic c, and the fraction as f * 2^-64.
#[derive(Clone, Copy)]
pub struct Fields {
    pub c: i32,
    pub f: u64,
}

// The fields of a string of 64 bits, as a word of any width is one with zero bits after it. Every string has them, also zero's and NaR's;
// what they mean is for `read` to say.
pub fn cut(t: u64) -> Fields
    ensures { Cuts t result }
{
    let r = regime_of(t);
    // Behind the first five bits stand those of the characteristic, and then the fraction.
    let after = t << 5;
    Fields {
        c: characteristic(direction(t), r, (after >> 1) >> (63 - r)),
        f: after << r,
    }
}

// Its regime.
pub(crate) fn regime_of(t: u64) -> u32
    ensures { result ≡ Takum.r 64 t }
{
    regime(direction(t), low_bits(t >> 59, 3))
}

// A number and no bool: it is the letter D, of which the definitions of the regime and of the characteristic speak.
fn direction(t: u64) -> u64
    ensures { result ≡ Takum.D 64 t }
{
    low_bits(t >> 62, 1)
}

fn regime(direction: u64, bits: u64) -> u32
    requires { bits < 8 }
    ensures { result ≡ regime_of direction bits }
{
    if direction == 1 {
        return bits as u32;
    }
    7 - bits as u32
}

fn characteristic(direction: u64, r: u32, bits: u64) -> i32
    requires { (r ≤ 7) × (bits < 2 ^ r) }
    ensures { result ≡ characteristic_of direction r bits }
{
    if direction == 1 {
        return power_of_two(r) as i32 - 1 + bits as i32;
    }
    bits as i32 + 1 - power_of_two(r + 1) as i32
}
