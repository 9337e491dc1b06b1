// Writing a binary64 number as a word.
ghost use Rattle.std.specs.Float.{binary64};
ghost use Rattle.std.specs.Float.Ieee.{of_bits};
ghost use Rattle.binary64.specs.Sayings.{WritesBinary64AndSays};

use bounds::answer::Written;
use bounds::refusal::Refusal;
use bounds::width::Width;
use round::value::Rule;
use std::num::f64_to_bits_with_nan;
use write::value::Value;
use write::writing::write;

// The word for a number, and which way it went: NaN and the infinities give NaR, everything else is written as its value.
pub fn write_binary64(width: Width, rule: Rule, x: f64) -> Result<Written, Refusal>
    ensures { WritesBinary64AndSays width.bits rule x result }
{
    // A signalling NaN raises INVALID here: the bits of what may be a NaN can't be had without a comparison.
    write_bits(width, rule, f64_to_bits_with_nan(x))
}

// The word for the number of a bit pattern: its sign, its exponent and the digits below the leading one.
fn write_bits(width: Width, rule: Rule, bits: u64) -> Result<Written, Refusal>
    ensures { WritesBinary64AndSays width.bits rule (of_bits binary64 bits) result }
{
    let exponent = (bits >> 52) & 0x7ff;
    if exponent == 0x7ff {
        return Ok(Written::exactly(width.nar()?));
    }
    let negative = bits >> 63 != 0;
    let digits = bits & 0xf_ffff_ffff_ffff;
    // An exponent of 0 has no leading digit, and counts as an exponent of 1.
    if exponent == 0 {
        let small = Value {
            negative,
            m: digits,
            k: -1074,
        };
        return write(width, rule, small);
    }
    let m = digits + (1 << 52);
    let k = exponent as i32 - 1075;
    write(width, rule, Value { negative, m, k })
}
