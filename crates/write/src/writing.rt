// Writing a value offered as a word.
ghost use Rattle.write.specs.Sayings.{WritesAndSays};

use crate::value::Value;
use bounds::answer::Written;
use bounds::refusal::Refusal;
use bounds::width::Width;
use round::value::Rule;
use round::writing::write_short;

// The word for a value, the nearest, or exactly that value or INEXACT; and which way it went.
pub fn write(width: Width, rule: Rule, value: Value) -> Result<Written, Refusal>
    ensures { WritesAndSays width.bits rule value result }
{
    write_short(width, rule, value.negative, value.m, value.k)
}
