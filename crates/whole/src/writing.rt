// A whole number in: written as a word, rounded or strict.
ghost use Rattle.whole.specs.Sayings.{WritesWholeAndSays};

use bounds::answer::Written;
use bounds::refusal::Refusal;
use bounds::width::Width;
use round::value::Rule;
use write::value::Value;
use write::writing::write;

// The word for a whole number, the nearest, or exactly that number or INEXACT; and which way it went.
pub fn write_whole(width: Width, rule: Rule, x: i64) -> Result<Written, Refusal>
    ensures { WritesWholeAndSays width.bits rule x result }
{
    let value = Value {
        negative: x < 0,
        m: x.unsigned_abs(),
        k: 0,
    };
    write(width, rule, value)
}
