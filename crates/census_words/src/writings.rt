// The four writings of a size, and of a short or a long value whatever writes it: with either sign, rounded and strict.
use crate::size::Size;
use bounds::answer::Written;
use bounds::refusal::Refusal;
use bounds::width::Width;
use census::digest::Digest;
use round::value::Rule;
use write::value::Value;
use write::writing::write;

pub(crate) fn take_writings(digest: &mut Digest, width: Width, size: Size) {
    let Size { m, k } = size;
    take_four(digest, |rule, negative| {
        write(width, rule, Value { negative, m, k })
    });
}

pub(crate) fn take_four<F: Fn(Rule, bool) -> Result<Written, Refusal>>(
    digest: &mut Digest,
    write: F,
)
    requires { F.IsAlwaysCallable write }
{
    for negative in [false, true] {
        for rule in [Rule::Rounded, Rule::Strict] {
            digest.take(write(rule, negative));
        }
    }
}
