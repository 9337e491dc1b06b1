// The sign and the size of a string and of a word, in the normal form that every number that is written or taken out goes through.
ghost use Rattle.std.specs.Prelude.{◌≡◌, ◌^◌};
ghost use Rattle.sizes.specs.Sizes.{without_sign, Sizes, ReadsSize};

use bounds::refusal::Refusal;
use bounds::width::Width;
use word::fields::cut;

// The size m * 2^(h - 63), m having its top bit set, and its sign.
#[derive(Clone, Copy)]
pub struct Size {
    pub negative: bool,
    pub h: i32,
    pub m: u64,
}

// The same as a reading's `Kind`, with a size in place of its number. They are two enums: one for both would name the type of its number wherever it is
// taken, where these say by their names what was asked for.
#[derive(Clone, Copy)]
pub enum WordSize {
    Zero,
    Nar,
    Number(Size),
}

// What a word of the width means, as a size in the normal form. It is what every call begins with that writes or takes out what a word means.
pub fn read_size(width: Width, word: u64) -> Result<WordSize, Refusal>
    ensures { ReadsSize width.bits word result }
{
    let good = width.good()?;
    good.test_word(word)?;
    if word == 0 {
        return Ok(WordSize::Zero);
    }
    let string = good.string(word);
    if string == 1 << 63 {
        return Ok(WordSize::Nar);
    }
    Ok(WordSize::Number(size_of(string)))
}

// The size of a string of 64 bits, as a word of any width is one with zero bits after it. Every string has one, also zero's and NaR's;
// what they mean is for `read_size` to say.
pub fn size_of(t: u64) -> Size
    ensures { Sizes t result }
{
    let fields = cut(without_sign(t));
    Size {
        negative: 1 << 63 < t,
        h: fields.c,
        m: (1 << 63) + (fields.f >> 1),
    }
}

// Strings with sign 1 lie as far above NaR as their opposites lie below it: 2^64 less t, which the machine has by one negation.
fn without_sign(t: u64) -> u64
    ensures { result ≡ without_sign (2 ^ 63) t }
{
    if t < 1 << 63 {
        return t;
    }
    t.wrapping_neg()
}
