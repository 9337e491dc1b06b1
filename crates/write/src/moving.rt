// Moving a word to another width: it is read at the one and written at the other.
ghost use Rattle.write.specs.Sayings.{MovesAndSays};

use bounds::answer::Written;
use bounds::refusal::Refusal;
use bounds::width::Width;
use round::value::Rule;
use round::writing::write_size;
use sizes::size::{WordSize, read_size};

// The word of the target width for what the word of the source width means, and which way it went; NaR gives NaR.
pub fn move_word(from: Width, to: Width, rule: Rule, word: u64) -> Result<Written, Refusal>
    ensures { MovesAndSays from.bits to.bits rule word result }
{
    // Both widths are refused alike, so the target's may be tested first.
    let good = to.good()?;
    let written = match read_size(from, word)? {
        WordSize::Zero => Written::exactly(0),
        WordSize::Nar => Written::exactly(good.nar()),
        WordSize::Number(size) => write_size(to, rule, size)?,
    };
    // Made anew of its fields: handed on whole, the compiler sends it through the stack twice, for the bytes that pad it, and a move waits for that.
    Ok(Written {
        word: written.word,
        saying: written.saying,
    })
}
