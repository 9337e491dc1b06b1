// Two promises as functions over the public calls: a word negated twice, and a chain of strict moves that comes home. The laws of moving are in laws.rt.
#![tactic(auto)]

pub mod laws;

ghost use Rattle.promises.specs.Demands.{ComesBack};
ghost use Rattle.promises.specs.Writing.{ComesHome};

use bounds::refusal::Refusal;
use bounds::width::Width;
use order::order::negate;
use round::value::Rule;
use write::moving::move_word;

// A word negated twice is the word, unless the first negation was refused.
pub fn negate_twice(width: Width, word: u64) -> Result<u64, Refusal>
    ensures { ComesBack width.bits word result }
{
    let opposite = negate(width, word)?;
    negate(width, opposite)
}

// A word goes by strict moves through all the widths and back to the first: it is the first word again, unless a move was refused.
pub fn come_home(width: Width, word: u64, widths: &[u32]) -> Result<u64, Refusal>
    ensures { ComesHome width.bits word widths.now result }
{
    let mut here = width;
    let mut carried = word;
    for bits in widths {
        let next = Width { bits: *bits };
        carried = move_word(here, next, Rule::Strict, carried)?.word;
        here = next;
    }
    // What comes home is exact, as every word is that a strict move gives: the saying tells nothing more.
    Ok(move_word(here, width, Rule::Strict, carried)?.word)
}
