// Three laws of moving as functions over the public calls: out and back, a negated word, and the order of two words.
ghost use Rattle.round.specs.declared.value.Rule.{Rule};
ghost use Rattle.write.specs.Writes.{Moves};
ghost use Rattle.promises.specs.Moving.{OutAndBack, MovesNegated, ComparesMoved};

use bounds::answer::Written;
use bounds::refusal::Refusal;
use bounds::width::Width;
use order::order::{compare, negate};
use round::value::Rule;
use std::cmp::Ordering;
use write::moving::move_word;

// A word is moved, then on to the middle width, then back: where the middle is at least as wide as the target, this is what the first move alone answers.
pub fn out_and_back(from: Width, to: Width, middle: Width, word: u64) -> Result<u64, Refusal>
    ensures { OutAndBack from.bits to.bits middle.bits word result }
{
    let there = move_rounded(from, to, word)?;
    let out = move_rounded(to, middle, there)?;
    move_rounded(middle, to, out)
}

// A negated word is moved: this is the negation of the moved word, and below and above are exchanged in what is said.
pub fn move_negated(from: Width, to: Width, word: u64) -> Result<Written, Refusal>
    ensures { MovesNegated from.bits to.bits word result }
{
    let opposite = negate(from, word)?;
    move_word(from, to, Rule::Rounded, opposite)
}

// Two words are moved and compared: they are in the order they were in, or have become equal.
pub fn compare_moved(from: Width, to: Width, x: u64, y: u64) -> Result<Ordering, Refusal>
    ensures { ComparesMoved from.bits to.bits x y result }
{
    let moved_x = move_rounded(from, to, x)?;
    let moved_y = move_rounded(from, to, y)?;
    compare(to, moved_x, moved_y)
}

// A rounded move, without what is said of it.
fn move_rounded(from: Width, to: Width, word: u64) -> Result<u64, Refusal>
    ensures { Moves from.bits to.bits Rule.Rounded word result }
{
    Ok(move_word(from, to, Rule::Rounded, word)?.word)
}
