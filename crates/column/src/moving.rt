// Moving a column: every word is tried before any result is written, so that a refusal leaves the results as they came.
ghost use Rattle.std.specs.Prelude.{◌≤◌, length};
ghost use Rattle.write.specs.Sayings.{MovesAndSays};
ghost use Rattle.column.specs.Columns.{MovableUpTo, AreMoved, MovesColumn};
ghost use Rattle.column.specs.Counts.{Counts, KeepsTheMeaning, HoldsAndCounts};
ghost use Rattle.column.specs.Trials.{TriesWord, TriesWords};

use bounds::answer::Written;
use bounds::good::GoodWidth;
use bounds::refusal::{ListRefusal, Refusal};
use bounds::room::test_room;
use bounds::width::Width;
use round::value::Rule;
use write::moving::move_word;

// How many words were moved, and how many of them are exact.
#[derive(Clone, Copy)]
pub struct MovedColumn {
    pub moved: usize,
    pub exact: usize,
}

// The words go to the first results in order; the other results stay, and all of them where the column is refused.
pub fn move_column(
    from: Width,
    to: Width,
    rule: Rule,
    words: &[u64],
    results: &mut [u64],
) -> Result<MovedColumn, ListRefusal>
    ensures moves_column { MovesColumn from.bits to.bits rule words.now (length results.old) result }
    ensures holds_and_counts { HoldsAndCounts from.bits to.bits rule words.now results.old result results.new }
{
    let column = Move {
        from: from.good()?,
        to: to.good()?,
        rule,
    };
    test_room(words.len(), results.len())?;
    column.test_words(words)?;
    Ok(MovedColumn {
        moved: words.len(),
        exact: column.write_words(words, results),
    })
}

// How the words of a column are moved.
#[derive(Clone, Copy)]
struct Move {
    from: GoodWidth,
    to: GoodWidth,
    rule: Rule,
}

impl Move {
    fn word(self, word: u64) -> Result<Written, Refusal>
        ensures { MovesAndSays self.from.bits self.to.bits self.rule word result }
    {
        move_word(self.from.into(), self.to.into(), self.rule, word)
    }

    // Whether the word can be moved. Rounding gives every word of the width a word, so only a stray bit is refused there.
    fn test_word(self, word: u64) -> Result<(), Refusal>
        ensures { TriesWord self.from.bits self.to.bits self.rule word result }
    {
        match self.rule {
            Rule::Rounded => self.from.test_word(word),
            Rule::Strict => {
                self.word(word)?;
                Ok(())
            }
        }
    }

    // Whether every word can be moved: the first that is refused decides.
    fn test_words(self, words: &[u64]) -> Result<(), ListRefusal>
        ensures { TriesWords self.from.bits self.to.bits self.rule words.now result }
    {
        for (position, word) in words.iter().enumerate() {
            if let Err(refusal) = self.test_word(*word) {
                return Err(ListRefusal::At { position, refusal });
            }
        }
        Ok(())
    }

    // The words that were tried, moved to the first results, and how many of them are exact.
    fn write_words(self, words: &[u64], results: &mut [u64]) -> usize
        requires words_in_bounds { length words.now ≤ length results.old }
        requires movable_up_to { MovableUpTo self.from.bits self.to.bits self.rule words.now (length words.now) }
        ensures are_moved { AreMoved self.from.bits self.to.bits self.rule words.now (length words.now) results.old results.new }
        ensures counts { Counts (KeepsTheMeaning self.from.bits self.to.bits words.now results.new) (length words.now) result }
    {
        let mut exact = 0;
        // results by index: of what is written through a zip with iter_mut the check knows nothing afterwards
        for (i, word) in words.iter().enumerate() {
            // it has been tried, so it is not refused
            let written = self.word(*word).unwrap();
            results[i] = written.word;
            exact += written.saying.is_exact() as usize;
        }
        exact
    }
}
