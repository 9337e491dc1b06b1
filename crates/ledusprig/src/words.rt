// One word: reading, comparing and negating it, writing a value as one, and moving it to another width: one function for each call that C has.
ghost use Rattle.order.specs.Orders.{Compares, Negates};
ghost use Rattle.word.specs.Reads.{Reads};
ghost use Rattle.write.specs.Sayings.{WritesAndSays, MovesAndSays};
ghost use Rattle.ledusprig.specs.Handed.{HandsOver, word_handed, saying_handed, reading_handed, comparison_handed, rule_of};

use crate::handed::words::{HandedComparison, HandedReading, HandedSaying, HandedWord};
use crate::rules::by_rule;
use bounds::width::Width;
use order::order::{compare, negate};
use word::reading::read;
use write::moving::move_word;
use write::value::Value;
use write::writing::write;

pub fn takum_read(n: u32, word: u64) -> HandedReading
    ensures { HandsOver reading_handed (Reads n word) result }
{
    read(Width { bits: n }, word).into()
}

pub fn takum_compare(n: u32, x: u64, y: u64) -> HandedComparison
    ensures { HandsOver comparison_handed (Compares n x y) result }
{
    compare(Width { bits: n }, x, y).into()
}

pub fn takum_negate(n: u32, word: u64) -> HandedWord
    ensures { HandsOver word_handed (Negates n word) result }
{
    negate(Width { bits: n }, word).into()
}

// Plus or minus m * 2^k.
pub fn takum_write(n: u32, rule: u32, negative: bool, m: u64, k: i32) -> HandedSaying
    ensures { HandsOver saying_handed (WritesAndSays n (rule_of rule) (record { negative = negative; m = m; k = k })) result }
{
    let value = Value { negative, m, k };
    by_rule(rule, |rule| write(Width { bits: n }, rule, value))
}

pub fn takum_move(from: u32, to: u32, rule: u32, word: u64) -> HandedSaying
    ensures { HandsOver saying_handed (MovesAndSays from to (rule_of rule) word) result }
{
    by_rule(rule, |rule| {
        move_word(Width { bits: from }, Width { bits: to }, rule, word)
    })
}
