// Whole numbers and binary64 numbers, in and out, and how wide a word a whole number needs: one function for each call that C has.
ghost use Rattle.whole.specs.Wholes.{TakesWhole};
ghost use Rattle.whole.specs.Sayings.{WritesWholeAndSays};
ghost use Rattle.whole.specs.Shortest.{GivesShortest};
ghost use Rattle.binary64.specs.Takes.{TakesBinary64};
ghost use Rattle.binary64.specs.Sayings.{WritesBinary64AndSays};
ghost use Rattle.ledusprig.specs.Handed.{HandsOver, saying_handed, whole_handed, width_handed, number_handed, rule_of, taking_of};

use crate::handed::numbers::{HandedNumber, HandedWhole};
use crate::handed::widths::HandedWidth;
use crate::handed::words::HandedSaying;
use crate::rules::by_rule;
use binary64::taking::take_binary64;
use binary64::writing::write_binary64;
use bounds::width::Width;
use whole::shortest::shortest_width;
use whole::taking::{Taking, take_whole};
use whole::writing::write_whole;

pub fn takum_write_whole(n: u32, rule: u32, x: i64) -> HandedSaying
    ensures { HandsOver saying_handed (WritesWholeAndSays n (rule_of rule) x) result }
{
    by_rule(rule, |rule| write_whole(Width { bits: n }, rule, x))
}

// C names a taking by a number. It is asked first, so that each taking is compiled by itself.
pub fn takum_take_whole(n: u32, taking: u32, word: u64) -> HandedWhole
    ensures { HandsOver whole_handed (TakesWhole n (taking_of taking) word) result }
{
    if taking == 0 {
        return take_whole(Width { bits: n }, Taking::Nearest, word).into();
    }
    take_whole(Width { bits: n }, Taking::Strict, word).into()
}

pub fn takum_shortest_width(x: i64) -> HandedWidth
    ensures { HandsOver width_handed (GivesShortest x) result }
{
    shortest_width(x).into()
}

pub fn takum_write_binary64(n: u32, rule: u32, x: f64) -> HandedSaying
    ensures { HandsOver saying_handed (WritesBinary64AndSays n (rule_of rule) x) result }
{
    by_rule(rule, |rule| write_binary64(Width { bits: n }, rule, x))
}

pub fn takum_take_binary64(n: u32, word: u64) -> HandedNumber
    ensures { HandsOver number_handed (TakesBinary64 n word) result }
{
    take_binary64(Width { bits: n }, word).into()
}
