// What belongs to a width: its end words, NaR word and exact-count limit. C has a call for each, so each is a function.
ghost use Rattle.bounds.specs.Widths.{largest, smallest, nar_word, GivesWord, GivesLimit};
ghost use Rattle.ledusprig.specs.Handed.{HandsOver, word_handed, limit_handed};

use crate::handed::widths::HandedLimit;
use crate::handed::words::HandedWord;
use bounds::width::Width;

pub fn takum_largest(n: u32) -> HandedWord
    ensures { HandsOver word_handed (GivesWord largest n) result }
{
    Width { bits: n }.largest().into()
}

pub fn takum_smallest(n: u32) -> HandedWord
    ensures { HandsOver word_handed (GivesWord smallest n) result }
{
    Width { bits: n }.smallest().into()
}

pub fn takum_nar(n: u32) -> HandedWord
    ensures { HandsOver word_handed (GivesWord nar_word n) result }
{
    Width { bits: n }.nar().into()
}

pub fn takum_limit(n: u32) -> HandedLimit
    ensures { HandsOver limit_handed (GivesLimit n) result }
{
    Width { bits: n }.limit().into()
}
