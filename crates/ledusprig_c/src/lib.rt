// The calls of crate ledusprig, exported for C under the names of include/ledusprig.h: each hands its arguments on as they came, and promises what the call
// promises. Nothing is decided here. Each call stands here once more, because a crate is a library or a static library, and C's names have no generic form.
#![tactic(auto)]

ghost use Rattle.std.specs.Prelude.{length};
ghost use Rattle.bounds.specs.Widths.{largest, smallest, nar_word, GivesWord, GivesLimit};
ghost use Rattle.order.specs.Orders.{Compares, Negates};
ghost use Rattle.word.specs.Reads.{Reads};
ghost use Rattle.write.specs.Sayings.{WritesAndSays, MovesAndSays};
ghost use Rattle.whole.specs.Wholes.{TakesWhole};
ghost use Rattle.whole.specs.Sayings.{WritesWholeAndSays};
ghost use Rattle.whole.specs.Shortest.{GivesShortest};
ghost use Rattle.binary64.specs.Takes.{TakesBinary64};
ghost use Rattle.binary64.specs.Sayings.{WritesBinary64AndSays};
ghost use Rattle.sheet.specs.Reads.{ReadsBlock, FillsResults};
ghost use Rattle.ledusprig.specs.Handed.{HandsOver, MovesTheColumn, WritesTheBlock, word_handed, saying_handed, reading_handed, comparison_handed, limit_handed, width_handed, whole_handed, number_handed, column_handed, block_handed, writing_handed, rule_of, taking_of};

use ledusprig::handed::columns::{HandedBlock, HandedColumn, HandedWriting};
use ledusprig::handed::numbers::{HandedNumber, HandedWhole};
use ledusprig::handed::widths::{HandedLimit, HandedWidth};
use ledusprig::handed::words::{HandedComparison, HandedReading, HandedSaying, HandedWord};
use ledusprig::{columns, numbers, widths, words};

#[unsafe(no_mangle)]
pub extern "C" fn takum_largest(n: u32) -> HandedWord
    ensures { HandsOver word_handed (GivesWord largest n) result }
{
    widths::takum_largest(n)
}

#[unsafe(no_mangle)]
pub extern "C" fn takum_smallest(n: u32) -> HandedWord
    ensures { HandsOver word_handed (GivesWord smallest n) result }
{
    widths::takum_smallest(n)
}

#[unsafe(no_mangle)]
pub extern "C" fn takum_nar(n: u32) -> HandedWord
    ensures { HandsOver word_handed (GivesWord nar_word n) result }
{
    widths::takum_nar(n)
}

#[unsafe(no_mangle)]
pub extern "C" fn takum_limit(n: u32) -> HandedLimit
    ensures { HandsOver limit_handed (GivesLimit n) result }
{
    widths::takum_limit(n)
}

#[unsafe(no_mangle)]
pub extern "C" fn takum_read(n: u32, word: u64) -> HandedReading
    ensures { HandsOver reading_handed (Reads n word) result }
{
    words::takum_read(n, word)
}

#[unsafe(no_mangle)]
pub extern "C" fn takum_compare(n: u32, x: u64, y: u64) -> HandedComparison
    ensures { HandsOver comparison_handed (Compares n x y) result }
{
    words::takum_compare(n, x, y)
}

#[unsafe(no_mangle)]
pub extern "C" fn takum_negate(n: u32, word: u64) -> HandedWord
    ensures { HandsOver word_handed (Negates n word) result }
{
    words::takum_negate(n, word)
}

// Plus or minus m * 2^k.
#[unsafe(no_mangle)]
pub extern "C" fn takum_write(n: u32, rule: u32, negative: bool, m: u64, k: i32) -> HandedSaying
    ensures { HandsOver saying_handed (WritesAndSays n (rule_of rule) (record { negative = negative; m = m; k = k })) result }
{
    words::takum_write(n, rule, negative, m, k)
}

#[unsafe(no_mangle)]
pub extern "C" fn takum_move(from: u32, to: u32, rule: u32, word: u64) -> HandedSaying
    ensures { HandsOver saying_handed (MovesAndSays from to (rule_of rule) word) result }
{
    words::takum_move(from, to, rule, word)
}

#[unsafe(no_mangle)]
pub extern "C" fn takum_write_whole(n: u32, rule: u32, x: i64) -> HandedSaying
    ensures { HandsOver saying_handed (WritesWholeAndSays n (rule_of rule) x) result }
{
    numbers::takum_write_whole(n, rule, x)
}

#[unsafe(no_mangle)]
pub extern "C" fn takum_take_whole(n: u32, taking: u32, word: u64) -> HandedWhole
    ensures { HandsOver whole_handed (TakesWhole n (taking_of taking) word) result }
{
    numbers::takum_take_whole(n, taking, word)
}

#[unsafe(no_mangle)]
pub extern "C" fn takum_shortest_width(x: i64) -> HandedWidth
    ensures { HandsOver width_handed (GivesShortest x) result }
{
    numbers::takum_shortest_width(x)
}

#[unsafe(no_mangle)]
pub extern "C" fn takum_write_binary64(n: u32, rule: u32, x: f64) -> HandedSaying
    ensures { HandsOver saying_handed (WritesBinary64AndSays n (rule_of rule) x) result }
{
    numbers::takum_write_binary64(n, rule, x)
}

#[unsafe(no_mangle)]
pub extern "C" fn takum_take_binary64(n: u32, word: u64) -> HandedNumber
    ensures { HandsOver number_handed (TakesBinary64 n word) result }
{
    numbers::takum_take_binary64(n, word)
}

#[unsafe(no_mangle)]
pub extern "C" fn takum_move_column(
    from: u32,
    to: u32,
    rule: u32,
    words: &[u64],
    results: &mut [u64],
) -> HandedColumn
    ensures { HandsOver column_handed (MovesTheColumn from to (rule_of rule) words.now results.old results.new) result }
{
    columns::takum_move_column(from, to, rule, words, results)
}

#[unsafe(no_mangle)]
pub extern "C" fn takum_read_block(block: &[u8], results: &mut [u64]) -> HandedBlock
    ensures hands_over { HandsOver block_handed (ReadsBlock block.now (length results.old)) result }
    ensures fills_results { FillsResults block.now results.old results.new }
{
    columns::takum_read_block(block, results)
}

#[unsafe(no_mangle)]
pub extern "C" fn takum_write_block(
    width: u32,
    number: u32,
    words: &[u64],
    buffer: &mut [u8],
) -> HandedWriting
    ensures { HandsOver writing_handed (WritesTheBlock width number words.now buffer.old buffer.new) result }
{
    columns::takum_write_block(width, number, words, buffer)
}
