// Every exported call, called as a reader calls it: the contract here is what is promised of the struct that it hands over, and the proof has only the
// exported function's contract to go by. The C interface has these calls one by one, so each has its function here.
#![tactic(auto)]

ghost use Rattle.promises.specs.Face.{is_strict, HandsLargest, HandsSmallest, HandsNaR, HandsLimit, HandsReading, HandsComparison, HandsNegated, HandsWritten, HandsMoved, HandsWholeWritten, HandsWhole, HandsShortest, HandsBinary64Written, HandsNumber, HandsColumn, HandsBlock, HandsBlockWritten};

use ledusprig::columns::{takum_move_column, takum_read_block, takum_write_block};
use ledusprig::handed::columns::{HandedBlock, HandedColumn, HandedWriting};
use ledusprig::handed::numbers::{HandedNumber, HandedWhole};
use ledusprig::handed::widths::{HandedLimit, HandedWidth};
use ledusprig::handed::words::{HandedComparison, HandedReading, HandedSaying, HandedWord};
use ledusprig::numbers::{
    takum_shortest_width, takum_take_binary64, takum_take_whole, takum_write_binary64,
    takum_write_whole,
};
use ledusprig::widths::{takum_largest, takum_limit, takum_nar, takum_smallest};
use ledusprig::words::{takum_compare, takum_move, takum_negate, takum_read, takum_write};

pub fn call_largest(n: u32) -> HandedWord
    ensures { HandsLargest n result }
{
    takum_largest(n)
}

pub fn call_smallest(n: u32) -> HandedWord
    ensures { HandsSmallest n result }
{
    takum_smallest(n)
}

pub fn call_nar(n: u32) -> HandedWord
    ensures { HandsNaR n result }
{
    takum_nar(n)
}

pub fn call_limit(n: u32) -> HandedLimit
    ensures { HandsLimit n result }
{
    takum_limit(n)
}

pub fn call_read(n: u32, word: u64) -> HandedReading
    ensures { HandsReading n word result }
{
    takum_read(n, word)
}

pub fn call_compare(n: u32, x: u64, y: u64) -> HandedComparison
    ensures { HandsComparison n x y result }
{
    takum_compare(n, x, y)
}

pub fn call_negate(n: u32, word: u64) -> HandedWord
    ensures { HandsNegated n word result }
{
    takum_negate(n, word)
}

pub fn call_write(n: u32, rule: u32, negative: bool, m: u64, k: i32) -> HandedSaying
    ensures { HandsWritten n (is_strict rule) negative m k result }
{
    takum_write(n, rule, negative, m, k)
}

pub fn call_move(from: u32, to: u32, rule: u32, word: u64) -> HandedSaying
    ensures { HandsMoved from to (is_strict rule) word result }
{
    takum_move(from, to, rule, word)
}

pub fn call_write_whole(n: u32, rule: u32, x: i64) -> HandedSaying
    ensures { HandsWholeWritten n (is_strict rule) x result }
{
    takum_write_whole(n, rule, x)
}

pub fn call_take_whole(n: u32, taking: u32, word: u64) -> HandedWhole
    ensures { HandsWhole n (is_strict taking) word result }
{
    takum_take_whole(n, taking, word)
}

pub fn call_shortest_width(x: i64) -> HandedWidth
    ensures { HandsShortest x result }
{
    takum_shortest_width(x)
}

pub fn call_write_binary64(n: u32, rule: u32, x: f64) -> HandedSaying
    ensures { HandsBinary64Written n (is_strict rule) x result }
{
    takum_write_binary64(n, rule, x)
}

pub fn call_take_binary64(n: u32, word: u64) -> HandedNumber
    ensures { HandsNumber n word result }
{
    takum_take_binary64(n, word)
}

pub fn call_move_column(
    from: u32,
    to: u32,
    rule: u32,
    words: &[u64],
    results: &mut [u64],
) -> HandedColumn
    ensures { HandsColumn from to (is_strict rule) words.now results.old results.new result }
{
    takum_move_column(from, to, rule, words, results)
}

pub fn call_read_block(block: &[u8], results: &mut [u64]) -> HandedBlock
    ensures { HandsBlock block.now results.old results.new result }
{
    takum_read_block(block, results)
}

pub fn call_write_block(width: u32, number: u32, words: &[u64], buffer: &mut [u8]) -> HandedWriting
    ensures { HandsBlockWritten width number words.now buffer.old buffer.new result }
{
    takum_write_block(width, number, words, buffer)
}
