// Lent slices: moving a column, reading a sheet block and writing one. The results, and the buffer, stay as they came where the call is refused.
ghost use Rattle.std.specs.Prelude.{length};
ghost use Rattle.sheet.specs.Reads.{ReadsBlock, FillsResults};
ghost use Rattle.ledusprig.specs.Handed.{HandsOver, MovesTheColumn, WritesTheBlock, column_handed, block_handed, writing_handed, rule_of};

use crate::handed::columns::{HandedBlock, HandedColumn, HandedWriting};
use bounds::width::Width;
use column::moving::move_column;
use round::value::Rule;
use sheet::block::read_block;
use sheet::writing::write_block;

// C names the rule by a number. It is asked here, so that each rule has a loop of its own. `by_rule` can't do it: what is known of a closure that was called
// says nothing of what it left in a slice.
#[tactic(auto, unfolding(crate::specs::Handed::MovesTheColumn))]
pub fn takum_move_column(
    from: u32,
    to: u32,
    rule: u32,
    words: &[u64],
    results: &mut [u64],
) -> HandedColumn
    ensures { HandsOver column_handed (MovesTheColumn from to (rule_of rule) words.now results.old results.new) result }
{
    let from = Width { bits: from };
    let to = Width { bits: to };
    if rule == 0 {
        return move_column(from, to, Rule::Rounded, words, results).into();
    }
    move_column(from, to, Rule::Strict, words, results).into()
}

pub fn takum_read_block(block: &[u8], results: &mut [u64]) -> HandedBlock
    ensures hands_over { HandsOver block_handed (ReadsBlock block.now (length results.old)) result }
    ensures fills_results { FillsResults block.now results.old results.new }
{
    read_block(block, results).into()
}

#[tactic(auto, unfolding(crate::specs::Handed::WritesTheBlock))]
pub fn takum_write_block(width: u32, number: u32, words: &[u64], buffer: &mut [u8]) -> HandedWriting
    ensures { HandsOver writing_handed (WritesTheBlock width number words.now buffer.old buffer.new) result }
{
    write_block(Width { bits: width }, number, words, buffer).into()
}
