// What the calls over lent slices hand over to C: of a moved column, of a block that was written, and of one that was read.
ghost use Rattle.std.specs.Prelude.{◌≡◌};

use bounds::refusal::{ListRefusal, Refusal};
use column::moving::MovedColumn;
use sheet::block::Block;

// The position of the word that was refused; 0 where no word was. Of the words that were moved, `exact` is how many are exact.
#[repr(C)]
#[derive(Clone, Copy)]
pub struct HandedColumn {
    pub refusal: u32,
    pub position: usize,
    pub moved: usize,
    pub exact: usize,
}

impl From<Result<MovedColumn, ListRefusal>> for HandedColumn {
    ghost use Rattle.ledusprig.specs.Handed.{column_handed};

    ghost from_gives = { λ answer handed. handed ≡ column_handed answer };

    // Where a word was refused, its position is all that is handed over beside the refusal: the words before it were not moved either, so none is counted.
    fn from(answer: Result<MovedColumn, ListRefusal>) -> HandedColumn {
        match answer {
            Ok(column) => HandedColumn {
                refusal: 0,
                position: 0,
                moved: column.moved,
                exact: column.exact,
            },
            Err(ListRefusal::Whole(q)) => HandedColumn {
                refusal: q.number(),
                position: 0,
                moved: 0,
                exact: 0,
            },
            Err(ListRefusal::At { position, refusal }) => HandedColumn {
                refusal: refusal.number(),
                position, // of the word
                moved: 0,
                exact: 0, // the words before it were not moved
            },
        }
    }
}

// The position of the word that was refused; 0 where no word was.
#[repr(C)]
#[derive(Clone, Copy)]
pub struct HandedWriting {
    pub refusal: u32,
    pub position: usize,
}

impl From<Result<(), ListRefusal>> for HandedWriting {
    ghost use Rattle.ledusprig.specs.Handed.{writing_handed};

    ghost from_gives = { λ answer handed. handed ≡ writing_handed answer };

    fn from(answer: Result<(), ListRefusal>) -> HandedWriting {
        match answer {
            Ok(()) => HandedWriting {
                refusal: 0,
                position: 0,
            },
            Err(ListRefusal::Whole(q)) => HandedWriting {
                refusal: q.number(),
                position: 0,
            },
            Err(ListRefusal::At { position, refusal }) => HandedWriting {
                refusal: refusal.number(),
                position,
            },
        }
    }
}

#[repr(C)]
#[derive(Clone, Copy)]
pub struct HandedBlock {
    pub refusal: u32,
    pub width: u32,
    pub number: u32,
    pub count: u32,
}

impl From<Result<Block, Refusal>> for HandedBlock {
    ghost use Rattle.ledusprig.specs.Handed.{block_handed};

    ghost from_gives = { λ answer handed. handed ≡ block_handed answer };

    fn from(answer: Result<Block, Refusal>) -> HandedBlock {
        match answer {
            Ok(block) => HandedBlock {
                refusal: 0,
                width: block.width,
                number: block.number,
                count: block.count,
            },
            Err(q) => HandedBlock {
                refusal: q.number(),
                width: 0,
                number: 0,
                count: 0,
            },
        }
    }
}
