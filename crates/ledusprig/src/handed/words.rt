// What one word's calls hand over to C: a word, alone or with its saying, a reading, an order. Calls of widths and numbers that give a word hand it over
// by the same structs.
ghost use Rattle.std.specs.Prelude.{◌≡◌};
ghost use Rattle.ledusprig.specs.Handed.{kind_handed};

use bounds::answer::Written;
use bounds::refusal::Refusal;
use std::cmp::Ordering;
use word::reading::{Kind, Reading};

#[repr(C)]
#[derive(Clone, Copy)]
pub struct HandedWord {
    pub refusal: u32,
    pub word: u64,
}

impl From<Result<u64, Refusal>> for HandedWord {
    ghost use Rattle.ledusprig.specs.Handed.{word_handed};

    ghost from_gives = { λ answer handed. handed ≡ word_handed answer };

    fn from(answer: Result<u64, Refusal>) -> HandedWord {
        match answer {
            Ok(word) => HandedWord { refusal: 0, word },
            Err(q) => HandedWord {
                refusal: q.number(),
                word: 0,
            },
        }
    }
}

// A word that was written or moved, with the number of its saying.
#[repr(C)]
#[derive(Clone, Copy)]
pub struct HandedSaying {
    pub refusal: u32,
    pub saying: u32,
    pub word: u64,
}

impl From<Result<Written, Refusal>> for HandedSaying {
    ghost use Rattle.ledusprig.specs.Handed.{saying_handed};

    ghost from_gives = { λ answer handed. handed ≡ saying_handed answer };

    fn from(answer: Result<Written, Refusal>) -> HandedSaying {
        match answer {
            Ok(written) => HandedSaying {
                refusal: 0,
                saying: written.saying.number(),
                word: written.word,
            },
            Err(q) => HandedSaying {
                refusal: q.number(),
                saying: 0,
                word: 0,
            },
        }
    }
}

// The kind is 0 for zero, 1 for NaR and 2 for a number: its sign and the size m * 2^(h - p), with 2^p <= m < 2^(p + 1). The word's own fraction bits
// come with every kind.
#[repr(C)]
#[derive(Clone, Copy)]
pub struct HandedReading {
    pub refusal: u32,
    pub kind: u32,
    pub negative: bool,
    pub h: i32,
    pub m: u64,
    pub p: u32,
    pub own: u32,
}

impl From<Result<Reading, Refusal>> for HandedReading {
    ghost use Rattle.ledusprig.specs.Handed.{reading_handed};

    ghost from_gives = { λ answer handed. handed ≡ reading_handed answer };

    fn from(answer: Result<Reading, Refusal>) -> HandedReading {
        match answer {
            Ok(reading) => of_kind(reading.kind, reading.own),
            Err(q) => HandedReading {
                refusal: q.number(),
                kind: 0,
                negative: false,
                h: 0,
                m: 0,
                p: 0,
                own: 0,
            },
        }
    }
}

fn of_kind(kind: Kind, own: u32) -> HandedReading
    ensures { result ≡ kind_handed kind own }
{
    match kind {
        Kind::Zero => HandedReading {
            refusal: 0,
            kind: 0,
            negative: false,
            h: 0,
            m: 0,
            p: 0,
            own,
        },
        Kind::Nar => HandedReading {
            refusal: 0,
            kind: 1,
            negative: false,
            h: 0,
            m: 0,
            p: 0,
            own,
        },
        Kind::Number { negative, h, m, p } => HandedReading {
            refusal: 0,
            kind: 2,
            negative,
            h,
            m,
            p,
            own,
        },
    }
}

// The order is -1, 0 or 1, as the paper has it.
#[repr(C)]
#[derive(Clone, Copy)]
pub struct HandedComparison {
    pub refusal: u32,
    pub order: i32,
}

impl From<Result<Ordering, Refusal>> for HandedComparison {
    ghost use Rattle.ledusprig.specs.Handed.{comparison_handed};

    ghost from_gives = { λ answer handed. handed ≡ comparison_handed answer };

    fn from(answer: Result<Ordering, Refusal>) -> HandedComparison {
        match answer {
            Ok(order) => HandedComparison {
                refusal: 0,
                order: order as i32,
            },
            Err(q) => HandedComparison {
                refusal: q.number(),
                order: 0,
            },
        }
    }
}
