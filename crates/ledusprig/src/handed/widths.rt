// What the calls about widths hand over to C beside words: the exact-count limit, and a width.
ghost use Rattle.std.specs.Prelude.{◌≡◌};

use bounds::refusal::Refusal;
use bounds::width::Width;

#[repr(C)]
#[derive(Clone, Copy)]
pub struct HandedLimit {
    pub refusal: u32,
    pub limit: u64,
}

impl From<Result<u64, Refusal>> for HandedLimit {
    ghost use Rattle.ledusprig.specs.Handed.{limit_handed};

    ghost from_gives = { λ answer handed. handed ≡ limit_handed answer };

    fn from(answer: Result<u64, Refusal>) -> HandedLimit {
        match answer {
            Ok(limit) => HandedLimit { refusal: 0, limit },
            Err(q) => HandedLimit {
                refusal: q.number(),
                limit: 0,
            },
        }
    }
}

#[repr(C)]
#[derive(Clone, Copy)]
pub struct HandedWidth {
    pub refusal: u32,
    pub width: u32,
}

impl From<Result<Width, Refusal>> for HandedWidth {
    ghost use Rattle.ledusprig.specs.Handed.{width_handed};

    ghost from_gives = { λ answer handed. handed ≡ width_handed answer };

    fn from(answer: Result<Width, Refusal>) -> HandedWidth {
        match answer {
            Ok(width) => HandedWidth {
                refusal: 0,
                width: width.bits,
            },
            Err(q) => HandedWidth {
                refusal: q.number(),
                width: 0,
            },
        }
    }
}
