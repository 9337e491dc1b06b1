// What is taken out of a word, as C has it: a whole number, or a binary64 number.
ghost use Rattle.std.specs.Prelude.{◌≡◌};

use binary64::taking::Binary64;
use bounds::refusal::Refusal;

#[repr(C)]
#[derive(Clone, Copy)]
pub struct HandedWhole {
    pub refusal: u32,
    pub whole: i64,
}

impl From<Result<i64, Refusal>> for HandedWhole {
    ghost use Rattle.ledusprig.specs.Handed.{whole_handed};

    ghost from_gives = { λ answer handed. handed ≡ whole_handed answer };

    fn from(answer: Result<i64, Refusal>) -> HandedWhole {
        match answer {
            Ok(whole) => HandedWhole { refusal: 0, whole },
            Err(q) => HandedWhole {
                refusal: q.number(),
                whole: 0,
            },
        }
    }
}

// Where the word is NaR, `real` is false and the number a NaN, so that who passes over `real` doesn't go on with a 0.
#[repr(C)]
#[derive(Clone, Copy)]
pub struct HandedNumber {
    pub refusal: u32,
    pub real: bool,
    pub number: f64,
}

impl From<Binary64> for HandedNumber {
    ghost use Rattle.ledusprig.specs.Handed.{number_handed};

    ghost from_gives = { λ answer handed. handed ≡ number_handed answer };

    // The NaN is a quotient, because f64::from_bits takes no pattern of a NaN, and a constant can't be one. It is divided when this is compiled, not in a
    // call.
    fn from(answer: Binary64) -> HandedNumber {
        match answer {
            Binary64::Number(number) => HandedNumber {
                refusal: 0,
                real: true,
                number,
            },
            Binary64::Nar => HandedNumber {
                refusal: 0,
                real: false,
                number: 0.0 / 0.0,
            },
            Binary64::Refused(q) => HandedNumber {
                refusal: q.number(),
                real: false,
                number: 0.0,
            },
        }
    }
}
