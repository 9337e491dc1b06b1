// Why a call is refused: the eleven refusals of paper 01 and Wish 10's RETIRED by name.
ghost use Rattle.std.specs.Prelude.{◌≡◌};
ghost use Rattle.bounds.specs.Refusals.{number_of};

#[derive(Clone, Copy, PartialEq, Eq)]
pub enum Refusal {
    Width,
    Stray,
    Nar,
    Inexact,
    Over,
    Room,
    Size,
    Mark,
    Check,
    Count,
    Fill,
    Retired,
}

impl Refusal {
    // The number that the papers fix for the refusal. It is no discriminant of the enum: two that are equal, as in the wrong edits number_shared and
    // number_of_stray, would not compile, and the contract would not be tried.
    pub fn number(self) -> u32
        ensures { result ≡ number_of self }
    {
        match self {
            Refusal::Width => 1,
            Refusal::Stray => 2,
            Refusal::Nar => 3,
            Refusal::Inexact => 4,
            Refusal::Over => 5,
            Refusal::Room => 6,
            Refusal::Size => 7,
            Refusal::Mark => 8,
            Refusal::Check => 9,
            Refusal::Count => 10,
            Refusal::Fill => 11,
            Refusal::Retired => 13,
        }
    }
}

// Why a call over several words is refused: for what the call was given as a whole, or for the word at a position.
#[derive(Clone, Copy, PartialEq, Eq)]
pub enum ListRefusal {
    Whole(Refusal),
    At { position: usize, refusal: Refusal },
}

impl From<Refusal> for ListRefusal {
    ghost use Rattle.bounds.specs.declared.refusal.ListRefusal.{ListRefusal};

    ghost from_gives = { λ q e. e ≡ ListRefusal.Whole q };

    fn from(q: Refusal) -> ListRefusal {
        ListRefusal::Whole(q)
    }
}
