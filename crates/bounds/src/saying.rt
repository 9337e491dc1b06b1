// Which way it went: what is said beside a word that was written for a value, one of the four cases of paper 02's Wish 4.
ghost use Rattle.std.specs.Prelude.{◌≡◌};
ghost use Rattle.bounds.specs.Sayings.{saying_number, says_exact, opposite_saying};

// The word has exactly the value; it lies below the value, or above it, the sign counting; or the value lies past the end of the words.
#[derive(Clone, Copy, PartialEq, Eq)]
pub enum Saying {
    Exact,
    Below,
    Above,
    PastTheEnd,
}

impl Saying {
    // The number that stands for the saying in C and Rust. It is no discriminant of the enum, as a refusal's number is none (`Refusal::number`).
    pub fn number(self) -> u32
        ensures { result ≡ saying_number self }
    {
        match self {
            Saying::Exact => 0,
            Saying::Below => 1,
            Saying::Above => 2,
            Saying::PastTheEnd => 3,
        }
    }

    pub fn is_exact(self) -> bool
        ensures { result ≡ says_exact self }
    {
        self == Saying::Exact
    }

    // What is said where value and word are negated: below and above change places.
    pub fn opposite(self) -> Saying
        ensures { result ≡ opposite_saying self }
    {
        match self {
            Saying::Exact => Saying::Exact,
            Saying::Below => Saying::Above,
            Saying::Above => Saying::Below,
            Saying::PastTheEnd => Saying::PastTheEnd,
        }
    }
}
