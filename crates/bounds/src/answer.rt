// What a call that writes a value answers beside a refusal: the word, and which way it went.
ghost use Rattle.std.specs.Prelude.{◌≡◌, Ok};
ghost use Rattle.bounds.specs.Sayings.{exactly};

use crate::saying::Saying;

#[derive(Clone, Copy)]
pub struct Written {
    pub word: u64,
    pub saying: Saying,
}

impl Written {
    // A word that is exactly what was to be written.
    pub fn exactly(word: u64) -> Written
        ensures { result ≡ exactly word }
    {
        Written {
            word,
            saying: Saying::Exact,
        }
    }
}
