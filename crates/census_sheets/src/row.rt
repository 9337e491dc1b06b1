// The row of a call: sentinels before it, of which the inner ones are lent as results or as a buffer, and all taken in after it.
ghost use Rattle.std.specs.Prelude.{◌≤◌};

// How many sentinels lie before the results, and how many after them.
pub(crate) const BESIDE: usize = 8;

// Rows are arrays, since no program here asks for memory. They are as long as the longest ones that a part needs. One function for both would be
// longer than these two lines.
pub(crate) fn number_row() -> [u64; 1024] {
    std::array::from_fn(|i| u64::MAX - i as u64)
}

pub(crate) fn byte_row() -> [u8; 536] {
    std::array::from_fn(|i| ((u64::MAX - i as u64) % 256) as u8)
}

// How many words a result slice has.
#[derive(Clone, Copy)]
pub(crate) struct Room {
    pub(crate) words: usize,
    pub(crate) ghost fits: { words ≤ 1008 },
}

// Each of the rooms around a number of words.
pub(crate) fn at_rooms_around<F: FnMut(Room)>(words: usize, mut call: F)
    requires within { words ≤ 1000 }
    requires calls { F.IsAlwaysCallable call }
{
    call(Room { words: 0 });
    if 0 < words {
        call(Room { words: words - 1 });
    }
    for words in [words, words + 1, words + 8] {
        call(Room { words });
    }
}
