// What the hub takes, and by which rule it is to be written.

// Plus or minus (high * 2^64 + low) * 2^k; with both numbers 0 it is zero, whichever the sign. Whoever has more bits than these 128, the top
// one being set, sets the lowest one if anything but zeros lies below: that changes no answer.
#[derive(Clone, Copy)]
pub struct LongValue {
    pub negative: bool,
    pub high: u64,
    pub low: u64,
    pub k: i32,
}

// Rounded gives the nearest word, strict the word with exactly that value or a refusal.
#[derive(Clone, Copy, PartialEq, Eq)]
pub enum Rule {
    Rounded,
    Strict,
}
