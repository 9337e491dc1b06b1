// A number with its neighbours or its opposite, in the order of the page. It stands for a word or a whole number, and goes on modulo 2^64.
use census::widths::TOP_BIT;

// x - 1, x and x + 1.
pub(crate) fn three(x: u64) -> [u64; 3] {
    in_a_row(x.wrapping_sub(1))
}

// x - 2 to x + 1.
pub(crate) fn four(x: u64) -> [u64; 4] {
    in_a_row(x.wrapping_sub(2))
}

// x - 2 to x + 2.
pub(crate) fn five(x: u64) -> [u64; 5] {
    in_a_row(x.wrapping_sub(2))
}

fn in_a_row<const N: usize>(first: u64) -> [u64; N] {
    std::array::from_fn(|i| first.wrapping_add(i as u64))
}

// x with its negation.
pub(crate) fn both(x: u64) -> [u64; 2] {
    [x, x.wrapping_neg()]
}

// The pattern of a binary64 number with that of its opposite, which has the other sign bit.
pub(crate) fn both_signs(pattern: u64) -> [u64; 2] {
    [pattern, pattern ^ TOP_BIT]
}
