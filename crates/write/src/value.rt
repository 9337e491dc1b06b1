// What is offered for writing.

// Plus or minus m * 2^k; with m = 0 it is zero, whichever the sign.
#[derive(Clone, Copy)]
pub struct Value {
    pub negative: bool,
    pub m: u64,
    pub k: i32,
}
