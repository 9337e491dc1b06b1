// Patterns of binary64 numbers that several parts name: first that of infinity; all patterns above it, the sign bit aside, are NaNs.
pub(crate) const INFINITY: u64 = 0x7ff0_0000_0000_0000;

// One NaN stands for all.
pub(crate) const NAN: u64 = 0x7ff8_0000_0000_0000;
