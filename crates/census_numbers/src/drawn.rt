// What drawn numbers of several parts have in common: zeros at their end. This is the number with its lowest t bits set to zero; t is below 64,
// but the check doesn't know it, so it is cut.
pub(crate) fn without_lowest(x: u64, t: u64) -> u64 {
    let cut = t.min(63);
    (x >> cut) << cut
}
