// Bits of the 64-bit carrier: powers of two, and the low bits of a number.
ghost use Rattle.std.specs.Prelude.{◌≡◌, ◌%◌, ◌^◌, ◌<◌};

// A function, though `1 << k` is as short: with the shift in its place LLVM makes a jump of the direction bit, and whatever reads a word takes longer.
pub(crate) fn power_of_two(k: u32) -> u64
    requires { k < 64 }
    ensures { result ≡ 2 ^ k }
{
    1 << k
}

pub(crate) fn low_bits(x: u64, count: u32) -> u64
    requires { count < 64 }
    ensures { result ≡ x % 2 ^ count }
{
    x & (power_of_two(count) - 1)
}
