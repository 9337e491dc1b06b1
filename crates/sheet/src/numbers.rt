// Little-endian numbers of N bytes, 8 at most: taken out of a slice, and put into one. That N is 8 at most is asked of each, also in words.rt and
// parts.rt, since a const parameter can't carry a fact.
ghost use Rattle.std.specs.Prelude.{◌≡◌, ◌+◌, ◌*◌, ◌^◌, ◌<◌, ◌≤◌, length};
ghost use Rattle.sheet.specs.Layout.{number_at};
ghost use Rattle.sheet.specs.Puts.{Puts};

// By a fold: `u64::from_le_bytes` takes eight bytes, and tests/stack lets no crate of the library have an array to fill up to them.
pub(crate) fn number<const N: usize>(bytes: &[u8], at: usize) -> u64
    requires { (N ≤ 8) × (at + N ≤ length bytes.now) }
    ensures { (result ≡ number_at N at bytes.now) × (result < 2 ^ (8 * N)) }
{
    bytes[at..at + N]
        .iter()
        .rev()
        .fold(0, |x, byte| x << 8 | *byte as u64)
}

pub(crate) fn put<const N: usize>(x: u64, bytes: &mut [u8], at: usize)
    requires { (N ≤ 8) × (at + N ≤ length bytes.old) × (x < 2 ^ (8 * N)) }
    ensures { Puts N at x bytes.old bytes.new }
{
    bytes[at..at + N].copy_from_slice(&x.to_le_bytes()[..N]);
}
