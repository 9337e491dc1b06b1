// The block's words, unpacked into the result slice.
ghost use Rattle.std.specs.Prelude.{◌≡◌, ◌+◌, ◌*◌, ◌≤◌, ◌++◌, length, drop};
ghost use Rattle.sheet.specs.Layout.{packed, IsWordBytes};

use crate::numbers::number;

// The size is a number of the block, width / 8; here, outside the loop, it becomes the N.
pub(crate) fn unpack(block: &[u8], size: usize, count: usize, results: &mut [u64])
    requires { IsWordBytes size × (8 + size * count ≤ length block.now) × (count ≤ length results.old) }
    ensures { results.new ≡ packed size count (drop 8 block.now) ++ drop count results.old }
{
    match size {
        1 => unpack_by::<1>(block, count, results),
        2 => unpack_by::<2>(block, count, results),
        4 => unpack_by::<4>(block, count, results),
        _ => unpack_by::<8>(block, count, results),
    }
}

// Words of N bytes.
fn unpack_by<const N: usize>(block: &[u8], count: usize, results: &mut [u64])
    requires { (N ≤ 8) × (8 + N * count ≤ length block.now) × (count ≤ length results.old) }
    ensures { results.new ≡ packed N count (drop 8 block.now) ++ drop count results.old }
{
    for (i, result) in results[..count].iter_mut().enumerate() {
        *result = number::<N>(block, 8 + N * i);
    }
}
