// Places in runs: one line for each run, with the digest of what is taken in at its places.
ghost use Rattle.std.specs.Prelude.{◌≤◌};

use crate::digest::Digest;
use crate::line::{print_digest, print_numbers, print_text};
use std::ops::Range;

// The numbers stand before the run's first place: most often that is the width.
pub fn print_runs<F: FnMut(&mut Digest, u64)>(
    name: &str,
    numbers: &[u64],
    places: Range<u64>,
    longest: usize,
    mut take: F,
)
    requires takes { F.IsAlwaysCallable take }
    requires goes_on { 1 ≤ longest }
{
    for first in (places.start..places.end).step_by(longest) {
        let stop = first.saturating_add(longest as u64).min(places.end);
        let mut digest = Digest::EMPTY;
        for place in first..stop {
            take(&mut digest, place);
        }
        print_text(name.as_bytes());
        print_numbers(numbers);
        print_numbers(&[first, stop - first]);
        print_digest(digest.number());
    }
}
