// A significand with what lies below it, against words and midpoints.
ghost use Rattle.std.specs.Prelude.{◌≡◌, ◌+◌, ◌-◌, ◌^◌, ◌≤◌, ◌<◌};
ghost use Rattle.nearest.specs.Parts.{TellsEnd, TellsPowers, TellsHalf, TellsNothing, ChoosesByCut, margin_of};

use crate::size::Rest;
use crate::start::Start;
use bounds::good::GoodWidth;
use std::cmp::Ordering;

// A significand that has its top bit set, and the rest below its last unit.
#[derive(Clone, Copy)]
pub(crate) struct Amount {
    pub m: u64,
    pub rest: Rest,
    pub ghost normal: { 2 ^ 63 ≤ m },
}

impl Amount {
    // Whether the size is exactly low, `bits` being the first of its string: neither the string nor the significand nor the rest goes on behind low.
    pub(crate) fn ends_at(self, width: GoodWidth, low: u64, bits: u64, start: Start) -> bool
        requires { low < 2 ^ (width.bits - 1) }
        ensures { TellsEnd width.bits low bits start.r self.m self.rest result }
    {
        bits == width.string(low)
            && Tail {
                bits: self.m << (60 - start.r),
                rest: self.rest,
            }
            .is_nothing()
    }

    // On which side of the midpoint of 2^i and 2^j the size lies, e being its own exponent. The midpoint is 2^(j - 1) + 2^(i - 1).
    pub(crate) fn side_of_powers(self, i: u32, j: u32, e: u32) -> Ordering
        requires { (i < j) × (j ≤ i + 64) × (e < j) × (j < 510) }
        ensures { TellsPowers i j e self.m self.rest result }
    {
        if e + 1 < j {
            return Ordering::Less;
        }
        let gap = j - i;
        if gap < 64 {
            return against(self.m - (1 << 63), 1 << (63 - gap), self.rest);
        }
        // 64 binades apart, the midpoint lies half a unit past m = 2^63.
        self.m.cmp(&(1 << 63)).then(self.rest.cmp(&Rest::Half))
    }
}

// What is cut off a significand: its last bits, at the top of 64, and the rest below them.
#[derive(Clone, Copy)]
pub(crate) struct Tail {
    pub bits: u64,
    pub rest: Rest,
}

impl Tail {
    pub(crate) fn is_nothing(self) -> bool
        ensures { TellsNothing self.bits self.rest result }
    {
        self.bits == 0 && self.rest.is_nothing()
    }

    // Low or low + 1, halfway the even one. One test decides, since nobody can foretell which way it goes: with `chosen` and the order of the bits beside a half
    // in its place, writing at 16 bits took 1.5 of the time.
    pub(crate) fn chosen(self, low: u64) -> u64
        requires { low + 1 < 2 ^ 63 }
        ensures { ChoosesByCut low self.bits self.rest result }
    {
        if (1 << 63) - self.margin(low) < self.bits {
            return low + 1;
        }
        low
    }

    // At half exactly, an odd word goes up; with any rest at half, the size is past it.
    fn margin(self, low: u64) -> u64
        ensures { result ≡ margin_of low self.rest }
    {
        if self.rest.is_nothing() {
            return low % 2;
        }
        1
    }
}

// On which side of a half lies what is beyond, with the rest.
fn against(beyond: u64, half: u64, rest: Rest) -> Ordering
    ensures { TellsHalf beyond half rest result }
{
    beyond.cmp(&half).then(rest.cmp(&Rest::Nothing))
}
