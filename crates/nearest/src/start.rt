// A characteristic, and how every string of it begins.
ghost use Rattle.std.specs.Prelude.{◌≡◌, ◌+◌, ◌^◌, ◌≤◌, ◌<◌};
ghost use Rattle.std.specs.Int.Signed.{mag};

use crate::amount::Amount;

// An exponent that is a characteristic, from -255 to 254.
#[derive(Clone, Copy)]
pub(crate) struct Characteristic {
    pub c: i64,
    pub ghost inside: { mag c ≤ 254 },
}

impl Characteristic {
    ghost use Rattle.nearest.specs.Parts.{IsCharacteristic, IsRaised, Begins};

    // The exponent, if it is one.
    pub(crate) fn new(h: i64) -> Option<Characteristic>
        ensures { IsCharacteristic h result }
    {
        if (-255..255).contains(&h) {
            return Some(Characteristic { c: h });
        }
        None
    }

    // So that it isn't negative.
    pub(crate) fn raised(self) -> u32
        ensures { IsRaised self.c result }
    {
        (self.c + 255) as u32
    }

    pub(crate) fn start(self) -> Start
        ensures { Begins self.c result.bits result.r }
    {
        let above = Start::above(self.size());
        if self.c < 0 {
            return above.turned();
        }
        above
    }

    // c + 1, or -c below zero.
    fn size(self) -> u64
        ensures { result ≡ mag self.c + 1 }
    {
        if self.c < 0 {
            return self.c.unsigned_abs();
        }
        self.c as u64 + 1
    }
}

// How every string of a characteristic begins after its sign: direction, regime and characteristic bits, and the regime.
#[derive(Clone, Copy)]
pub(crate) struct Start {
    pub bits: u64,
    pub r: u32,
    pub ghost seven: { r ≤ 7 },
    pub ghost room: { bits < 2 ^ (4 + r) },
}

impl Start {
    ghost use Rattle.nearest.specs.Parts.{StartsAbove, IsTurned, first_bits};

    // The characteristic is size - 1, and the regime floor(log2 size), by leading zeros, as paper 01 names it.
    fn above(size: u64) -> Start
        requires { (0 < size) × (size ≤ 255) }
        ensures { StartsAbove size result }
    {
        let r = 63 - size.leading_zeros();
        Start {
            bits: ((7 + r as u64) << r) + size,
            r,
        }
    }

    // The characteristic -size has the start of size - 1 with every bit turned. It is so little that the machine makes it either way, and doesn't
    // jump where nobody can foretell the sign.
    fn turned(self) -> Start
        ensures { IsTurned self result }
    {
        Start {
            bits: (16 << self.r) - 1 - self.bits,
            r: self.r,
        }
    }

    // The first 64 bits of a size's endless string, its sign among them.
    pub(crate) fn first_bits(self, amount: Amount) -> u64
        ensures { result ≡ first_bits self amount.m }
    {
        (self.bits << (59 - self.r)) + ((amount.m << 1) >> (5 + self.r))
    }
}
