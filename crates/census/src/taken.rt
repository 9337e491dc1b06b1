// What a digest takes in, and as which numbers: "How an answer is taken in" of docs/CENSUS.md.
use crate::digest::Digest;
use bounds::answer::Written;
use bounds::refusal::{ListRefusal, Refusal};
use bounds::width::Width;
use std::cmp::Ordering;

pub trait Taken {
    fn take_into(self, digest: &mut Digest);
}

// A number stands for itself, also a word and a limit. Each type has an impl of its own, since `rt ci` refuses one that a macro writes.
impl Taken for u64 {
    fn take_into(self, digest: &mut Digest) {
        digest.take_number(self);
    }
}

impl Taken for u32 {
    fn take_into(self, digest: &mut Digest) {
        digest.take_number(self as u64);
    }
}

impl Taken for u8 {
    fn take_into(self, digest: &mut Digest) {
        digest.take_number(self as u64);
    }
}

impl Taken for usize {
    fn take_into(self, digest: &mut Digest) {
        digest.take_number(self as u64);
    }
}

// -1 - z of a negative number z has the bits that z doesn't have.
impl Taken for i64 {
    fn take_into(self, digest: &mut Digest) {
        if self < 0 {
            digest.take((1u64, !self.cast_unsigned()));
        } else {
            digest.take((0u64, self.cast_unsigned()));
        }
    }
}

impl Taken for Ordering {
    fn take_into(self, digest: &mut Digest) {
        digest.take(self as i64);
    }
}

impl Taken for Width {
    fn take_into(self, digest: &mut Digest) {
        digest.take(self.bits);
    }
}

// A word that was written or moved comes with its saying.
impl Taken for Written {
    fn take_into(self, digest: &mut Digest) {
        digest.take((self.word, self.saying.number()));
    }
}

impl Taken for Refusal {
    fn take_into(self, digest: &mut Digest) {
        digest.take((3u64, self.number()));
    }
}

// A refusal that has a position has a kind of its own.
impl Taken for ListRefusal {
    fn take_into(self, digest: &mut Digest) {
        match self {
            ListRefusal::Whole(refusal) => digest.take(refusal),
            ListRefusal::At { position, refusal } => digest.take((
                4u64,
                refusal.number(),
                position,
            )),
        }
    }
}

// What a call gives beside a refusal has the kind 0.
impl<T: Taken, E: Taken> Taken for Result<T, E> {
    fn take_into(self, digest: &mut Digest) {
        match self {
            Ok(given) => digest.take((0u64, given)),
            Err(refusal) => digest.take(refusal),
        }
    }
}

// One after the other.
impl<A: Taken, B: Taken> Taken for (A, B) {
    fn take_into(self, digest: &mut Digest) {
        let (a, b) = self;
        digest.take(a);
        digest.take(b);
    }
}

impl<A: Taken, B: Taken, C: Taken> Taken for (A, B, C) {
    fn take_into(self, digest: &mut Digest) {
        let (a, b, c) = self;
        digest.take(a);
        digest.take(b);
        digest.take(c);
    }
}

impl<T: Taken + Copy> Taken for &[T] {
    fn take_into(self, digest: &mut Digest) {
        for x in self {
            digest.take(*x);
        }
    }
}

// What was done and gives nothing.
impl Taken for () {
    fn take_into(self, _digest: &mut Digest) {}
}
