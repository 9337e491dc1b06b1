// A digest: it takes in one number after another, so that a change in one number always changes it.
use crate::sequence::{ORIGIN, scramble};
use crate::taken::Taken;

#[derive(Clone, Copy)]
pub struct Digest {
    state: u64,
}

impl Digest {
    // The digest that has taken in nothing.
    pub const EMPTY: Digest = Digest { state: ORIGIN };

    pub fn number(self) -> u64 {
        self.state
    }

    pub fn take<T: Taken>(&mut self, x: T) {
        x.take_into(self);
    }

    pub(crate) fn take_number(&mut self, x: u64) {
        self.state = scramble(self.state.wrapping_add(x));
    }
}
