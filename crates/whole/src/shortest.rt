// The shortest word for a count: the least width at which a whole number has a word, from how its bits begin and end.
ghost use Rattle.std.specs.Prelude.{◌+◌, ◌≤◌, ◌<◌};
ghost use Rattle.whole.specs.Shortest.{GivesShortest};
ghost use Rattle.whole.specs.Lengths.{IsLog};
ghost use Rattle.whole.specs.Parts.{IsFirstReduction, IsLastReduction, IsLength};

use bounds::refusal::Refusal;
use bounds::width::Width;

// How many bits a size has, v, how many zeros it ends in, w, and floor(log2 v).
#[derive(Clone, Copy)]
struct Ends {
    v: u32,
    w: u32,
    log: u32,
    ghost apart: { w + 1 ≤ v },
    ghost log_is: { IsLog v log },
    ghost few: { log < 8 },
}

// The least width from 2 to 64 at which x has a word, or INEXACT where none has one.
pub fn shortest_width(x: i64) -> Result<Width, Refusal>
    ensures { GivesShortest x result }
{
    if x == 0 {
        return Ok(Width { bits: Width::LEAST });
    }
    let bits = length(x.unsigned_abs());
    if Width::GREATEST < bits {
        return Err(Refusal::Inexact);
    }
    Ok(Width { bits })
}

// How many bits the word of this size has without the zeros at its end: document 004, Proposition 4, in its letters, with the correction of paper 02.
fn length(size: u64) -> u32
    requires { 0 < size }
    ensures { IsLength size result }
{
    let v = size.ilog2() + 1;
    let w = size.trailing_zeros();
    let log = v.ilog2();
    let ends = Ends { v, w, log };
    4 + v + log - w - ends.first_reduction() - ends.last_reduction()
}

impl Ends {
    // A power of two (w = v - 1) has no fraction bits, so the zeros go that its characteristic bits, v - 2^log, end in. They are log at most; v ends in
    // as many, since it has a 1 before those bits.
    fn first_reduction(self) -> u32
        ensures { IsFirstReduction self.v self.w self.log result }
    {
        if self.w + 1 < self.v {
            return 0;
        }
        self.v.trailing_zeros()
    }

    // Where the characteristic bits are all zeros (v = 2^log), the zeros go too that the regime bits, log, end in. They are 3 at most; 8 + log ends in as
    // many, since it has the 1 of the direction bit before them.
    fn last_reduction(self) -> u32
        ensures { IsLastReduction self.v self.w self.log result }
    {
        if self.w + 1 < self.v || 1 << self.log < self.v {
            return 0;
        }
        (8 + self.log).trailing_zeros()
    }
}
