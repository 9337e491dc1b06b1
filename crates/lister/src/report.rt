// The count of blocks by refusal number, and the report of it that the script turns into words and an exit status.
ghost use Rattle.std.specs.Prelude.{◌≡◌};
ghost use Rattle.lister.specs.Counts.{number_or_0, with_one_more};

use bounds::refusal::Refusal;

// Room for a count of each refusal number, and at 0 for one of the blocks that were read. An array by number and no map: no memory is asked for, and the report
// has the numbers.
const NUMBERS: usize = 16;

// Where the report goes. It is written by `io`, to the descriptor itself: std would have to open it once more, which fails at a socket.
const REPORT_FILENO: i32 = 3;

// How many blocks there are of each refusal number.
#[derive(Drop)]
pub(crate) struct Counts {
    pub(crate) by_number: [u64; NUMBERS],
}

impl Counts {
    pub(crate) fn new() -> Counts {
        Counts {
            by_number: [0; NUMBERS],
        }
    }

    // One more block with this refusal, or of those that were read. No run has 2^64 of them, at which a count would start again.
    pub(crate) fn count(&mut self, refused: Option<Refusal>)
        ensures { self.new.by_number ≡ with_one_more (number_or_0 refused) self.old.by_number }
    {
        let number = refused.map_or(0, |q| q.number()) as usize;
        self.by_number[number] = self.by_number[number].wrapping_add(1);
    }

    // `blocks N`, a line `refused NUMBER COUNT` for each number that occurred, and `end`. Whoever started the program may have gone, so a failure to
    // write is passed over: the report then lacks its end.
    pub(crate) fn report(&self, blocks: u64) {
        report_number(b"blocks ", blocks);
        for (number, count) in self.by_number.iter().enumerate().skip(1) {
            if *count > 0 {
                report_number(b"\nrefused ", number as u64);
                report_number(b" ", *count);
            }
        }
        io::write_all(REPORT_FILENO, b"\nend\n");
    }
}

// A number behind what stands before it.
fn report_number(before: &[u8], number: u64) {
    io::write_all(REPORT_FILENO, before);
    io::print_decimal(REPORT_FILENO, number);
}
