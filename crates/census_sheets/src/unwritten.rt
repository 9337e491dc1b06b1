// Parts 47 to 49: contents with any set of faults, with each width, and with another number.
use crate::block::SIZE;
use crate::changed::NUMBERS;
use crate::faults::{count_of, times_in};
use crate::layout::Layout;
use crate::writing::{Content, draw_content};
use bounds::width::Width;
use census::digest::Digest;
use census::line::print_line;
use census::sequence::Sequence;

// Numbers and no enum, as in part 35; here they are others.
const OF_WIDTH: u64 = 1;

const OF_COUNT: u64 = 2;

const OF_SIZE: u64 = 4;

const OF_STRAY: u64 = 8;

// Part 47.
pub(crate) fn print_unwritten(w: Layout) {
    let mut sequence = Sequence::of(49_000 + w.number());
    let mut words = [0; 1000];
    let number = draw_content(&mut words[..w.full + 1], w, &mut sequence);
    let mut digest = Digest::EMPTY;
    for faults in 0..16 {
        let mut strayed = words;
        strayed[1] |= (times_in(faults, OF_STRAY) as u64) << 63;
        let content = Content {
            width: Width {
                bits: w.width.bits + 4 * times_in(faults, OF_WIDTH) as u32,
            },
            number,
            words: &strayed[..count_of(w, times_in(faults, OF_COUNT))],
        };
        content.take(&mut digest, SIZE - times_in(faults, OF_SIZE) as usize);
    }
    print_line("unwritten", &[w.number()], digest);
}

// Part 48: the width is also the number. A line for each count.
pub(crate) fn print_written_widths() {
    for count in [0, 1, 63] {
        let mut digest = Digest::EMPTY;
        for bits in (0..=255).chain([264, 272, 288, 320, 65_544, 2_147_483_656, u32::MAX]) {
            let content = Content {
                width: Width { bits },
                number: bits,
                words: &[1; 63][..count],
            };
            content.take(&mut digest, SIZE);
        }
        print_line("writtenwidth", &[count as u64], digest);
    }
}

// Part 49.
pub(crate) fn print_written_numbers(w: Layout) {
    let mut sequence = Sequence::of(50_000 + w.number());
    let mut words = [0; 3];
    let _ = draw_content(&mut words, w, &mut sequence);
    let mut digest = Digest::EMPTY;
    for number in NUMBERS {
        let content = Content {
            width: w.plain(),
            number,
            words: &words,
        };
        content.take(&mut digest, SIZE);
    }
    print_line("writtennumber", &[w.number()], digest);
}
