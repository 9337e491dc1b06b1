// Parts 28 and 29: columns of drawn words, of many lengths, between many pairs of widths.
use crate::columns::{Move, draw_exact, draw_free};
use bounds::good::GoodWidth;
use census::digest::Digest;
use census::line::print_line;
use census::sequence::Sequence;

// Part 28: columns as they are drawn, from each width to the other, and from a width to itself.
pub(crate) fn print_drawn_columns() {
    for (a, b) in [(2, 64), (8, 16), (11, 13), (16, 32), (16, 64), (63, 64)] {
        let a = GoodWidth { bits: a };
        let b = GoodWidth { bits: b };
        print_drawn(a, b);
        print_drawn(b, a);
    }
    for bits in [16, 64] {
        print_drawn(GoodWidth { bits }, GoodWidth { bits });
    }
}

fn print_drawn(from: GoodWidth, to: GoodWidth) {
    let (a, b) = (from.bits as u64, to.bits as u64);
    let mut sequence = Sequence::of(10_000 + 100 * a + b);
    let mut words = [0; 1000];
    for length in [0, 1, 2, 247, 248, 1000] {
        let column = &mut words[..length];
        let mut digest = Digest::EMPTY;
        draw_exact(column, from, to, &mut sequence);
        Move::between(from, to, column).take_around(&mut digest);
        draw_free(column, from, &mut sequence);
        Move::between(from, to, column).take_around(&mut digest);
        print_line("column", &[a, b, length as u64], digest);
    }
}

// Part 29: exact columns, with bits set for some calls. The empty column is part 28's alone.
pub(crate) fn print_planted_columns() {
    for (from, to) in [
        (8, 16),
        (16, 8),
        (16, 32),
        (32, 16),
        (16, 64),
        (64, 16),
        (63, 62),
        (16, 16),
    ] {
        print_planted(GoodWidth { bits: from }, GoodWidth { bits: to });
    }
}

fn print_planted(from: GoodWidth, to: GoodWidth) {
    let (a, b) = (from.bits as u64, to.bits as u64);
    let mut sequence = Sequence::of(20_000 + 100 * a + b);
    let mut words = [0; 1000];
    for length in [1, 2, 247, 248, 1000] {
        let column = &mut words[..length];
        let mut digest = Digest::EMPTY;
        draw_exact(column, from, to, &mut sequence);
        Move::between(from, to, column).take_planted(&mut digest);
        print_line("planted", &[a, b, length as u64], digest);
    }
}
