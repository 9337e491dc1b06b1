// Lines of whole numbers and of binary64: what goes in or out, and the answer.
use crate::lines::{
    print_answer, print_refused, print_width, print_word, print_word_of_width, print_written,
};
use crate::text::{print_end, print_hex, print_signed, print_text};
use binary64::taking::{Binary64, take_binary64};
use binary64::writing::write_binary64;
use bounds::width::Width;
use round::value::Rule;
use whole::taking::{Taking, take_whole};
use whole::writing::write_whole;

// The tally of the letter: 515 goes out as 516, is refused when strict, and stays at 32 bits.
pub(crate) fn print_tally() {
    print_whole_in(16, Rule::Rounded, 515);
    print_whole_out(16, Taking::Nearest, 0x5a02);
    print_whole_in(16, Rule::Strict, 515);
    print_whole_in(32, Rule::Strict, 515);
    print_whole_out(32, Taking::Strict, 0x5a01_8000);
}

// At 16 bits every whole number up to the limit has a word, and the next one has none; -0.5 goes out as 0.
pub(crate) fn print_whole_numbers() {
    for x in [512, 513, -512, -513] {
        print_whole_in(16, Rule::Strict, x);
    }
    print_whole_in(16, Rule::Rounded, 1023);
    print_whole_in(8, Rule::Rounded, 10);
    print_whole_out(16, Taking::Nearest, 0xc800);
    print_whole_out(16, Taking::Strict, 0xc800);
    for word in [0xbc00, 0x8000, 0x10000] {
        print_whole_out(16, Taking::Nearest, word);
    }
    print_whole_out(65, Taking::Nearest, 0);
}

// -2^63 goes in and out; 2^63 has a word at every width from 4 on, and is over.
pub(crate) fn print_ends_of_64_bits() {
    print_whole_in(16, Rule::Strict, i64::MIN);
    print_whole_in(64, Rule::Strict, i64::MAX);
    print_whole_in(64, Rule::Rounded, i64::MAX);
    print_whole_out(16, Taking::Strict, 0x9000);
    print_whole_out(16, Taking::Strict, 0x7000);
    print_whole_out(16, Taking::Nearest, 0x7000);
}

// 2.5 goes to 2, 3.5 to 4 and -2.5 to -2, the even ones; the words beside a half go to the nearer number.
pub(crate) fn print_halves() {
    print_half_both_ways(16, 0x4900);
    print_nearest(16, &[0x48ff, 0x4901]);
    print_word(16, 0x4b00);
    print_nearest(16, &[0x4b00]);
    print_half_both_ways(16, 0xb700);
    print_nearest(16, &[0xb6ff, 0x3800, 0x3801, 0xc7ff, 0x4400]);
}

// The last words with a half lie below 2^54, where rounding carries into the next power of two. From there on every word is a whole number: the last
// one below 2^63 goes out, the first one below -2^63 is over.
pub(crate) fn print_last_halves() {
    print_half_both_ways(64, 0x6dbf_ffff_ffff_ffff);
    print_nearest(
        64,
        &[
            0x6dbf_ffff_ffff_fffd,
            0x9240_0000_0000_0001,
            0x6fff_ffff_ffff_ffff,
            0x8fff_ffff_ffff_ffff,
        ],
    );
}

fn print_half_both_ways(n: u32, word: u64) {
    print_word(n, word);
    print_whole_out(n, Taking::Nearest, word);
    print_whole_out(n, Taking::Strict, word);
}

fn print_nearest(n: u32, words: &[u64]) {
    for word in words {
        print_whole_out(n, Taking::Nearest, *word);
    }
}

// 1.5 and zero, negative zero, 2^-1074, the greatest number, infinity and NaN.
pub(crate) fn print_binary64() {
    for x in [1.5, -1.5, 0.0, -0.0] {
        print_binary64_in(16, Rule::Strict, x);
    }
    print_binary64_in(16, Rule::Rounded, 5e-324);
    print_binary64_in(16, Rule::Rounded, f64::MAX);
    print_binary64_in(16, Rule::Strict, f64::INFINITY);
    print_binary64_in(16, Rule::Strict, f64::NAN);
    for word in [0x4400, 0xbc00, 0, 0x8000, 0x10000] {
        print_binary64_out(16, word);
    }
}

pub(crate) fn print_whole_in(n: u32, rule: Rule, x: i64) {
    print_width(n);
    print_text(" whole number ");
    print_signed(x);
    print_written(rule, write_whole(Width { bits: n }, rule, x));
}

fn print_whole_out(n: u32, rule: Taking, word: u64) {
    print_word_of_width(n, word);
    print_text(match rule {
        Taking::Nearest => " nearest",
        Taking::Strict => " strict",
    });
    print_answer(
        " is ",
        take_whole(Width { bits: n }, rule, word),
        print_signed,
    );
}

// A binary64 number by its bit pattern.
pub(crate) fn print_binary64_in(n: u32, rule: Rule, x: f64) {
    print_width(n);
    print_text(" binary64 ");
    print_pattern(x);
    print_written(rule, write_binary64(Width { bits: n }, rule, x));
}

fn print_binary64_out(n: u32, word: u64) {
    print_word_of_width(n, word);
    print_text(" as binary64 is ");
    match take_binary64(Width { bits: n }, word) {
        Binary64::Number(x) => print_pattern(x),
        Binary64::Nar => print_text("no reading"),
        Binary64::Refused(refusal) => print_refused(refusal),
    }
    print_end();
}

// A NaN has many patterns.
fn print_pattern(x: f64) {
    if x.is_nan() {
        print_text("nan");
    } else {
        print_hex(x.to_bits());
    }
}
