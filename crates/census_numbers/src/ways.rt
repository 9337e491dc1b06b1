// The ways in and out at a width, taken into a digest: of whole numbers, of binary64 numbers, and of words.
use binary64::taking::{Binary64, take_binary64};
use binary64::writing::write_binary64;
use bounds::width::Width;
use census::digest::Digest;
use round::value::Rule;
use std::num::{f64_from_bits_with_nan, f64_to_bits_with_nan};
use whole::taking::{Taking, take_whole};
use whole::writing::write_whole;

// The ways in of the whole number of 64 bits.
pub(crate) fn take_whole_in(digest: &mut Digest, width: Width, bits: u64) {
    for rule in [Rule::Rounded, Rule::Strict] {
        digest.take(write_whole(width, rule, bits.cast_signed()));
    }
}

// The ways in of the binary64 number of a pattern.
pub(crate) fn take_binary64_in(digest: &mut Digest, width: Width, pattern: u64) {
    let x = f64_from_bits_with_nan(pattern);
    for rule in [Rule::Rounded, Rule::Strict] {
        digest.take(write_binary64(width, rule, x));
    }
}

// The ways out of a word.
pub(crate) fn take_out(digest: &mut Digest, width: Width, word: u64) {
    for rule in [Taking::Nearest, Taking::Strict] {
        digest.take(take_whole(width, rule, word));
    }
    take_out_as_binary64(digest, width, word);
}

// Unlike other answers a binary64 number out can be none, and still no refusal.
pub(crate) fn take_out_as_binary64(digest: &mut Digest, width: Width, word: u64) {
    match take_binary64(width, word) {
        Binary64::Number(x) => digest.take((0u64, f64_to_bits_with_nan(x))),
        Binary64::Nar => digest.take(1u64),
        Binary64::Refused(refusal) => digest.take(refusal),
    }
}

// The round of the whole number of 64 bits. Where the library has refused it, the ways out of the word 0 follow.
pub(crate) fn take_round(digest: &mut Digest, width: Width, bits: u64) {
    take_whole_in(digest, width, bits);
    let written = write_whole(width, Rule::Rounded, bits.cast_signed());
    take_out(digest, width, written.map_or(0, |written| written.word));
}
