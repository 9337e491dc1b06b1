// The facts of words at a width, taken into a digest.
use bounds::good::GoodWidth;
use bounds::refusal::Refusal;
use bounds::width::Width;
use census::digest::Digest;
use order::order::{compare, negate};
use word::reading::{Kind, Reading, read};

// The facts of the words a and b.
pub(crate) fn take_facts(digest: &mut Digest, good: GoodWidth, a: u64, b: u64) {
    let width = Width::from(good);
    take_itself(digest, width, a);
    digest.take(compare(width, a, a.wrapping_add(1) & good.ones()));
    digest.take(compare(width, a, b));
}

// What a word is by itself: its reading and its negation.
pub(crate) fn take_itself(digest: &mut Digest, width: Width, word: u64) {
    take_reading(digest, read(width, word));
    digest.take(negate(width, word));
}

// Unlike other answers a reading has kinds of its own. Its own fraction bits come last.
fn take_reading(digest: &mut Digest, answer: Result<Reading, Refusal>) {
    match answer {
        Ok(Reading { kind, own }) => {
            take_kind(digest, kind);
            digest.take(own);
        }
        Err(refusal) => digest.take(refusal),
    }
}

fn take_kind(digest: &mut Digest, kind: Kind) {
    match kind {
        Kind::Zero => digest.take(0u64),
        Kind::Nar => digest.take(1u64),
        Kind::Number { negative, h, m, p } => {
            digest.take((2u64, negative as u64));
            digest.take((h as i64, m, p));
        }
    }
}
