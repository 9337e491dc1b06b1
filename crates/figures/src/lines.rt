// Lines: what is asked of the library and what it answers.
use crate::text::{print_end, print_hex, print_number, print_text};
use crate::value::print_value;
use bounds::answer::Written;
use bounds::refusal::Refusal;
use bounds::saying::Saying;
use bounds::width::Width;
use round::value::Rule;
use word::reading::{Kind, Reading, read};
use write::moving::move_word;
use write::value::Value;
use write::writing::write;

// The rest of a line, from the answer on: what the call gives, or its refusal.
pub(crate) fn print_answer<T, F: FnOnce(T)>(gives: &str, answer: Result<T, Refusal>, print: F)
    requires { F.IsAlwaysCallable print }
{
    match answer {
        Ok(given) => {
            print_text(gives);
            print(given);
        }
        Err(refusal) => {
            print_text(" is ");
            print_refused(refusal);
        }
    }
    print_end();
}

pub(crate) fn print_refused(refusal: Refusal) {
    print_text("refused ");
    print_number(refusal.number() as u64);
}

pub(crate) fn print_word(n: u32, word: u64) {
    print_word_of_width(n, word);
    print_answer(" is ", read(Width { bits: n }, word), print_reading);
}

fn print_reading(reading: Reading) {
    match reading.kind {
        Kind::Zero => print_number(0),
        Kind::Nar => print_text("nar"),
        Kind::Number { negative, h, m, p } => print_value(negative, h, m, p),
    }
}

// How many fraction bits of a word are its own.
pub(crate) fn print_own_bits_of(n: u32, word: u64) {
    print_word_of_width(n, word);
    print_text(" own bits");
    print_answer(" ", read(Width { bits: n }, word), |reading| {
        print_number(reading.own as u64)
    });
}

pub(crate) fn print_limit(n: u32) {
    print_width(n);
    print_text(" limit");
    print_answer(" ", Width { bits: n }.limit(), print_number);
}

// Whether there is a width of a number.
pub(crate) fn print_made(n: u32) {
    print_width(n);
    print_answer(" is made", Width::new(n), |_| {});
}

// Two short functions: in the cases `plus(3, 0)` reads as the value does.
pub(crate) fn plus(m: u64, k: i32) -> Value {
    Value {
        negative: false,
        m,
        k,
    }
}

pub(crate) fn minus(m: u64, k: i32) -> Value {
    Value {
        negative: true,
        m,
        k,
    }
}

pub(crate) fn print_writing(n: u32, rule: Rule, value: Value) {
    print_width(n);
    print_text(" writing ");
    print_value(value.negative, value.k, value.m, 0);
    print_written(rule, write(Width { bits: n }, rule, value));
}

pub(crate) fn print_move(from: u32, to: u32, rule: Rule, word: u64) {
    print_width(from);
    print_text(" moving ");
    print_hex(word);
    print_text(" to ");
    print_width(to);
    print_written(
        rule,
        move_word(Width { bits: from }, Width { bits: to }, rule, word),
    );
}

// The rest of a line, from the rule on.
pub(crate) fn print_written(rule: Rule, answer: Result<Written, Refusal>) {
    print_text(match rule {
        Rule::Rounded => " rounded",
        Rule::Strict => " strict",
    });
    print_answer(" gives ", answer, |Written { word, saying }| {
        print_hex(word);
        print_text(match saying {
            Saying::Exact => ", exact",
            Saying::Below => ", below",
            Saying::Above => ", above",
            Saying::PastTheEnd => ", past the end",
        });
    });
}

pub(crate) fn print_word_of_width(n: u32, word: u64) {
    print_width(n);
    print_text(" word ");
    print_hex(word);
}

pub(crate) fn print_width(n: u32) {
    print_text("width ");
    print_number(n as u64);
}
