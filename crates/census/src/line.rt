// The pieces of a line: text as it stands, numbers and a digest, each of these after one space, and the end.
use crate::digest::Digest;

// Standard output.
const STDOUT_FILENO: i32 = 1;

// Not by println!: that hands up a failure to write, and these programs go on.
pub fn print_text(text: &[u8]) {
    io::write_all(STDOUT_FILENO, text);
}

pub fn print_number(x: u64) {
    print_text(b" ");
    io::print_decimal(STDOUT_FILENO, x);
}

pub fn print_numbers(numbers: &[u64]) {
    for x in numbers {
        print_number(*x);
    }
}

pub fn print_end() {
    print_text(b"\n");
}

// A digest is the last of a line.
pub fn print_digest(digest: u64) {
    print_text(b" ");
    io::print_hex(STDOUT_FILENO, digest, 16);
    print_end();
}

// Most lines are a name, one to three numbers, and a digest.
pub fn print_line(name: &str, numbers: &[u64], digest: Digest) {
    print_text(name.as_bytes());
    print_numbers(numbers);
    print_digest(digest.number());
}
