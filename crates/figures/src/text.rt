// The pieces of a line: text as it stands, and numbers. Not those of census, which have a space before each number; figures doesn't stand on it.

// Standard output.
const STDOUT_FILENO: i32 = 1;

// Not by println!: that hands up a failure to write, and this program goes on.
pub(crate) fn print_text(text: &str) {
    io::write_all(STDOUT_FILENO, text.as_bytes());
}

pub(crate) fn print_end() {
    print_text("\n");
}

pub(crate) fn print_number(x: u64) {
    io::print_decimal(STDOUT_FILENO, x);
}

pub(crate) fn print_hex(x: u64) {
    io::print_hex(STDOUT_FILENO, x, 1);
}

pub(crate) fn print_signed(z: i64) {
    if z < 0 {
        print_text("-");
    }
    print_number(z.unsigned_abs());
}
