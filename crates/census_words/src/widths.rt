// Part 1: the numbers that belong to each width.
use bounds::good::GoodWidth;
use bounds::width::Width;
use census::line::{print_end, print_number, print_text};

// A width of this part is never refused; where the library refuses it all the same, the line has to show it.
pub(crate) fn print_width(good: GoodWidth) {
    let width = Width::from(good);
    print_text(b"width");
    print_number(good.bits as u64);
    for answer in [
        width.largest(),
        width.smallest(),
        width.nar(),
        width.limit(),
    ] {
        match answer {
            Ok(number) => print_number(number),
            Err(_) => print_text(b" refused"),
        }
    }
    print_end();
}
