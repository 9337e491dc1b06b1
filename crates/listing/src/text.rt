// Text that is put into a lent buffer, one piece after another: bytes, texts and numbers.
ghost use Rattle.std.specs.Prelude.{◌≡◌, [], ◌∷◌, ◌+◌, ◌≤◌, ◌<◌, length};
ghost use Rattle.io.specs.Digits.{hex_digit_ascii, last_digits, IsDigitCount};
ghost use Rattle.listing.specs.Adds.{Adds, AddsSome, HasRoom};
ghost use Rattle.listing.specs.Text.{IsDecimal, IsSigned};

// A buffer, and the place where the next piece goes.
#[derive(Drop)]
pub(crate) struct Text<'a> {
    pub(crate) out: &'a mut [u8],
    pub(crate) at: usize,
}

impl Text<'_> {
    // One byte.
    pub(crate) fn put_byte(&mut self, b: u8)
        requires { HasRoom 1 self.old }
        ensures { Adds self.old (b ∷ []) self.new }
    {
        self.out[self.at] = b;
        self.at += 1;
    }

    // A text.
    pub(crate) fn put_text(&mut self, text: &[u8])
        requires { HasRoom (length text.now) self.old }
        ensures { Adds self.old text.now self.new }
    {
        let end = self.at + text.len();
        self.out[self.at..end].copy_from_slice(text);
        self.at = end;
    }

    // The last `count` digits of a number.
    pub(crate) fn put_digits(&mut self, n: u64, base: u64, count: usize)
        requires { (1 < base) × (base ≤ 16) × HasRoom count self.old }
        ensures { Adds self.old (last_digits base count n) self.new }
    {
        let end = self.at + count;
        fill_with_digits(&mut self.out[self.at..end], n, base);
        self.at = end;
    }

    // A number in decimal digits.
    pub(crate) fn put_decimal(&mut self, n: u64)
        requires { HasRoom 20 self.old }
        ensures { AddsSome 20 (IsDecimal n) self.old self.new }
    {
        self.put_digits(n, 10, places(n));
    }

    // A number with its sign.
    pub(crate) fn put_signed(&mut self, x: i64)
        requires { HasRoom 21 self.old }
        ensures { AddsSome 21 (IsSigned x) self.old self.new }
    {
        if x < 0 {
            self.put_byte(b'-');
        }
        self.put_decimal(x.unsigned_abs());
    }
}

// As many of the last digits of a number as there are places, from the last one to the first. They are put by hand: `io::hex` puts more where the number
// has more, and `write!` answers an error for each piece, which can't come here. They go by index: Rattle's guide
// (LIBRARY.md) says that of what is written through an adapter of `iter_mut`, as `rev` is, nothing is known afterwards.
fn fill_with_digits(places: &mut [u8], n: u64, base: u64)
    requires { (1 < base) × (base ≤ 16) }
    ensures { places.new ≡ last_digits base (length places.old) n }
{
    let mut rest = n;
    for i in (0..places.len()).rev() {
        places[i] = glyph(rest % base);
        rest /= base;
    }
}

fn glyph(d: u64) -> u8
    requires { d < 16 }
    ensures { result ≡ hex_digit_ascii d }
{
    b"0123456789abcdef"[d as usize]
}

// How many decimal digits a number has.
fn places(n: u64) -> usize
    ensures { IsDigitCount 10 1 n result × (result ≤ 20) }
{
    n.max(1).ilog10() as usize + 1
}
