// A line of the listing: block number, position, the word in hex, its whole number, its own fraction bits, and ` old` of an old block.
// `Block` and `Width` are what the calls give and take, and hold any number: so `width ≤ 64` is asked where it is needed, and a width and its word go side by
// side, as the calls take them.
ghost use Rattle.std.specs.Prelude.{◌≡◌, ◌≤◌};
ghost use Rattle.listing.specs.Adds.{AddsSome, HasRoom};
ghost use Rattle.listing.specs.Text.{hex_of, refusal_text, old_text, IsShown, IsField, IsWholeText, IsOwnText, IsLine};

use crate::text::Text;
use bounds::refusal::Refusal;
use bounds::width::Width;
use sheet::block::Block;
use sheet::writing::RETIRED;
use whole::taking::{Taking, take_whole};
use word::reading::read;

// The line of one word of a block.
pub(crate) fn put_line(text: &mut Text<'_>, block: Block, position: u32, word: u64)
    requires { (block.width ≤ 64) × HasRoom 96 text.old }
    ensures { AddsSome 96 (IsLine block.number position block.width word) text.old text.new }
{
    let width = Width { bits: block.width };
    put_field(text, block.number);
    put_field(text, position);
    put_hex(text, width, word);
    put_whole(text, width, word);
    put_own(text, width, word);
    put_old(text, width);
    text.put_byte(b'\n');
}

// A number and a space. Of 32 bits it has no more than ten digits.
fn put_field(text: &mut Text<'_>, n: u32)
    requires { HasRoom 21 text.old }
    ensures { AddsSome 11 (IsField n) text.old text.new }
{
    text.put_decimal(u64::from(n));
    text.put_byte(b' ');
}

// The word in hex, with all its digits.
fn put_hex(text: &mut Text<'_>, width: Width, word: u64)
    requires { (width.bits ≤ 64) × HasRoom 16 text.old }
    ensures { AddsSome 16 (λ t. t ≡ hex_of width.bits word) text.old text.new }
{
    text.put_digits(word, 16, (width.bits / 4) as usize);
}

// A space and the word's whole number, rounded.
fn put_whole(text: &mut Text<'_>, width: Width, word: u64)
    requires { HasRoom 22 text.old }
    ensures { AddsSome 22 (IsWholeText width.bits word) text.old text.new }
{
    text.put_byte(b' ');
    put_shown(text, take_whole(width, Taking::Nearest, word));
}

// A space and the word's own fraction bits.
fn put_own(text: &mut Text<'_>, width: Width, word: u64)
    requires { HasRoom 21 text.old }
    ensures { AddsSome 21 (IsOwnText width.bits word) text.old text.new }
{
    let own = read(width, word).map_or(0, |reading| reading.own);
    text.put_byte(b' ');
    text.put_decimal(u64::from(own));
}

// ` old` for a block whose width is no longer written.
fn put_old(text: &mut Text<'_>, width: Width)
    requires { HasRoom 4 text.old }
    ensures { AddsSome 4 (λ t. t ≡ old_text width.bits) text.old text.new }
{
    if width.bits == RETIRED {
        text.put_text(b" old");
    }
}

// The whole number, `nar` or `over`.
fn put_shown(text: &mut Text<'_>, shown: Result<i64, Refusal>)
    requires { HasRoom 21 text.old }
    ensures { AddsSome 21 (IsShown shown) text.old text.new }
{
    match shown {
        Ok(x) => text.put_signed(x),
        Err(q) => put_refusal(text, q),
    }
}

fn put_refusal(text: &mut Text<'_>, q: Refusal)
    requires { HasRoom 4 text.old }
    ensures { AddsSome 4 (λ t. t ≡ refusal_text q) text.old text.new }
{
    if q == Refusal::Over {
        return text.put_text(b"over");
    }
    text.put_text(b"nar")
}
