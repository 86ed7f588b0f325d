ghost use Rattle.std.specs.Prelude.{◌≡◌, ◌+◌, ◌^◌, ◌<◌, ◌≤◌, [], ◌∷◌, ◌++◌, length, set, decimal, slice_set};
ghost use Rattle.listing.specs.Answers.{lamp_digit, lamp_text, lamps_shown};
ghost use Rattle.listing.specs.Outputs.{overwrite};

use monoid::lamps::{Lamps, MOST};

// Digits, commas and lamps are set in the output itself, the digits by hand: through the library's writer and a text of
// fixed memory an answer took twice the time.

// How many decimal digits a number has.
fn width(number: u32) -> usize
    ensures value { result ≡ length (decimal number) }
{
    let mut rest = number;
    let mut count: usize = 1;
    while rest >= 10 {
        rest /= 10;
        count += 1;
    }
    count
}

// The digit of a number below ten.
fn digit(value: u32) -> u8
    requires bound { value < 10 }
    ensures value { result ≡ 48 + value }
{
    b'0' + value as u8
}

// Sets one byte, and no other.
fn put(out: &mut [u8], at: usize, byte: u8)
    requires room { at < length out.old }
    ensures after { out.new ≡ slice_set out.old at byte }
{
    out[at] = byte;
}

// Writes a number in decimal, its digits set from the last, and answers the place past it.
pub(crate) fn write_number(out: &mut [u8], at: usize, number: u32) -> usize
    requires room { at + 10 ≤ length out.old }
    ensures value { result ≡ at + length (decimal number) }
    ensures after { out.new ≡ overwrite out.old at (decimal number) }
    ensures bound { result ≤ at + 10 }
{
    let size = width(number);
    let mut rest = number;
    let mut left = size;
    while left > 0 {
        left -= 1;
        put(out, at + left, digit(rest % 10));
        rest /= 10;
    }
    at + size
}

// Writes one byte.
pub(crate) fn write_mark(out: &mut [u8], at: usize, mark: u8) -> usize
    requires room { at + 1 ≤ length out.old }
    ensures value { result ≡ at + 1 }
    ensures after { out.new ≡ overwrite out.old at (mark ∷ []) }
{
    put(out, at, mark);
    at + 1
}

// Writes a number and a comma.
pub(crate) fn write_part(out: &mut [u8], at: usize, number: u32) -> usize
    requires room { at + 11 ≤ length out.old }
    ensures value { result ≡ at + length (decimal number ++ (44 ∷ [])) }
    ensures after { out.new ≡ overwrite out.old at (decimal number ++ (44 ∷ [])) }
    ensures bound { result ≤ at + 11 }
    ensures fits { number < 2 ^ 32 }
{
    let end = write_number(out, at, number);
    write_mark(out, end, b',')
}

// The digit of a lamp.
fn lamp_digit(lit: bool) -> u8
    ensures value { result ≡ lamp_digit lit }
    ensures ascii { result < 128 }
{
    if lit { b'1' } else { b'0' }
}

// Writes one digit for each lamp from lamp 0, or `-` where there are none.
pub(crate) fn write_lamps(out: &mut [u8], at: usize, lamps: &Lamps) -> usize
    requires room { at + 16 ≤ length out.old }
    ensures value { result ≡ at + length (lamp_text (lamps_shown lamps.now)) }
    ensures after { out.new ≡ overwrite out.old at (lamp_text (lamps_shown lamps.now)) }
    ensures bound { result ≤ at + 16 }
{
    let width = lamps.width().min(MOST);
    if width == 0 {
        return write_mark(out, at, b'-');
    }
    // By number: a lamp is asked for by its number.
    for lamp in 0..width {
        put(out, at + lamp, lamp_digit(lamps.lights(lamp)));
    }
    at + width
}
