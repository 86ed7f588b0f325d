ghost use Rattle.std.specs.Prelude.{◌≡◌};
ghost use Rattle.script.specs.Numbers.{is_numeral_length, number_of};

// How many digits a number has at the most.
const MOST_DIGITS: usize = 5;

// The number that 1 to 5 digits write. Not by `parse`, which takes a sign and more digits too.
pub fn number_of(text: &[u8]) -> Option<u32>
    ensures value { result ≡ number_of text.now }
{
    if !is_numeral_length(text.len()) {
        return None;
    }
    let mut number: u32 = 0;
    for byte in text {
        if !byte.is_ascii_digit() {
            return None;
        }
        number = 10 * number + u32::from(*byte - b'0');
    }
    Some(number)
}

// Whether a number may have so many digits.
fn is_numeral_length(length: usize) -> bool
    ensures value { result ≡ is_numeral_length length }
{
    (1..=MOST_DIGITS).contains(&length)
}
