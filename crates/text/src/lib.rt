// Numbers as text: decimal digits put into a lent buffer, and the value of a hexadecimal digit.
//
// Both functions serve the programs and their libraries. `put_number` requires that the number's text has
// room; `digit_of` requires nothing. The crate assumes nothing.
#![tactic(auto)]

ghost use Rattle.std.specs.Prelude.{◌≡◌, ◌<◌};
ghost use Rattle.text.specs.Text.{Number, Fits, Puts};
ghost use Rattle.text.specs.Digit.{digit_value};

// The decimal digits of n and then the byte `after`, from place `at` on. The answer is the place after them.
pub fn put_number(out: &mut [u8], at: usize, number: u64, after: u8) -> usize
    requires room { Fits (Number number after) at out.old }
    ensures text { Puts (Number number after) at result out.old out.new }
{
    let mut digits = [0u8; 20];
    let count = io::decimal(number, &mut digits);
    let end = at + count;
    out[at..end].copy_from_slice(&digits[..count]);
    out[end] = after;
    end + 1
}

// The value of a hexadecimal digit, 0 to 9 or a to f; 0 for another byte. (std's `to_digit` takes large letters
// too.)
pub fn digit_of(byte: u8) -> u8
    ensures answer { result ≡ digit_value byte }
    ensures bound { result < 16 }
{
    match byte {
        b'0'..=b'9' => byte - b'0',
        b'a'..=b'f' => byte - b'a' + 10,
        _ => 0,
    }
}
