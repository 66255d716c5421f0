// A line's bytes, in hexadecimal.
ghost use Rattle.io.specs.Counts.{IsPrefixLen};

use text::digit_of;

// The byte of two digits.
fn byte_of(high: u8, low: u8) -> u8 {
    16 * digit_of(high) + digit_of(low)
}

// The bytes of a text, blanks passed over, as far as there is room. The answer is how many.
// A step takes one byte or two, so that no `for` over chunks would do.
pub fn put_data(text: &[u8], out: &mut [u8]) -> usize
    ensures bound { IsPrefixLen result out.new }
{
    let mut rest = text;
    let mut count = 0;
    while let [high, low, ..] = rest {
        if count == out.len() {
            return count;
        }
        if *high == b' ' {
            rest = &rest[1..];
        } else {
            out[count] = byte_of(*high, *low);
            count += 1;
            rest = &rest[2..];
        }
    }
    count
}
