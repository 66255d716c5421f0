// An image turned into the text of its graph, and a text into the image of its graph.
ghost use Rattle.vimelosa.specs.HostTriples.{HostWriteTriplesPromise, HostReadTriplesPromise};

use exchange::{Rejected, to_image, to_text};
use packing::{pack, pack_text};
use table::Refusal;

// Reads the image into 2,048 words and writes their text. Answers 0 or the refusal, and above it the text's
// length. Refused with 12, 11, 3 or 13, the length is 0 and the output is as it was.
#[unsafe(no_mangle)]
pub extern "C" fn vimelosa_write_triples(image: &[u8], output: &mut [u8]) -> u64
    ensures promise { HostWriteTriplesPromise image.now output.old result
        output.new }
{
    match to_text(image, output) {
        Ok(length) => pack_text(0, length),
        Err(refusal) => pack_text(u8::from(refusal), 0),
    }
}

// Reads the text into 2,048 words and writes their image. Answers 0 or the refusal, for 3 the place of the
// first rule that the text's graph breaks, and the image's length. Refused with 15, 11, 3 or 13, the length
// is 0 and the output is as it was.
#[unsafe(no_mangle)]
pub extern "C" fn vimelosa_read_triples(text: &[u8], output: &mut [u8]) -> u64
    ensures promise { HostReadTriplesPromise text.now output.old result
        output.new }
{
    match to_image(text, output) {
        Ok(length) => pack(0, 0, 0, length),
        Err(Rejected::Broken(place)) => pack(u8::from(Refusal::Inconsistent), place, 0, 0),
        Err(Rejected::Refused(refusal)) => pack(u8::from(refusal), 0, 0, 0),
    }
}
