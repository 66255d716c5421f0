// An image, read into a lent table.
//
// The public call is `read`, which crate `image` passes on. It has no `requires`: it says, for all inputs,
// what it answers and every word afterwards; an image with ten entries is read too, and has no fact of kind
// 11. `store_words` serves the crates above: the words of an image
// with right contents, without the check. The crate assumes nothing.
#![tactic(auto)]

ghost use Rattle.table.specs.Refused.{answer_of};
ghost use Rattle.reading.specs.ReadPromise.{ReadPromise};

mod reader;

use contents::{Form, has_contents};
pub use reader::store_words;
use reader::{count_words, overfull_refusal, read_through};
use table::{MOST, Refusal, Word, is_bad_size};

// Reads an image into a table: its words, then zeros. Refused with 1, 12, 11 or 3, the words are as they
// were. The words that the table held are not looked at.
pub fn read(table: &mut [Word], image: &[u8]) -> Result<(), Refusal>
    ensures promise { ReadPromise table.old image.now (answer_of result) table.new }
{
    if is_bad_size(table) {
        return Err(Refusal::BadSize);
    }
    let form = Form::of(image);
    if !has_contents(form, image) {
        return Err(Refusal::Malformed);
    }
    let room = table.len();
    if room < count_words(form, image) {
        return Err(overfull_refusal(form, image));
    }
    let mut work: [Word; MOST] = [0; MOST];
    read_through(table, &mut work[..room], image)
}
