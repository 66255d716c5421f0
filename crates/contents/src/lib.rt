// The form of an image: contents, then one body for each kind. Whether some bytes are an image, what their
// entries and bodies give, and a kind's body as a part of them. The product's form has eleven entries; images
// with ten are read too.
//
// The public call is `body`, which crate `image` passes on. It has no `requires`: it says, for all bytes and
// all numbers, where its part lies and what it holds, in the form that the bytes are read in. The rest serves
// crates `writing`, `reading` and `image`: it takes the form as an argument, and has a `requires` for it and
// where it reads an entry or a body. The crate assumes nothing.
#![tactic(auto)]

ghost use Rattle.contents.specs.BodyPromise.{BodyPromise};

mod bodies;
mod entries;
mod form;

use bodies::has_body;
pub use bodies::{is_rising, word_at};
pub use entries::{count_at, has_contents, start_at};
pub use form::{BEFORE_FIELDS, BYTE, FIRST_BODY, FORM, Form, LONGEST};
use table::Word;

// The body of a kind, as a part of the image. If the image is malformed, the number is no kind, or it is 11
// and the image has ten entries, the empty part at the image's end. An empty body of a good image is the
// empty part at its own start.
pub fn body(image: &[u8], kind: u8) -> &[u8]
    ensures promise { BodyPromise image.entry kind result }
{
    let k = kind as Word;
    let form = Form::of(image);
    if !has_body(form, image, k) {
        let end = image.len();
        return &image[end..end];
    }
    let from = start_at(form, image, k);
    let to = from + form.fact_size(k) * count_at(form, image, k);
    &image[from..to]
}
