// The contents of an image: what an entry gives, and whether the entries are right.
ghost use Rattle.std.specs.Prelude.{◌≡◌, ◌+◌, ◌^◌, ◌≤◌, ◌<◌, length, get_or};
ghost use Rattle.table.specs.Answers.{Decides};
ghost use Rattle.contents.specs.ImageForm.{byte_values, field_values, first_body};
ghost use Rattle.contents.specs.Legible.{widest};
ghost use Rattle.contents.specs.FormOf.{form_of};
ghost use Rattle.contents.specs.Reading.{number_at, start_at, count_at};
ghost use Rattle.contents.specs.Contents.{Entry, Linked, Contents};
ghost use Rattle.contents.specs.WithinBytes.{HasEntry};

use crate::form::{BEFORE_FIELDS, BYTE, Form};
use table::Word;

// A byte of the image.
fn byte_at(image: &[u8], place: usize) -> usize
    requires within { place < length image.now }
    ensures answer { result ≡ get_or image.now place 0 }
    ensures bound { result < byte_values }
{
    image[place] as usize
}

// The number in `size` bytes from a place on, low byte first.
// By hand, as `from_le_bytes` takes a fixed number of bytes, and here the form says how many.
pub fn number_at(image: &[u8], place: usize, size: usize) -> usize
    requires within { place + size ≤ length image.now }
    requires few { size ≤ widest }
    ensures answer { result ≡ number_at size image.now place }
    ensures bound { result < byte_values ^ size }
{
    let mut value = 0;
    for left in (0..size).rev() {
        value = value * BYTE + byte_at(image, place + left);
    }
    value
}

// What the entry of kind k gives as the start of its body.
pub fn start_at(form: Form, image: &[u8], k: Word) -> usize
    requires entry { HasEntry (form_of form) image.now k }
    ensures answer { result ≡ start_at (form_of form) image.now k }
{
    let at = form.entry_at(k);
    number_at(image, at + BEFORE_FIELDS, form.field_size)
}

// What the entry of kind k gives as the count of its facts.
pub fn count_at(form: Form, image: &[u8], k: Word) -> usize
    requires entry { HasEntry (form_of form) image.now k }
    ensures answer { result ≡ count_at (form_of form) image.now k }
    ensures bound { result < field_values (form_of form) }
{
    let at = form.entry_at(k);
    number_at(image, at + BEFORE_FIELDS + form.field_size, form.field_size)
}

// Whether the entry of kind k is right, if its body starts at `start`.
fn is_entry(form: Form, image: &[u8], k: Word, start: usize) -> bool
    requires entry { HasEntry (form_of form) image.now k }
    ensures answer { Decides result (Entry (form_of form) image.now k start) }
{
    let at = form.entry_at(k);
    byte_at(image, at) == k as usize
        && byte_at(image, at + 1) == form.fact_size(k)
        && start_at(form, image, k) == start
}

// Whether each entry is right, with no gap between the bodies, and the image ends with the last. The sums are
// wide.
fn is_chained(form: Form, image: &[u8]) -> bool
    requires { first_body (form_of form) ≤ length image.now }
    ensures answer { Decides result (Linked (form_of form) image.now) }
{
    let mut start = form.first_body();
    // From 0 and with 1 added: a range with both ends in it has two ways out, which doubles the goals.
    for done in 0..form.entries {
        let k = done + 1;
        if !is_entry(form, image, k, start) {
            return false;
        }
        start += form.fact_size(k) * count_at(form, image, k);
    }
    image.len() == start
}

// Whether the contents are right: the edition, the number of entries, and each entry.
pub fn has_contents(form: Form, image: &[u8]) -> bool
    ensures answer { Decides result (Contents (form_of form) image.now) }
{
    image.len() >= form.first_body()
        && byte_at(image, 0) == form.edition
        && byte_at(image, 1) == form.entries as usize
        && is_chained(form, image)
}
