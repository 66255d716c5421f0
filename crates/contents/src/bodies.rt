// The facts in the bodies of an image, and whether an image is well formed.
ghost use Rattle.std.specs.Prelude.{◌≡◌, ℕ, ◌+◌, ◌*◌, ◌≤◌, ◌<◌, not, List, length};
ghost use Rattle.rdfs.specs.Numbers.{product};
ghost use Rattle.rdfs.specs.Words.{laid_out};
ghost use Rattle.contents.specs.FormOf.{form_of};
ghost use Rattle.contents.specs.Reading.{number_at, word_at, words_from, words_of, malformed, bodiless};
ghost use Rattle.contents.specs.WithinBytes.{HasFacts};
ghost use Rattle.contents.specs.Contents.{Contents};
ghost use Rattle.contents.specs.BodyRise.{RisesTo};

use crate::entries::{count_at, has_contents, number_at, start_at};
use crate::form::Form;
use table::{Word, arity_of, is_fact, word_of};

// An id in a body.
fn id_at(form: Form, image: &[u8], place: usize) -> Word
    requires { place + (form_of form).id_size ≤ length image.now }
    ensures answer { result ≡ number_at (form_of form).id_size image.now place }
    ensures bound { result < product.base }
{
    let id = number_at(image, place, form.id_size);
    id as Word
}

// The word of the fact of kind k whose ids stand from a place on.
pub fn word_at(form: Form, image: &[u8], k: Word, place: usize) -> Word
    requires fact { HasFacts (form_of form) image.now k place 1 }
    ensures answer { result ≡ word_at product (form_of form) image.now k place }
{
    let ids = arity_of(k);
    let a = id_at(form, image, place);
    if ids == 1 {
        return word_of(k, a, 0, 0);
    }
    let b = id_at(form, image, place + form.id_size);
    if ids == 2 {
        return word_of(k, a, b, 0);
    }
    let c = id_at(form, image, place + 2 * form.id_size);
    word_of(k, a, b, c)
}

// Whether the count facts of kind k from place `from` on are facts, each above the one before, the first
// above `last`: the last word, or `last` if there is none; nothing if one is no fact, or not above the one
// before.
fn rise_of(form: Form, image: &[u8], k: Word, from: usize, count: usize, last: Word) -> Option<Word>
    requires facts { HasFacts (form_of form) image.now k from count }
    ensures answer { (rest : List ℕ) → RisesTo last (words_from product (form_of form)
        image.now k count from) rest result }
{
    let size = form.fact_size(k);
    let mut place = from;
    let mut top = last;
    for _passed in 0..count {
        let word = word_at(form, image, k, place);
        if word <= top || !is_fact(word) {
            return None;
        }
        top = word;
        place += size;
    }
    Some(top)
}

// Whether the words of the bodies are facts, ascending, none twice.
pub fn is_rising(form: Form, image: &[u8]) -> bool
    requires contents { Contents (form_of form) image.now }
    ensures answer { result ≡ laid_out product 1 (words_of product (form_of form) image.now) }
{
    let mut last: Word = 0;
    // From 0 and with 1 added: a range with both ends in it has two ways out, which doubles the goals.
    for done in 0..form.entries {
        let k = done + 1;
        let from = start_at(form, image, k);
        let count = count_at(form, image, k);
        let Some(word) = rise_of(form, image, k, from, count, last) else {
            return false;
        };
        last = word;
    }
    true
}

// Whether the bytes are an image.
pub fn is_well_formed(form: Form, image: &[u8]) -> bool
    ensures answer { result ≡ not (malformed product (form_of form) image.now) }
{
    has_contents(form, image) && is_rising(form, image)
}

// Whether the bytes are an image and k is a kind of its form.
pub fn has_body(form: Form, image: &[u8], k: Word) -> bool
    ensures answer { result ≡ not (bodiless product (form_of form) image.now k) }
{
    if k == 0 || form.entries < k {
        return false;
    }
    is_well_formed(form, image)
}
