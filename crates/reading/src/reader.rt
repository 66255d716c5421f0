// The words of an image, read into a table.
ghost use Rattle.std.specs.Prelude.{◌≡◌, ◌++◌, ◌+◌, ◌≤◌, length, drop, replicate};
ghost use Rattle.rdfs.specs.Numbers.{product};
ghost use Rattle.rdfs.specs.Refusals.{or_else};
ghost use Rattle.table.specs.Refused.{number, answer_of};
ghost use Rattle.contents.specs.ImageForm.{image_form};
ghost use Rattle.contents.specs.FormOf.{form_of};
ghost use Rattle.contents.specs.Reading.{words_from, words_of, malformed};
ghost use Rattle.contents.specs.WithinBytes.{HasFacts};
ghost use Rattle.contents.specs.Contents.{Contents};
ghost use Rattle.reading.specs.Fitting.{Fitting};
ghost use Rattle.reading.specs.ReadPromise.{image_words, ReadPromise};

use consistency::check;
use contents::{Form, count_at, is_rising, start_at, word_at};
use table::{Refusal, Word};

// How many facts the contents give, over all kinds. The sum is wide.
pub fn count_words(form: Form, image: &[u8]) -> usize
    requires contents { Contents (form_of form) image.now }
    ensures answer { result ≡ length (words_of product (form_of form) image.now) }
{
    let mut total = 0;
    // From 0 and with 1 added: a range with both ends in it has two ways out, which doubles the goals.
    for done in 0..form.entries {
        let k = done + 1;
        total += count_at(form, image, k);
    }
    total
}

// The refusal of an image with right contents and more facts than the table has words: 12 comes before 11.
pub fn overfull_refusal(form: Form, image: &[u8]) -> Refusal
    requires contents { Contents (form_of form) image.now }
    ensures answer { number result ≡ or_else (malformed product (form_of form) image.now) 12 11 }
{
    if is_rising(form, image) {
        return Refusal::TooMany;
    }
    Refusal::Malformed
}

// Stores the words of as many facts of kind k, from place `from` on, as `words` has places.
fn fill_body(form: Form, words: &mut [Word], image: &[u8], k: Word, from: usize)
    requires { HasFacts (form_of form) image.now k from (length words.old) }
    ensures words { words.new ≡ words_from product (form_of form) image.now k
        (length words.old) from }
{
    let size = form.fact_size(k);
    let mut at = from;
    for word in words {
        *word = word_at(form, image, k, at);
        at += size;
    }
}

// Stores the words of an image from the table's first place on.
fn fill_words(form: Form, table: &mut [Word], image: &[u8])
    requires contents { Contents (form_of form) image.now }
    requires room { length (words_of product (form_of form) image.now) ≤ length table.old }
    ensures words { table.new ≡ words_of product (form_of form) image.now ++ drop
        (length (words_of product (form_of form) image.now)) table.old }
{
    let mut place = 0;
    for done in 0..form.entries {
        let k = done + 1;
        let from = start_at(form, image, k);
        let end = place + count_at(form, image, k);
        fill_body(form, &mut table[place..end], image, k, from);
        place = end;
    }
}

// The same in the form that the image is read in. All who store an image's words call this one, so that the
// compiler has the form's numbers where the words are made.
pub fn store_words(table: &mut [Word], image: &[u8])
    requires contents { Contents (image_form image.now) image.now }
    requires room { length (image_words image.now) ≤ length table.old }
    ensures words { table.new ≡ image_words image.now ++ drop
        (length (image_words image.now)) table.old }
{
    fill_words(Form::of(image), table, image);
}

// Reads an image with right contents and facts that fit, through a work table of as many zeros as the table
// has words. The words are not laid out exactly if the image is malformed, so refusal 2 of the check is 12.
pub fn read_through(table: &mut [Word], work: &mut [Word], image: &[u8]) -> Result<(), Refusal>
    requires fitting { Fitting table.old image.now }
    requires zeros { work.old ≡ replicate (length table.old) 0 }
    ensures promise { ReadPromise table.old image.now (answer_of result) table.new }
{
    store_words(work, image);
    if let Err(refusal) = check(work) {
        return match refusal {
            Refusal::BadLayout => Err(Refusal::Malformed),
            _ => Err(refusal),
        };
    }
    table.copy_from_slice(work);
    Ok(())
}
