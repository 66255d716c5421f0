// The form of an image: its numbers, and where its entries stand.
ghost use Rattle.std.specs.Prelude.{◌≡◌, ◌+◌, ◌*◌, ◌≤◌};
ghost use Rattle.rdfs.specs.Numbers.{product};
ghost use Rattle.contents.specs.ImageForm.{
  form,
  image_form,
  fact_size,
  largest_fact,
  entry_size,
  entry_at,
  first_body,
};
ghost use Rattle.contents.specs.Legible.{fact_bytes, Legible};

use table::{KINDS, MOST, Word, arity_of};

// The numbers of a form whose images can be read.
#[derive(Clone, Copy)]
pub struct Form {
    // The edition.
    pub edition: usize,
    // How many entries the contents have, one for each kind from 1 on.
    pub entries: Word,
    // The bytes of an id.
    pub id_size: usize,
    // The bytes of a start, and of a count.
    pub field_size: usize,
    pub ghost legible: { Legible (record {
      edition = edition;
      entries = entries;
      id_size = id_size;
      field_size = field_size;
    }) },
}

// The product's form, which is written.
pub const FORM: Form = Form {
    edition: 1,
    entries: KINDS,
    id_size: 1,
    field_size: 2,
};

// The form with ten entries, which is read too: it has none for kind 11.
const TEN_FORM: Form = Form {
    edition: 1,
    entries: 10,
    id_size: 1,
    field_size: 2,
};
// The values of a byte.
pub const BYTE: usize = 256;
// The bytes before the entries: the edition and the number of entries.
const HEADER: usize = 2;
// The bytes of an entry before its fields: the kind, and the bytes per fact.
pub const BEFORE_FIELDS: usize = 2;

// In the product's form: the place of the first body, the most bytes of a fact, and the most of an image.
pub const FIRST_BODY: usize = 68;

const LARGEST_FACT: usize = 3;

pub const LONGEST: usize = FIRST_BODY + LARGEST_FACT * MOST;

// The constant is the definitions' number.
pub fn longest_image() -> usize
    ensures answer { result ≡ first_body form + largest_fact form * product.most }
{
    LONGEST
}

impl Form {
    ghost use Rattle.contents.specs.FormOf.{form_of};

    // The product's form. The constants are the definitions' numbers.
    pub fn product() -> Form
        ensures answer { form_of result ≡ form }
    {
        FORM
    }

    // The form that an image is read in, by the number of entries that it gives: ten, or the product's.
    pub fn of(image: &[u8]) -> Form
        ensures answer { form_of result ≡ image_form image.now }
    {
        if image.len() >= HEADER && image[1] as Word == TEN_FORM.entries {
            return TEN_FORM;
        }
        FORM
    }

    // The bytes of a fact of kind k.
    pub fn fact_size(self, k: Word) -> usize
        ensures answer { result ≡ fact_size (form_of self) k }
        ensures bound { result ≤ fact_bytes }
    {
        arity_of(k) as usize * self.id_size
    }

    // The bytes of an entry.
    fn entry_size(self) -> usize
        ensures answer { result ≡ entry_size (form_of self) }
    {
        BEFORE_FIELDS + self.field_size + self.field_size
    }

    // Where the entry of kind k stands.
    pub fn entry_at(self, k: Word) -> usize
        requires kind { (1 ≤ k) × (k ≤ (form_of self).entries) }
        ensures answer { result ≡ entry_at (form_of self) k }
    {
        let before = (k - 1) as usize;
        HEADER + before * self.entry_size()
    }

    // Where the first body stands.
    pub fn first_body(self) -> usize
        ensures answer { result ≡ first_body (form_of self) }
    {
        HEADER + self.entries as usize * self.entry_size()
    }
}
