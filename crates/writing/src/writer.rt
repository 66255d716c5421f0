// The image of a table, written into lent bytes.
ghost use Rattle.std.specs.Prelude.{◌≡◌, ◌++◌, ◌+◌, ◌-◌, ◌^◌, ◌≤◌, ◌<◌, length, get_or, take, drop};
ghost use Rattle.rdfs.specs.Numbers.{product, kind_count};
ghost use Rattle.rdfs.specs.Words.{filled};
ghost use Rattle.table.specs.Found.{below};
ghost use Rattle.table.specs.Parts.{word_of};
ghost use Rattle.table.specs.Overlay.{over};
ghost use Rattle.contents.specs.ImageForm.{byte_values, in_bytes, entry_at, first_body};
ghost use Rattle.contents.specs.FormOf.{form_of};
ghost use Rattle.contents.specs.Image.{id_bytes, entry, image_of};
ghost use Rattle.writing.specs.KindEnds.{count_by, contents_by, length_by, KindEnds, KindEndsOf};
ghost use Rattle.writing.specs.Writing.{
  Writable,
  Writing,
  NewEntry,
  NewFact,
  NewStretch,
  NewBodies,
  Embodied,
};

use contents::{BEFORE_FIELDS, BYTE, Form};
use table::{Word, arity_of, count_below, first_of, second_of, third_of, word_of};

// How many facts a table has of the kinds up to k.
fn count_to(table: &[Word], count: usize, k: Word) -> usize
    requires table { Writable table.now count }
    requires kind { k ≤ kind_count }
    ensures answer { result ≡ below (take count table.now) (word_of (k + 1) 0 0 0) }
{
    let next = word_of(k + 1, 0, 0, 0);
    count_below(&table[..count], next)
}

// Stores, at the place of each kind of the form, how many facts the table has of the kinds up to it. At place
// 0 stands 0.
// The loops over kinds go from 0 and add 1: a range with both ends in it has two ways out, which doubles each
// goal behind the loop.
pub fn find_ends(form: Form, table: &[Word], count: usize, ends: &mut [usize])
    requires table { Writing (form_of form) table.now count }
    requires room { (form_of form).entries < length ends.old }
    requires none { get_or ends.old 0 0 ≡ 0 }
    ensures ends { KindEndsOf (form_of form) table.now count ends.new }
{
    for done in 0..form.entries {
        let k = done + 1;
        let to = count_to(table, count, k);
        ends[k as usize] = to;
    }
}

// How many facts there are of kind k.
fn count_of(ends: &[usize], k: Word) -> usize
    requires kind { (1 ≤ k) × (k < length ends.now) }
    requires order { get_or ends.now (k - 1) 0 ≤ get_or ends.now k 0 }
    ensures answer { result ≡ count_by ends.now k }
{
    ends[k as usize] - ends[(k - 1) as usize]
}

// The length of an image, kind by kind.
pub fn image_length(form: Form, ends: &[usize]) -> usize
    requires ends { KindEnds (form_of form) ends.now }
    ensures answer { result ≡ length_by (form_of form) ends.now }
{
    let mut length = form.first_body();
    for done in 0..form.entries {
        let k = done + 1;
        length += form.fact_size(k) * count_of(ends, k);
    }
    length
}

// Stores a number in `size` bytes, low byte first.
fn put_bytes(output: &mut [u8], at: usize, value: usize, size: usize)
    requires room { at + size ≤ length output.old }
    requires small { value < byte_values ^ size }
    ensures bytes { output.new ≡ over output.old at (in_bytes size value) }
{
    let mut rest = value;
    for stored in 0..size {
        output[at + stored] = (rest % BYTE) as u8;
        rest /= BYTE;
    }
}

// Stores the entry of kind k.
fn put_entry(form: Form, output: &mut [u8], k: Word, start: usize, count: usize)
    requires entry { NewEntry (form_of form) output.old k start count }
    ensures bytes { output.new ≡ over output.old (entry_at (form_of form) k)
        (entry (form_of form) k start count) }
{
    let at = form.entry_at(k);
    let size = form.fact_size(k);
    output[at] = k as u8;
    output[at + 1] = size as u8;
    let first = at + BEFORE_FIELDS;
    let bytes = form.field_size;
    let second = first + bytes;
    put_bytes(output, first, start, bytes);
    put_bytes(output, second, count, bytes);
}

// Stores the contents of an image.
pub fn put_contents(form: Form, ends: &[usize], output: &mut [u8])
    requires ends { KindEnds (form_of form) ends.now }
    requires room { first_body (form_of form) ≤ length output.old }
    ensures bytes { output.new ≡ contents_by (form_of form) ends.now ++ drop
        (first_body (form_of form)) output.old }
{
    output[0] = form.edition as u8;
    output[1] = form.entries as u8;
    let mut start = form.first_body();
    for done in 0..form.entries {
        let k = done + 1;
        let count = count_of(ends, k);
        put_entry(form, output, k, start, count);
        start += form.fact_size(k) * count;
    }
}

// Stores the ids of a fact that has `ids` of them, and answers the place after them.
fn put_fact(form: Form, output: &mut [u8], at: usize, word: Word, ids: Word) -> usize
    requires fact { NewFact (form_of form) output.old at word ids }
    ensures answer { result ≡ at + length (id_bytes product (form_of form) word) }
    ensures bytes { output.new ≡ over output.old at
        (id_bytes product (form_of form) word) }
{
    let size = form.id_size;
    let a = first_of(word) as usize;
    put_bytes(output, at, a, size);
    let second = at + size;
    if ids == 1 {
        return second;
    }
    let b = second_of(word) as usize;
    put_bytes(output, second, b, size);
    let third = second + size;
    if ids == 2 {
        return third;
    }
    let c = third_of(word) as usize;
    put_bytes(output, third, c, size);
    third + size
}

// Stores the facts from place `from` up to place `to`, which have `ids` ids each, from byte `start` on.
// Answers the place after them.
fn put_stretch(
    form: Form,
    table: &[Word],
    from: usize,
    to: usize,
    ids: Word,
    output: &mut [u8],
    start: usize,
) -> usize
    requires stretch { NewStretch (form_of form) table.now from to ids output.old start }
    ensures bytes { Embodied (form_of form) (filled table.now) output.old
        output.new to result }
    ensures answer { start ≤ result }
{
    let mut at = start;
    for word in &table[from..to] {
        at = put_fact(form, output, at, *word, ids);
    }
    at
}

// Stores the bodies of a table's image, behind its contents, kind by kind.
pub fn put_bodies(form: Form, table: &[Word], ends: &[usize], output: &mut [u8])
    requires bodies { NewBodies (form_of form) table.now ends.now output.old }
    ensures bytes { output.new ≡ image_of product (form_of form) (filled table.now)
        ++ drop (length (image_of product (form_of form) (filled table.now)))
        output.old }
{
    let mut at = form.first_body();
    for done in 0..form.entries {
        let k = done + 1;
        let ids = arity_of(k);
        let from = ends[done as usize];
        let to = ends[k as usize];
        at = put_stretch(form, table, from, to, ids, output, at);
    }
}
