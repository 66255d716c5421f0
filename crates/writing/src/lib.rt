// The image of a table, written into lent bytes.
//
// The public call is `write`, which crate `image` passes on. It has no `requires`: it says, for all inputs,
// what it answers and every byte afterwards. `write_checked` and `length_checked` serve the crates above:
// writing without the check, and the length that it takes. They require a consistent table. The crate assumes
// nothing.
#![tactic(auto)]

ghost use Rattle.std.specs.Prelude.{◌≡◌, length};
ghost use Rattle.rdfs.specs.Numbers.{product};
ghost use Rattle.rdfs.specs.Register.{Table};
ghost use Rattle.writing.specs.WritePromise.{table_image, WritePromise};

mod writer;

use consistency::check;
use contents::FORM;
use table::{KINDS, Refusal, Word, count_facts};
use writer::{find_ends, image_length, put_bodies, put_contents};

// A place for each kind, and one for 0.
const ENDS: usize = KINDS as usize + 1;

// Writes the image of a table and answers its length. The bytes after it are untouched. Refused with 1, 2, 3
// or 13, all bytes are as they were.
pub fn write(table: &[Word], output: &mut [u8]) -> Result<u16, Refusal>
    ensures promise { WritePromise table.now output.old result
        output.new }
{
    check(table)?;
    write_checked(table, output)
}

// Writes the image of a table known to be consistent. Only 13 can come.
pub fn write_checked(table: &[Word], output: &mut [u8]) -> Result<u16, Refusal>
    requires table { Table product table.now }
    ensures promise { WritePromise table.now output.old result
        output.new }
{
    let count = count_facts(table);
    let mut ends: [usize; ENDS] = [0; ENDS];
    find_ends(FORM, table, count, &mut ends);
    let length = image_length(FORM, &ends);
    if output.len() < length {
        return Err(Refusal::ShortOutput);
    }
    put_contents(FORM, &ends, output);
    put_bodies(FORM, table, &ends, output);
    Ok(length as u16)
}

// The length of the image of a table known to be consistent.
// Its first lines are those of `write_checked`: a function for them would lend the array of ends, no plainer.
pub fn length_checked(table: &[Word]) -> usize
    requires table { Table product table.now }
    ensures answer { result ≡ length (table_image table.now) }
{
    let count = count_facts(table);
    let mut ends: [usize; ENDS] = [0; ENDS];
    find_ends(FORM, table, count, &mut ends);
    image_length(FORM, &ends)
}
