// The facts of an image as lines of text, gathered in a buffer.
ghost use Rattle.std.specs.Prelude.{◌+◌, ◌*◌, ◌≤◌, length};
ghost use Rattle.rdfs.specs.Numbers.{product};
ghost use Rattle.rdfs.specs.Words.{filled};
ghost use Rattle.text.specs.Text.{Number, Puts};
ghost use Rattle.print_facts.specs.FactLines.{WordsPrinted, FactsPrinted, ImageLent, words_read};

use image::{LONGEST, read};
use table::{MOST, Word};
use text::put_number;

// The line of a word, at most ten digits and a newline, from place `at` on. The answer is the place after it.
fn put_line(out: &mut [u8], at: usize, word: Word) -> usize
    requires room { at + 11 ≤ length out.old }
    ensures bound { result ≤ at + 11 }
    ensures text { Puts (Number word 10) at result out.old out.new }
{
    put_number(out, at, word as u64, b'\n')
}

// The lines of a table's facts, at the start of out. A zero is no fact. The answer is their length.
fn put_lines(table: &[Word], out: &mut [u8]) -> usize
    requires room { 11 * length table.now ≤ length out.old }
    ensures printed { WordsPrinted (filled table.now) result out.new }
{
    let mut at = 0;
    for &word in table {
        if word != 0 {
            at = put_line(out, at, word);
        }
    }
    at
}

// The lines of an image's facts, at the start of out. A refused image leaves the table without facts, and has
// no lines.
fn put_facts(image: &[u8], out: &mut [u8]) -> usize
    requires room { 11 * product.most ≤ length out.old }
    ensures printed { WordsPrinted (words_read image.now) result out.new }
{
    let mut table: [Word; MOST] = [0; MOST];
    let _outcome = read(&mut table, image);
    put_lines(&table, out)
}

// The lines of an image's facts, at the start of out, if n bytes of it stand at the start of a buffer that is
// longer than any image. More bytes than any image has are no image, and have no lines.
pub fn put_read(buffer: &[u8], count: usize, out: &mut [u8]) -> usize
    requires lent { ImageLent count buffer.now out.old }
    ensures bound { result ≤ length out.new }
    ensures lines { FactsPrinted buffer.now count result out.new }
{
    if LONGEST < count {
        return 0;
    }
    put_facts(&buffer[..count], out)
}
