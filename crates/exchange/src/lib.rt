// An image turned into the text of its graph, and a text into the image of its graph.
//
// The public calls are `to_text` and `to_image`. They have no `requires`: each says, for all bytes, what it
// answers and every byte that it leaves, through the definitions of reading and writing. `put_text` and
// `put_image` serve the programs: with room for the longest, what is printed, nothing on refusal. The crate
// assumes nothing. The table between is the call's own: 8 KB of stack, beside those of the steps.
#![tactic(auto)]

ghost use Rattle.std.specs.Prelude.{◌≡◌, ◌≤◌, length, take};
ghost use Rattle.triples.specs.ReadTriples.{read_triples_answer};
ghost use Rattle.exchange.specs.ToText.{room, ToTextPromise};
ghost use Rattle.exchange.specs.PlaceTold.{PlaceTold};
ghost use Rattle.exchange.specs.ToImage.{text_graph, ToImagePromise};
ghost use Rattle.exchange.specs.declared.Rejected.TheVariants.{Refused};
ghost use Rattle.exchange.specs.Printed.{longest_text, longest_image, text_printed, image_printed};

use consistency::count_met;
use image::read;
use table::{MOST, Refusal, Word};
use triple_form::LONGEST_LINE;
use triples::{fill_text, read_triples};

// No text that is written has more bytes: a fact has one line at most.
pub const LONGEST_TEXT: usize = LONGEST_LINE * MOST;

// Why a text is not turned into an image.
#[derive(Clone, Copy, Debug, PartialEq, Eq)]
pub enum Rejected {
    // 3, with the place, counted from 1 in the paper's order, of the first rule that the text's graph breaks.
    Broken(u16),
    // Another refusal.
    Refused(Refusal),
}

impl From<Refusal> for Rejected {
    ghost from_gives = { λ refusal rejected. rejected ≡ Refused refusal };

    fn from(refusal: Refusal) -> Rejected {
        Rejected::Refused(refusal)
    }
}

// Reads the image into 2,048 words and writes their text, and answers its length. Refused with 12, 11, 3 or
// 13, the output is as it was.
pub fn to_text(image: &[u8], output: &mut [u8]) -> Result<usize, Refusal>
    ensures promise { ToTextPromise image.now output.old result
        output.new }
{
    let mut table: [Word; MOST] = [0; MOST];
    read(&mut table, image)?;
    triples::write_checked(&table, output)
}

// The place of the first rule that the graph of a text breaks, where reading refuses it with 3.
fn broken_place(text: &[u8]) -> u16
    requires inconsistent { read_triples_answer room text.now ≡ 3 }
    ensures place { PlaceTold (read_triples_answer room text.now)
        (text_graph text.now) result }
{
    let mut table: [Word; MOST] = [0; MOST];
    // The words are stored: a text is refused with 3 only if they could be.
    let _filled = fill_text(&mut table, text);
    let met = count_met(&table);
    met as u16 + 1
}

// Reads the text into 2,048 words and writes their image, and answers its length. Refused with 15, 11, 3 or
// 13, the output is as it was; for 3 the place of the broken rule is told.
pub fn to_image(text: &[u8], output: &mut [u8]) -> Result<u16, Rejected>
    ensures promise { ToImagePromise text.now output.old result
        output.new }
{
    let mut table: [Word; MOST] = [0; MOST];
    match read_triples(&mut table, text) {
        Ok(()) => {
            let length = image::write_checked(&table, output)?;
            Ok(length)
        }
        Err(refusal) => match refusal {
            Refusal::Inconsistent => Err(Rejected::Broken(broken_place(text))),
            _ => Err(Rejected::Refused(refusal)),
        },
    }
}

// Puts the text of an image's graph into bytes that have room for the longest, and answers its length; 0 if
// the image is refused.
// A number and no Option: so many bytes are printed, as the definition `text_printed` has it.
pub fn put_text(image: &[u8], out: &mut [u8]) -> usize
    requires room { longest_text ≤ length out.old }
    ensures printed { take result out.new ≡ text_printed image.now }
    ensures within { result ≤ length out.new }
{
    to_text(image, out).unwrap_or(0)
}

// Puts the image of a text's graph into bytes that have room for the longest, and answers its length; 0 if
// the text is refused.
// A number and no Option: so many bytes are printed, as the definition `image_printed` has it.
pub fn put_image(text: &[u8], out: &mut [u8]) -> usize
    requires room { longest_image ≤ length out.old }
    ensures printed { take result out.new ≡ image_printed text.now }
    ensures within { result ≤ length out.new }
{
    let written = to_image(text, out).unwrap_or(0);
    written as usize
}
