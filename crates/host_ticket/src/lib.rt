// One ticket, anyone's or a shift operator's, on an image: read, apply, write.
//
// `apply_on_image` is what the host's calls with one ticket do; it has no `requires`: it says, for all bytes,
// the number that it answers and every byte that it leaves. The crate assumes nothing.
#![tactic(auto)]

ghost use Rattle.packing.specs.Packed.{packed_outcome};
ghost use Rattle.host_ticket.specs.HostTicket.{HostPromiseAs};

use image::{read, write_checked};
use operators::apply_as;
use packing::{Told, pack_outcome};
use table::{MOST, Refusal, Word};

// The steps: the facts added, the facts removed and the image's length, or the first refusal.
fn apply_between(
    operator: bool,
    image: &[u8],
    ticket: &[u8],
    output: &mut [u8],
) -> Result<Told, Refusal>
    ensures promise { HostPromiseAs operator image.now ticket.now
        output.old (packed_outcome result) output.new }
{
    let mut table: [Word; MOST] = [0; MOST];
    read(&mut table, image)?;
    let applied = apply_as(operator, &mut table, ticket)?;
    let length = write_checked(&table, output)?;
    Ok(Told {
        second: applied.added,
        third: applied.removed,
        fourth: length,
    })
}

// Reads the image into 2,048 words, applies the ticket to them, writes the image of what it left. Answers the
// number, the facts added, the facts removed and the image's length. Refused as the steps refuse, in their
// order, the last three are 0 and the output is as it was.
pub fn apply_on_image(operator: bool, image: &[u8], ticket: &[u8], output: &mut [u8]) -> u64
    ensures promise { HostPromiseAs operator image.now ticket.now
        output.old result output.new }
{
    pack_outcome(apply_between(operator, image, ticket, output))
}
