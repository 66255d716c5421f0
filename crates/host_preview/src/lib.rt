// A ticket in two steps on an image: read and ask; read, commit and write.
//
// `ask_on_image` and `commit_on_image` are what the host's calls of Ask 6 do; they have no `requires`: each
// says, for all bytes and all words of the runs, the number that it answers and every word and byte that it
// leaves. The crate assumes nothing.
#![tactic(auto)]

ghost use Rattle.packing.specs.Packed.{packed_outcome};
ghost use Rattle.host_preview.specs.HostPreview.{HostAskPromise, HostCommitPromise};

use image::{read, write_checked};
use packing::{Told, pack_outcome};
use preview::{ask_checked, commit_checked};
use table::{MOST, Refusal, Word};

// The steps of asking: the facts that would come and those that would go, or the first refusal.
fn ask_between(
    image: &[u8],
    ticket: &[u8],
    added: &mut [Word],
    removed: &mut [Word],
) -> Result<Told, Refusal>
    ensures promise { HostAskPromise image.now ticket.now added.old
        removed.old (packed_outcome result) added.new removed.new }
{
    let mut table: [Word; MOST] = [0; MOST];
    read(&mut table, image)?;
    let asked = ask_checked(&table, ticket, added, removed)?;
    Ok(Told {
        second: asked.added,
        third: asked.removed,
        fourth: 0,
    })
}

// The steps of committing: the facts added, the facts removed and the image's length, or the first refusal.
fn commit_between(
    image: &[u8],
    ticket: &[u8],
    added: &[Word],
    removed: &[Word],
    output: &mut [u8],
) -> Result<Told, Refusal>
    ensures promise { HostCommitPromise image.now ticket.now
        added.now removed.now output.old (packed_outcome result) output.new }
{
    let mut table: [Word; MOST] = [0; MOST];
    read(&mut table, image)?;
    let applied = commit_checked(&mut table, ticket, added, removed)?;
    let length = write_checked(&table, output)?;
    Ok(Told {
        second: applied.added,
        third: applied.removed,
        fourth: length,
    })
}

// Reads the image into 2,048 words and asks there. Answers the number, the facts that would come and those
// that would go. Refused, these are 0, and the runs are as they were.
pub fn ask_on_image(image: &[u8], ticket: &[u8], added: &mut [Word], removed: &mut [Word]) -> u64
    ensures promise { HostAskPromise image.now ticket.now added.old
        removed.old result added.new removed.new }
{
    pack_outcome(ask_between(image, ticket, added, removed))
}

// Reads the image into 2,048 words, commits the ticket there, writes the image of what it left. Answers the
// number, the facts added, the facts removed and the image's length. Refused as the steps refuse, in their
// order, the last three are 0 and the output is as it was.
pub fn commit_on_image(
    image: &[u8],
    ticket: &[u8],
    added: &[Word],
    removed: &[Word],
    output: &mut [u8],
) -> u64
    ensures promise { HostCommitPromise image.now ticket.now
        added.now removed.now output.old result output.new }
{
    pack_outcome(commit_between(image, ticket, added, removed, output))
}
