// A ticket in two steps on an image: what it would do is asked for, then committed.
ghost use Rattle.host_preview.specs.HostPreview.{HostAskPromise, HostCommitPromise};

use host_preview::{ask_on_image, commit_on_image};
use table::Word;

// Reads the image into 2,048 words and writes to the runs, ascending, the words that the ticket would add and
// remove. Answers the number and how many these are. Refused with 12, 11 or 3, with a ticket's refusal or
// with 13 for a run that is too short, the counts are 0 and the runs are as they were.
#[unsafe(no_mangle)]
pub extern "C" fn vimelosa_ask(
    image: &[u8],
    ticket: &[u8],
    added: &mut [Word],
    removed: &mut [Word],
) -> u64
    ensures promise { HostAskPromise image.now ticket.now added.old
        removed.old result added.new removed.new }
{
    ask_on_image(image, ticket, added, removed)
}

// As `vimelosa_apply`, if the runs are exactly what the ticket would add to the image's graph and remove from
// it; else refused with 18 directly after the ticket's 11.
#[unsafe(no_mangle)]
pub extern "C" fn vimelosa_commit(
    image: &[u8],
    ticket: &[u8],
    added: &[Word],
    removed: &[Word],
    output: &mut [u8],
) -> u64
    ensures promise { HostCommitPromise image.now ticket.now
        added.now removed.now output.old result output.new }
{
    commit_on_image(image, ticket, added, removed, output)
}
