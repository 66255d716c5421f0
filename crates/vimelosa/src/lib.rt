// The host's calls across the C interface: read an image, run one ticket or a list on it, anyone's or a shift
// operator's, write the image of what is left; show what a ticket would do, and commit it; say of an image
// what is wrong with it; turn an image into a text, and a text into an image.
//
// The public calls are `vimelosa_apply`, `vimelosa_apply_list`, `vimelosa_apply_operator`,
// `vimelosa_apply_operator_list`, `vimelosa_ask`, `vimelosa_commit`, `vimelosa_check`,
// `vimelosa_write_triples` and `vimelosa_read_triples`. They have no `requires`: each says, for all bytes and
// words, the number that it answers and every byte and word that it leaves, through the definitions of
// reading, of the tickets and of writing. What is proved from these promises stands in the crate
// `host_theorems`. The crate assumes nothing.
//
// The table that an image is read into is the call's own: 8 KB of stack, beside those of the steps. It is
// checked once, by reading. A list with a short output is read twice, each time into a table that is gone
// before the other is there.
#![tactic(auto)]

mod check_call;
mod list_call;
mod operator_call;
mod preview_call;
mod triples_call;

ghost use Rattle.host_ticket.specs.HostTicket.{HostPromise};

pub use check_call::vimelosa_check;
use host_ticket::apply_on_image;
pub use list_call::vimelosa_apply_list;
pub use operator_call::{vimelosa_apply_operator, vimelosa_apply_operator_list};
use operators::ANYONE;
pub use preview_call::{vimelosa_ask, vimelosa_commit};
pub use triples_call::{vimelosa_read_triples, vimelosa_write_triples};

// Reads the image into 2,048 words, applies the ticket to them, writes the image of what it left. Answers the
// number, the facts added, the facts removed and the image's length. Refused as the steps refuse, in their
// order, the last three are 0 and the output is as it was.
#[unsafe(no_mangle)]
pub extern "C" fn vimelosa_apply(image: &[u8], ticket: &[u8], output: &mut [u8]) -> u64
    ensures promise { HostPromise image.now ticket.now output.old result
        output.new }
{
    apply_on_image(ANYONE, image, ticket, output)
}
