// The host's calls as a static library, for C and for the Rust host: each export calls the function of the
// crate `vimelosa` that has its name, and promises the same. host/include/vimelosa.h says how they are called.
#![tactic(auto)]

ghost use Rattle.host_ticket.specs.HostTicket.{HostPromise, OperatorHostPromise};
ghost use Rattle.host_list.specs.HostList.{HostListPromise, OperatorHostListPromise};
ghost use Rattle.host_preview.specs.HostPreview.{HostAskPromise, HostCommitPromise};
ghost use Rattle.vimelosa.specs.HostCheck.{HostCheckPromise};
ghost use Rattle.vimelosa.specs.HostTriples.{HostWriteTriplesPromise, HostReadTriplesPromise};

use table::Word;

#[unsafe(no_mangle)]
pub extern "C" fn vimelosa_apply(image: &[u8], ticket: &[u8], output: &mut [u8]) -> u64
    ensures promise { HostPromise image.now ticket.now output.old result output.new }
{
    vimelosa::vimelosa_apply(image, ticket, output)
}

#[unsafe(no_mangle)]
pub extern "C" fn vimelosa_apply_operator(image: &[u8], ticket: &[u8], output: &mut [u8]) -> u64
    ensures promise { OperatorHostPromise image.now ticket.now output.old result output.new }
{
    vimelosa::vimelosa_apply_operator(image, ticket, output)
}

#[unsafe(no_mangle)]
pub extern "C" fn vimelosa_apply_list(
    image: &[u8],
    tickets: &[u8],
    answers: &mut [u8],
    output: &mut [u8],
) -> u64
    ensures promise { HostListPromise image.now tickets.now
        answers.old output.old result answers.new output.new }
{
    vimelosa::vimelosa_apply_list(image, tickets, answers, output)
}

#[unsafe(no_mangle)]
pub extern "C" fn vimelosa_apply_operator_list(
    image: &[u8],
    tickets: &[u8],
    answers: &mut [u8],
    output: &mut [u8],
) -> u64
    ensures promise { OperatorHostListPromise image.now tickets.now
        answers.old output.old result answers.new output.new }
{
    vimelosa::vimelosa_apply_operator_list(image, tickets, answers, output)
}

#[unsafe(no_mangle)]
pub extern "C" fn vimelosa_ask(
    image: &[u8],
    ticket: &[u8],
    added: &mut [Word],
    removed: &mut [Word],
) -> u64
    ensures promise { HostAskPromise image.now ticket.now added.old
        removed.old result added.new removed.new }
{
    vimelosa::vimelosa_ask(image, ticket, added, removed)
}

#[unsafe(no_mangle)]
pub extern "C" fn vimelosa_commit(
    image: &[u8],
    ticket: &[u8],
    added: &[Word],
    removed: &[Word],
    output: &mut [u8],
) -> u64
    ensures promise { HostCommitPromise image.now ticket.now
        added.now removed.now output.old result output.new }
{
    vimelosa::vimelosa_commit(image, ticket, added, removed, output)
}

#[unsafe(no_mangle)]
pub extern "C" fn vimelosa_check(image: &[u8]) -> u64
    ensures promise { HostCheckPromise image.now result }
{
    vimelosa::vimelosa_check(image)
}

#[unsafe(no_mangle)]
pub extern "C" fn vimelosa_write_triples(image: &[u8], output: &mut [u8]) -> u64
    ensures promise { HostWriteTriplesPromise image.now output.old result output.new }
{
    vimelosa::vimelosa_write_triples(image, output)
}

#[unsafe(no_mangle)]
pub extern "C" fn vimelosa_read_triples(text: &[u8], output: &mut [u8]) -> u64
    ensures promise { HostReadTriplesPromise text.now output.old result output.new }
{
    vimelosa::vimelosa_read_triples(text, output)
}
