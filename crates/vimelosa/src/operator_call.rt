// A shift operator's tickets on an image.
ghost use Rattle.host_ticket.specs.HostTicket.{OperatorHostPromise};
ghost use Rattle.host_list.specs.HostList.{OperatorHostListPromise};

use host_list::run_on_image;
use host_ticket::apply_on_image;
use operators::OPERATOR;

// As `vimelosa_apply`, with an operator's ticket: one of kind 3, 4, 9 or 10 is applied as there, any other is
// refused with 17 directly after 7.
#[unsafe(no_mangle)]
pub extern "C" fn vimelosa_apply_operator(image: &[u8], ticket: &[u8], output: &mut [u8]) -> u64
    ensures promise { OperatorHostPromise image.now ticket.now
        output.old result output.new }
{
    apply_on_image(OPERATOR, image, ticket, output)
}

// As `vimelosa_apply_list`, with an operator's tickets: those of other kinds than 3, 4, 9 and 10 have 17 in
// their answer bytes, if none of 4 to 7 holds, and change nothing.
#[unsafe(no_mangle)]
pub extern "C" fn vimelosa_apply_operator_list(
    image: &[u8],
    tickets: &[u8],
    answers: &mut [u8],
    output: &mut [u8],
) -> u64
    ensures promise { OperatorHostListPromise image.now tickets.now
        answers.old output.old result answers.new output.new }
{
    run_on_image(OPERATOR, image, tickets, answers, output)
}
