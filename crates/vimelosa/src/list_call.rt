// A list of tickets on an image.
ghost use Rattle.host_list.specs.HostList.{HostListPromise};

use host_list::run_on_image;
use operators::ANYONE;

// Reads the image into 2,048 words, runs the tickets on them in turn, writes each ticket's number to its
// answer byte and the image of what they left to the output. Answers the number, the tickets accepted, the
// tickets refused and the image's length. Refused with 12, 11, 3, 14 or 13, the last three are 0, and the
// answer bytes and the output are as they were: an output shorter than the longest image is tried first.
#[unsafe(no_mangle)]
pub extern "C" fn vimelosa_apply_list(
    image: &[u8],
    tickets: &[u8],
    answers: &mut [u8],
    output: &mut [u8],
) -> u64
    ensures promise { HostListPromise image.now tickets.now
        answers.old output.old result answers.new output.new }
{
    run_on_image(ANYONE, image, tickets, answers, output)
}
