// A list of tickets, anyone's or a shift operator's, on an image: read, run each, write.
//
// `run_on_image` is what the host's list calls do; it has no `requires`: it says, for all bytes, the number
// that it answers and every byte that it leaves. The crate assumes nothing.
#![tactic(auto)]

ghost use Rattle.std.specs.Prelude.{◌≡◌};
ghost use Rattle.table.specs.Refused.{answer_of};
ghost use Rattle.packing.specs.Packed.{packed_outcome};
ghost use Rattle.reading.specs.ReadPromise.{read_words};
ghost use Rattle.host_list.specs.HostList.{read_refusal, host_list_refusal, HostListPromiseAs, HasRoom};

use contents::LONGEST;
use image::{read, write_checked};
use list::{run_checked, run_unanswered};
use list_form::count_tickets;
use packing::{FIELD, Told, pack_outcome};
use table::{MOST, Refusal, Word};
use writing::length_checked;

// Reads the image into the table, and judges whether so many tickets have room for their answers; the counts
// have 16 bits, so that no more tickets than they can count have. Refused with 14, the words are read.
fn read_for(table: &mut [Word], image: &[u8], tickets: usize, room: usize) -> Result<(), Refusal>
    ensures answer { answer_of result ≡ read_refusal table.old image.now tickets room }
    ensures words { table.new ≡ read_words table.old image.now }
{
    read(table, image)?;
    if room < tickets || FIELD <= tickets as u64 {
        return Err(Refusal::FewAnswers);
    }
    Ok(())
}

// The call's refusal, if it has one, with so many bytes of room for answers and for the image: found on a
// table of its own, nothing lent is written.
fn check_list_call(
    operator: bool,
    image: &[u8],
    tickets: &[u8],
    room: usize,
    space: usize,
) -> Result<(), Refusal>
    ensures answer { answer_of result ≡ host_list_refusal operator image.now tickets.now
        room space }
{
    let mut table: [Word; MOST] = [0; MOST];
    read_for(&mut table, image, count_tickets(tickets.len()), room)?;
    run_unanswered(operator, &mut table, tickets);
    if space < length_checked(&table) {
        return Err(Refusal::ShortOutput);
    }
    Ok(())
}

// The call with an output that has room for the image, whatever the tickets leave.
fn run_list(
    operator: bool,
    image: &[u8],
    tickets: &[u8],
    answers: &mut [u8],
    output: &mut [u8],
) -> Result<Told, Refusal>
    requires room { HasRoom operator image.now tickets.now output.old }
    ensures promise { HostListPromiseAs operator image.now tickets.now
        answers.old output.old (packed_outcome result) answers.new output.new }
{
    let mut table: [Word; MOST] = [0; MOST];
    let count = count_tickets(tickets.len());
    read_for(&mut table, image, count, answers.len())?;
    let accepted = run_checked(operator, &mut table, tickets, answers);
    let refused = count - accepted;
    let length = write_checked(&table, output)?;
    Ok(Told {
        second: accepted as u16,
        third: refused as u16,
        fourth: length,
    })
}

// The steps: the tickets accepted, the tickets refused and the image's length, or the first refusal. An
// output shorter than the longest image is tried first.
fn run_between(
    operator: bool,
    image: &[u8],
    tickets: &[u8],
    answers: &mut [u8],
    output: &mut [u8],
) -> Result<Told, Refusal>
    ensures promise { HostListPromiseAs operator image.now tickets.now
        answers.old output.old (packed_outcome result) answers.new output.new }
{
    if output.len() < LONGEST {
        check_list_call(operator, image, tickets, answers.len(), output.len())?;
    }
    run_list(operator, image, tickets, answers, output)
}

// Reads the image into 2,048 words, runs the tickets on them in turn, writes each ticket's number to its
// answer byte and the image of what they left to the output. Answers the number, the tickets accepted, the
// tickets refused and the image's length. Refused with 12, 11, 3, 14 or 13, the last three are 0, and the
// answer bytes and the output are as they were: an output shorter than the longest image is tried first.
pub fn run_on_image(
    operator: bool,
    image: &[u8],
    tickets: &[u8],
    answers: &mut [u8],
    output: &mut [u8],
) -> u64
    ensures promise { HostListPromiseAs operator image.now tickets.now
        answers.old output.old result answers.new output.new }
{
    pack_outcome(run_between(operator, image, tickets, answers, output))
}
