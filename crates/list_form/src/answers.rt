// The answers of a list: its refusal, a ticket's number in its byte, the counts.
ghost use Rattle.std.specs.Prelude.{◌≡◌, ◌≤◌, ◌<◌, length, set};
ghost use Rattle.table.specs.Refused.{answer_of};
ghost use Rattle.list_form.specs.Listing.{refusal_of};
ghost use Rattle.list_form.specs.Loops.{accepted_after, listed_of};

use consistency::check;
use table::{Refusal, Word};

// What a list call answers that is not refused: how many tickets were accepted and how many refused.
#[derive(Clone, Copy)]
pub struct Listed {
    pub accepted: usize,
    pub refused: usize,
}

// The first of refusals 1, 2, 3 and 14 whose condition holds, if one does, of a list of this many tickets with
// room for so many answers.
pub fn check_list(table: &[Word], tickets: usize, room: usize) -> Result<(), Refusal>
    ensures answer { answer_of result ≡ refusal_of table.now tickets room }
{
    check(table)?;
    if room < tickets {
        return Err(Refusal::FewAnswers);
    }
    Ok(())
}

// A ticket's number goes to its byte, the one at its place in the list. The answer is how many are accepted
// with it, `accepted` of those before it.
pub fn put_answer(answers: &mut [u8], place: usize, accepted: usize, number: u8) -> usize
    requires place { place < length answers.old }
    requires bound { accepted ≤ place }
    ensures answer { result ≡ accepted_after accepted number }
    ensures bytes { answers.new ≡ set answers.old place number }
{
    answers[place] = number;
    if number == 0 {
        return accepted + 1;
    }
    accepted
}

// The answer of a list by how many of its tickets are accepted.
pub fn sum_up(tickets: usize, accepted: usize) -> Listed
    requires bound { accepted ≤ tickets }
    ensures answer { result ≡ listed_of tickets accepted }
{
    Listed {
        accepted,
        refused: tickets - accepted,
    }
}
