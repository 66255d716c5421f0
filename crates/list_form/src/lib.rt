// The form of a list of tickets: its tickets, and how many its bytes make; its refusal, a ticket's number in its
// byte, the counts.
//
// The functions serve the crates above, whose list calls do this besides running their tickets; none is a
// call of a host. `put_answer` and `sum_up` have a `requires`, on the counts that a list call keeps; the
// others have none. What a list call answers and leaves is defined here, in specs. The crate assumes nothing.
#![tactic(auto)]

mod answers;
mod tickets;

pub use answers::{Listed, check_list, put_answer, sum_up};
pub use tickets::{count_tickets, tickets_of};
