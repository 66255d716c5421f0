// A ticket in two steps, Ask 6 of document 02: what it would do is asked for, then committed.
//
// The public calls are `ask` and `commit`. They have no `requires`: for all words of a table, all bytes of a
// ticket and all words of two runs each says the answer, both counts and every word afterwards. `ask_checked`
// and `commit_checked` serve the crates above: the same on a table known to be consistent. What is proved of
// the calls stands in the crate `preview_theorems`. The crate assumes nothing.
//
// Each takes one ticket's work on a copy of the table, 8 KB of stack, and one pass over the table and the
// copy: a run of no words takes none, and a ticket fills one run at most, since an insertion removes nothing
// and a deletion adds nothing.
#![tactic(auto)]

ghost use Rattle.std.specs.Prelude.{◌≡◌, length};
ghost use Rattle.rdfs.specs.Numbers.{product};
ghost use Rattle.rdfs.specs.Register.{Table};
ghost use Rattle.preview.specs.PreviewPromises.{AskPromise, CommitPromise};
ghost use Rattle.preview.specs.Tried.{Tried, is_current};

use consistency::check;
use differences::{is_missing, put_missing};
use table::{MOST, Refusal, Word};
use ticket::{Applied, try_ticket};

// Whether runs are exactly the words of the new table that the old lacks and those of the old that the new
// lacks; the answer has how many these are.
fn is_current(
    old: &[Word],
    new: &[Word],
    applied: Applied,
    added: &[Word],
    removed: &[Word],
) -> bool
    requires tables { Tried old.now new.now applied.added applied.removed }
    ensures answer { result ≡ is_current old.now new.now added.now
        removed.now }
{
    if added.len() != applied.added as usize || removed.len() != applied.removed as usize {
        return false;
    }
    is_missing(new, old, added) && is_missing(old, new, removed)
}

// Asks on a work table of the table's length.
fn ask_on(
    table: &[Word],
    work: &mut [Word],
    ticket: &[u8],
    added: &mut [Word],
    removed: &mut [Word],
) -> Result<Applied, Refusal>
    requires table { Table product table.now }
    requires work { length work.old ≡ length table.now }
    ensures answer { AskPromise table.now ticket.now added.old
        removed.old result added.new removed.new }
{
    work.copy_from_slice(table);
    let asked = try_ticket(work, ticket)?;
    let coming = asked.added as usize;
    if added.len() < coming {
        return Err(Refusal::ShortOutput);
    }
    let going = asked.removed as usize;
    if removed.len() < going {
        return Err(Refusal::ShortOutput);
    }
    put_missing(work, table, &mut added[..coming]);
    put_missing(table, work, &mut removed[..going]);
    Ok(asked)
}

// Commits by a work table of the table's length. Beside `ask_on`: what is done after the trial differs.
fn commit_on(
    table: &mut [Word],
    work: &mut [Word],
    ticket: &[u8],
    added: &[Word],
    removed: &[Word],
) -> Result<Applied, Refusal>
    requires table { Table product table.old }
    requires work { length work.old ≡ length table.old }
    ensures answer { CommitPromise table.old ticket.now added.now
        removed.now result table.new }
{
    work.copy_from_slice(table);
    let applied = try_ticket(work, ticket)?;
    if !is_current(table, work, applied, added, removed) {
        return Err(Refusal::OutOfDate);
    }
    table.copy_from_slice(work);
    Ok(applied)
}

// Asking on a table known to be consistent.
pub fn ask_checked(
    table: &[Word],
    ticket: &[u8],
    added: &mut [Word],
    removed: &mut [Word],
) -> Result<Applied, Refusal>
    requires table { Table product table.now }
    ensures answer { AskPromise table.now ticket.now added.old
        removed.old result added.new removed.new }
{
    let mut work = [0; MOST];
    ask_on(table, &mut work[..table.len()], ticket, added, removed)
}

// Committing on one.
pub fn commit_checked(
    table: &mut [Word],
    ticket: &[u8],
    added: &[Word],
    removed: &[Word],
) -> Result<Applied, Refusal>
    requires table { Table product table.old }
    ensures answer { CommitPromise table.old ticket.now added.now
        removed.now result table.new }
{
    let mut work = [0; MOST];
    let length = table.len();
    commit_on(table, &mut work[..length], ticket, added, removed)
}

// What one ticket would do, whatever its bytes, on the words of a table, whatever they are. The words that
// would come and go are written to the front of the runs, ascending, and the words past them stay. Answers as
// the single call would, with 13 after 11 if a run is too short; refused, both runs are as they were.
pub fn ask(
    table: &[Word],
    ticket: &[u8],
    added: &mut [Word],
    removed: &mut [Word],
) -> Result<Applied, Refusal>
    ensures answer { AskPromise table.now ticket.now added.old
        removed.old result added.new removed.new }
{
    check(table)?;
    ask_checked(table, ticket, added, removed)
}

// Carries one ticket out if the runs, whole, are exactly what it would do to the table now; else refuses with
// 18 after 11. In all else it is the single call.
pub fn commit(
    table: &mut [Word],
    ticket: &[u8],
    added: &[Word],
    removed: &[Word],
) -> Result<Applied, Refusal>
    ensures answer { CommitPromise table.old ticket.now added.now
        removed.now result table.new }
{
    check(table)?;
    commit_checked(table, ticket, added, removed)
}
