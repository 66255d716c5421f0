// The refusals, each with its number: the only place of these numbers in code. docs/REFUSALS.md says who can
// cause each and which calls give it; the definition of the same name says when. 0 is no refusal; 19 and
// 20 are free.
ghost use Rattle.std.specs.Prelude.{◌≡◌};
ghost use Rattle.table.specs.Refused.{number, answer_of};

#[derive(Clone, Copy, Debug, PartialEq, Eq)]
pub enum Refusal {
    // 1: a table of no words or above the most.
    BadSize = 1,
    // 2: a table not laid out.
    BadLayout = 2,
    // 3: a table, or the graph of an image or of a text, not consistent.
    Inconsistent = 3,
    // 4: a ticket's length.
    BadLength = 4,
    // 5: a ticket's operation.
    BadOperation = 5,
    // 6: a ticket's kind.
    BadKind = 6,
    // 7: an unused byte not 0, id 1 out of place, or an id above the highest.
    BadIds = 7,
    // 8: deletion of Cl(0), or of CSub or CI with b = 0.
    Guarded = 8,
    // 9: insertion of PSub, PI or Excl with an id that is no property of the table.
    UnknownProperty = 9,
    // 10: insertion where no consistent graph holds the table and the asked facts.
    Clashing = 10,
    // 11: the new graph, or that of an image or of a text, has more facts than the table has words.
    TooMany = 11,
    // 12: an image not of its form.
    Malformed = 12,
    // 13: an output shorter than the image or the text, or a run shorter than the words that asking writes to
    // it.
    ShortOutput = 13,
    // 14: fewer answer bytes than tickets.
    FewAnswers = 14,
    // 15: a line of a text outside the profile of N-Triples.
    OutsideProfile = 15,
    // 16: insertion of CI with an id that is no class of the table.
    UnknownClass = 16,
    // 17: an operator's ticket of a kind that is not for operators.
    NotForOperators = 17,
    // 18: the runs that a ticket is committed with are not what it would do now.
    OutOfDate = 18,
}

impl From<Refusal> for u8 {
    ghost from_gives = { λ refusal answer. answer ≡ number refusal };

    fn from(refusal: Refusal) -> u8 {
        refusal as u8
    }
}

// What a call answers across an interface of numbers: 0, or its refusal.
pub fn answer_of<T: Copy>(outcome: Result<T, Refusal>) -> u8
    ensures answer { result ≡ answer_of outcome }
{
    match outcome {
        Ok(_) => 0,
        Err(refusal) => u8::from(refusal),
    }
}
