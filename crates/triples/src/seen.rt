// The ids that the lines of a text have.
ghost use Rattle.std.specs.Prelude.{◌≡◌, T};
ghost use Rattle.rdfs.specs.Numbers.{product};
ghost use Rattle.rdfs.specs.Lists.{any};
ghost use Rattle.rdfs.specs.Words.{is_fact};
ghost use Rattle.flags.specs.Flags.{Adds, Says, none};
ghost use Rattle.triple_form.specs.Lines.{in_profile};
ghost use Rattle.triple_form.specs.LineRead.{word_line};
ghost use Rattle.triples.specs.TextRead.{all_inside, as_literal, as_iri, is_member};
ghost use Rattle.triples.specs.Storing.{ids, common, FlagsLines};

use flags::IDS;
use table::{MEMBER, RESOURCE, VALUE, first_of, kind_of, place, second_of};
use triple_form::{Told, read_line};

// A flag for each id: whether a line has it as a literal, as the IRI of a value, as a member of Resource.
#[derive(Drop)]
pub struct Seen {
    pub literals: [bool; IDS],
    pub values: [bool; IDS],
    pub members: [bool; IDS],
}

impl Seen {
    // No id.
    pub fn none() -> Seen
        ensures literals { Says result.literals none }
        ensures values { Says result.values none }
        ensures members { Says result.members none }
    {
        Seen {
            literals: [false; IDS],
            values: [false; IDS],
            members: [false; IDS],
        }
    }

    // Flags the value of a line as a literal or as an IRI, and the member of a line of CI(a,0).
    fn flag_line(&mut self, line: Told)
        requires fact { T (is_fact product line.word) }
        requires profile { T (in_profile product.top (word_line line.word line.literal)) }
        ensures literals { Adds self.old.literals self.new.literals
            (λ n. as_literal n (word_line line.word line.literal)) }
        ensures values { Adds self.old.values self.new.values
            (λ n. as_iri n (word_line line.word line.literal)) }
        ensures members { Adds self.old.members self.new.members
            (λ n. is_member n (word_line line.word line.literal)) }
    {
        let k = kind_of(line.word);
        let b = second_of(line.word);
        if k == VALUE {
            if line.literal {
                self.literals[place(b)] = true;
            } else {
                self.values[place(b)] = true;
            }
        } else if k == MEMBER && b == RESOURCE {
            self.members[place(first_of(line.word))] = true;
        }
    }

    // Whether each line of a text is inside the profile. If so, the ids that its lines have are flagged.
    pub fn flag_lines(&mut self, text: &[u8]) -> bool
        ensures answer { result ≡ all_inside product.top text.now }
        ensures literals { FlagsLines as_literal text.now result self.old.literals self.new.literals }
        ensures values { FlagsLines as_iri text.now result self.old.values self.new.values }
        ensures members { FlagsLines is_member text.now result self.old.members self.new.members }
    {
        let mut rest = text;
        while let Some((line, next)) = read_line(rest) {
            self.flag_line(line);
            rest = next;
        }
        rest.is_empty()
    }

    // Whether an id is flagged as a literal and as the IRI of a value.
    pub fn tells_twice(&self) -> bool
        ensures answer { result ≡ any (common self.now.literals self.now.values) ids }
    {
        for (id, literal) in self.literals.iter().enumerate() {
            if *literal && self.values[id] {
                return true;
            }
        }
        false
    }
}
