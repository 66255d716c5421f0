// The terms of the profile.
use table::Word;

#[derive(Clone, Copy, PartialEq)]
pub enum Term {
    // The IRI of an id: rdfs:Resource for 0, rdfs:Literal for the mark.
    Id(Word),
    Literal(Word),
    // rdf:type and rdf:Property.
    RdfType,
    Property,
    // The terms of RDF Schema.
    Class,
    SubClassOf,
    SubPropertyOf,
    Domain,
    Range,
    // The object of a line of Excl.
    Exclusive,
}
