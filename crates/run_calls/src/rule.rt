// A rule printed by its name.
use consistency::Rule;
use script::print_text;
use std::fmt::{InlineText, Write};

// A rule by its number in Fig. 3, or as H1 to H4, E1 or E2: its name without the letter R. A name is three
// bytes at most.
pub fn print_rule(rule: Rule) {
    let mut name = InlineText::<3>::new();
    let _ = write!(name, "{rule:?}");
    print_text(b" ");
    print_text(name.as_str().trim_start_matches('R').as_bytes());
}
