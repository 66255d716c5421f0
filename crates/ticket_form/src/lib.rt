// The form of a ticket, and the refusals before it is run: 5 to 8 by its fields, 9 and 16 by a table's facts.
//
// The functions serve the crates above; none is a call of a host. `check_fields`, `check_form` and `wide` have
// no `requires`; `decode` asks for the length of a record, `is_unknown_property`, `is_unknown_class` and
// `has_asked` for the facts of a table and a ticket past refusal 8. The crate assumes nothing.
#![tactic(auto)]

mod fields;
mod form;
mod ids;
mod state;

pub use fields::{INSERT, RECORD, Ticket, decode, wide};
pub use form::{check_fields, check_form};
pub use state::{has_asked, is_unknown_class, is_unknown_property};
