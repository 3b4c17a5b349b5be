//! Laws of where a text fails: with the tokens up to the one at fault nothing is spelled, and without it something is. Among the faults
//! that only the whole text shows, the first in the text is reported. A further law is about the places of tokens.
#![tactic(auto)]

mod laws;

pub use laws::{
    an_e03_ends_a_viable_prefix, nothing_begins_at_the_exceptions, nothing_goes_on_from_the_token,
    something_begins_before_e03, the_fault_is_the_first_in_the_text,
    tokens_stand_where_they_are_counted,
};
