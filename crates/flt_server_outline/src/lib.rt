//! The outline of a text for editors, by its tokens alone: their roles, blocks and symbols, where a name is declared and used, and
//! places as the Language Server Protocol counts them. So all of it works on a text that doesn't parse.
#![tactic(auto)]

mod blocks;
mod places;
mod roles;
mod symbols;
mod uses;

pub use blocks::{Fold, folds_of};
pub use places::{byte_of, spot_of};
pub use roles::{MarkedToken, NameOf, Role, is_variable, mark_tokens};
pub use symbols::{Part, Symbol, SymbolKind, symbols_of};
pub use uses::{Mention, NamedThing, declaration_of, mention_at, uses_of};
