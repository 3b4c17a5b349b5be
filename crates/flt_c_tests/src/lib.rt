//! Tests of the reader of plain C: the tokens of C files, their headers, directives and items, trees of bodies, and listings.
#![tactic(auto)]

#[cfg(test)]
mod cut;
#[cfg(test)]
mod functions;
#[cfg(test)]
mod items;
#[cfg(test)]
mod macros;
#[cfg(test)]
mod tokens;
#[cfg(test)]
mod trees;
