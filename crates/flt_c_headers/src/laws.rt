//! The law that tokens with their headers have one reading.

ghost use Rattle.flt_c_headers.specs.Laws as spec;

use crate::answer::HeaderFiles;

/// From the same spellings and headers a file's tokens have at most one reading with headers, or at most one excess, and never both, where
/// files give at most one thing for each name. It does nothing at run time: its clauses are the law.
pub fn links_at_most_one<I: HeaderFiles>()
    ensures linked { (inputs : I) → spec.GivesOne (I.gives inputs) → spec.LinksAtMostOne (I.gives inputs) }
    ensures refusal { (inputs : I) → spec.GivesOne (I.gives inputs) → spec.RefusesAtMostOne (I.gives inputs) }
    ensures either { (inputs : I) → spec.GivesOne (I.gives inputs) → spec.NeverBoth (I.gives inputs) }
{}
