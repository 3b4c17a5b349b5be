//! The law that the same files have one listing at most.

ghost use Rattle.flt_c_functions.specs.Laws as spec;
ghost use Rattle.flt_c_headers.specs.Laws.{GivesOne};

use flt_c_headers::{HeaderFiles, links_at_most_one};

/// With headers from the same folders, after the same lines of directives and under the same names, files have at most one listing, or at
/// most one of them is the first that isn't read, for one reason, and never both, if a name is given one thing at most. It does nothing at
/// run time: its clauses are the law.
pub fn lists_at_most_one<I: HeaderFiles>()
    ensures listing { (inputs : I) → GivesOne (I.gives inputs) → spec.ListsAtMostOne (I.gives inputs) }
    ensures refusal { (inputs : I) → GivesOne (I.gives inputs) → spec.RefusesAtMostOne (I.gives inputs) }
    ensures either { (inputs : I) → GivesOne (I.gives inputs) → spec.NeverBoth (I.gives inputs) }
{
    links_at_most_one::<I>();
}
