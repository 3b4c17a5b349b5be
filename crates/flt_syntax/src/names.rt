//! Names that a text declares, by number.

ghost use Rattle.flt_tree.specs.Names as spec;
ghost use Rattle.std.specs.List.{IsDistinct};
ghost use Rattle.std.specs.Prelude.{◌≡◌, [], ◌∷◌, ◌++◌, if◌then◌else◌, not, position, IfOk};
ghost use Rattle.std.specs.Str.{bytes_eq};

use indexmap::IndexSet;
use std::alloc::{AllocError, Global};
use std::marker::Model;

/// Names of a text, in order of declaration and no two of them equal. Each has the number of those before it.
#[derive(Drop)]
pub struct Names<'a> {
    set: IndexSet<&'a [u8]>,
}

impl<'a> Model for Names<'a> {
    ghost use Rattle.std.specs.Prelude.{List, map};
    ghost use Rattle.flt_tree.specs.Names.{Text};

    ghost Value = { List Text };

    ghost view = { λ names. map (λ name. name.now) names.set.keys };
}

impl<'a> Names<'a> {
    pub fn new(alloc: Global) -> Names<'a>
        ensures { result ≡ [] }
    {
        Names {
            set: IndexSet::new(alloc),
        }
    }

    /// The number of a name.
    pub fn number(&self, name: &[u8]) -> Option<usize>
        ensures number { result ≡ position (bytes_eq name.now) self.now }
        ensures once { IsDistinct bytes_eq self.now }
    {
        let _count = self.set.len();
        self.set.get_index_of(name)
    }

    /// Adds a name, unless it is there, and says whether it was new.
    pub fn add(&mut self, name: &'a [u8]) -> Result<bool, AllocError>
        ensures new { IfOk result (λ is_new. is_new ≡ not (spec.has_name name.now self.old)) }
        ensures names { IfOk result (λ is_new. self.new ≡ (if is_new then self.old ++ name.now ∷ [] else self.old)) }
    {
        match self.set.insert_full(name) {
            Ok((_, is_new)) => Ok(is_new),
            Err(_) => Err(AllocError),
        }
    }
}
