//! The deeds of a system: the changes to files that were requested, and their outcomes, one after the other.

ghost use Rattle.std.specs.Prelude.{◌≡◌, [], ◌∷◌, ◌++◌, List, IfOk, OnErr, OnOk, option_map, string_bytes};
ghost use Rattle.flt_files.specs.Deeds as spec;

use crate::system::Place;
use std::alloc::{AllocError, Global};

/// The end of a new file.
#[derive(Clone, Copy, Debug, PartialEq, Eq)]
pub enum Fate {
    /// It is there under its own name.
    Stays,
    /// It took the place of the file for which it was made.
    Replaces,
    /// It was removed.
    Removed,
}

/// A deed under a name.
#[derive(Clone, Copy, Debug, PartialEq, Eq)]
pub enum Act {
    /// It was looked at, and is this place; none if it must not be written.
    Looked(Option<Place>),
    /// The pipe or the device there was opened for bytes, or refused that.
    Opened,
    /// No new file was made: something is there, or the system refused.
    NotMade,
    /// A new file was made.
    Made(Fate),
}

/// A deed: a look at a name before it is written, or a change under it.
#[derive(Drop)]
pub struct Deed {
    /// The name under which it was done.
    pub name: String,
    /// The name of the file whose place a new file was made to take, if it was.
    pub target: Option<String>,
    pub act: Act,
}

/// A copy of a name.
fn copy_of(alloc: Global, name: Option<&str>) -> Result<Option<String>, AllocError>
    ensures { IfOk result (λ copy. option_map string_bytes copy ≡ option_map (λ name. name.now) name.entry) }
{
    match name {
        Some(name) => Ok(Some(String::from_str(alloc, name)?)),
        None => Ok(None),
    }
}

/// Deeds, one after the other.
#[derive(Drop)]
pub struct Deeds {
    pub each: Vec<Deed>,
}

impl Deeds {
    /// None yet.
    pub fn new(alloc: Global) -> Deeds
        ensures { spec.deeds_in result ≡ [] }
    {
        Deeds {
            each: Vec::new(alloc),
        }
    }

    /// Adds one.
    ///
    /// # Errors
    ///
    /// If memory is refused.
    pub fn add(
        &mut self,
        alloc: Global,
        name: &str,
        target: Option<&str>,
        act: Act,
    ) -> Result<(), AllocError>
        ensures added { OnOk result (spec.deeds_in self.new ≡ spec.deeds_in self.old
            ++ spec.deed name.now (option_map (λ name. name.now) target.entry) act ∷ []) }
        ensures refused { OnErr result (spec.deeds_in self.new ≡ spec.deeds_in self.old) }
    {
        let name = String::from_str(alloc, name)?;
        let target = copy_of(alloc, target)?;
        self.each.push(Deed { name, target, act })?;
        Ok(())
    }

    /// Gives the last one this outcome.
    pub fn settle(&mut self, act: Act)
        ensures { (before : List spec.Deed) (deed : spec.Deed) → spec.deeds_in self.old ≡ before ++ deed ∷ [] →
            spec.deeds_in self.new ≡ before ++ spec.deed deed.name deed.target act ∷ [] }
    {
        let count = self.each.len();
        if count != 0 {
            self.each[count - 1].act = act;
        }
    }
}
