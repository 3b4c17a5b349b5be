//! The files that names give: of a C file its annotations, with the file itself and the places of their lines beside them.

ghost use Rattle.std.specs.Prelude.{◌≡◌, ◌&&◌, ◌⊎◌, ◌++◌, ◌∷◌, ℕ, [], List, None, Some, IfOk, OnErr, OnOk, false, map, option_map, true};
ghost use Rattle.std.specs.List.{list_any};
ghost use Rattle.flt_commands_explain.specs.Annotated as spec;
ghost use Rattle.flt_files.specs.Inputs.{is_standard as is_standard_name};
ghost use Rattle.flt_joined.specs.Made.{IsOwn};
ghost use Rattle.flt_joined.specs.Texts.{AreAnnotations, given_of};

use flt_c::is_c_file;
use flt_files::{InputFault, Inputs, UnreadFile, is_standard};
use flt_joined::GivenFile;
use std::alloc::{AllocError, Global};

/// Whether a file is taken for C: by the ending of its name, or since all are.
fn is_taken_for_c(all: bool, name: &str) -> bool
    ensures { result ≡ spec.is_taken_for_c all name.now }
{
    all || is_c_file(name)
}

/// A C file of a name by its annotations, or why these make no text.
pub(crate) fn annotated<'a>(
    alloc: Global,
    name: &'a str,
    file: Vec<u8>,
) -> Result<Result<GivenFile<'a>, InputFault>, AllocError>
    ensures name { IfOk result (λ done. IfOk done (λ g. g.name.now ≡ name.now)) }
    ensures text { IfOk result (λ done. IfOk done (λ g. AreAnnotations file.items g.text.items)) }
    ensures code { IfOk result (λ done. IfOk done (λ g. option_map (λ code. code.items) g.code ≡ Some file.items)) }
    ensures own { IfOk result (λ done. IfOk done IsOwn) }
    ensures flawed { IfOk result (λ done. OnErr done (spec.AreFlawed file.items)) }
{
    match GivenFile::annotated(alloc, name, file)? {
        Ok(file) => Ok(Ok(file)),
        Err(flaw) => Ok(Err(InputFault::Flawed(flaw))),
    }
}

/// The file that a name gives, one that is taken for C by its annotations, or why it gives none.
#[tactic(auto, using(crate::proofs::FoundFiles::found_in_c, crate::proofs::FoundFiles::flawed))]
fn found_in<'a, I: Inputs>(
    alloc: Global,
    inputs: &I,
    all: bool,
    name: &'a str,
) -> Result<Result<GivenFile<'a>, InputFault>, AllocError>
    ensures name { IfOk result (λ done. IfOk done (λ g. g.name.now ≡ name.now)) }
    ensures found { IfOk result (λ done. IfOk done (λ g. spec.GivesFound all (I.gives inputs.now) (given_of g))) }
    ensures own { IfOk result (λ done. IfOk done IsOwn) }
    ensures missing { IfOk result (λ done. OnErr done (spec.gives_annotations all (I.gives inputs.now) name.now None)) }
{
    let Some(file) = inputs.read(alloc, name)? else {
        return Ok(Err(inputs.why(name)));
    };
    if is_taken_for_c(all, name) {
        return annotated(alloc, name, file);
    }
    Ok(Ok(GivenFile::plain(alloc, name, file)))
}

/// The file that one name gives after others, or why it gives none. The standard input gives its bytes once, and `is_used` says whether it
/// is among the others.
fn find_one<'a, I: Inputs>(
    alloc: Global,
    inputs: &I,
    all: bool,
    is_used: bool,
    name: &'a str,
) -> Result<Result<GivenFile<'a>, InputFault>, AllocError>
    ensures name { IfOk result (λ done. IfOk done (λ g. g.name.now ≡ name.now)) }
    ensures found { IfOk result (λ done. IfOk done (λ g. spec.GivesFound all (I.gives inputs.now) (given_of g))) }
    ensures own { IfOk result (λ done. IfOk done IsOwn) }
    ensures once { IfOk result (λ done. OnOk done (is_standard_name name.now && is_used ≡ false)) }
    ensures missing { IfOk result (λ done. OnErr done
        ((is_standard_name name.now && is_used ≡ true) ⊎ spec.gives_annotations all (I.gives inputs.now) name.now None)) }
{
    if is_used && is_standard(name) {
        return Ok(Err(InputFault::Again));
    }
    found_in(alloc, inputs, all, name)
}

/// Files that are read, and those that aren't.
#[derive(Drop)]
pub(crate) struct NamedFiles<'a> {
    pub(crate) read: Vec<GivenFile<'a>>,
    pub(crate) unread: Vec<UnreadFile>,
}

impl<'a> NamedFiles<'a> {
    /// Adds one name, with the file that it gives or why it gives none. `is_used` says whether the standard input is among those before it.
    fn add<I: Inputs>(
        &mut self,
        alloc: Global,
        inputs: &I,
        all: bool,
        is_used: bool,
        name: &'a str,
    ) -> Result<(), AllocError>
        ensures { (before : List (List ℕ)) → spec.AreFoundIn all (I.gives inputs.now) before self.old →
            is_used ≡ list_any is_standard_name before →
            OnOk result (spec.AreFoundIn all (I.gives inputs.now) (before ++ name.entry.now ∷ []) self.new) }
    {
        match find_one(alloc, inputs, all, is_used, name)? {
            Ok(file) => self.read.push(file)?,
            Err(why) => {
                let file = why.file(alloc, name)?;
                self.unread.push(file)?;
            }
        }
        Ok(())
    }
}

/// The file that each name gives, in order, or why it gives none. The standard input gives its bytes once.
pub(crate) fn find_each<'a, I: Inputs>(
    alloc: Global,
    inputs: &I,
    all: bool,
    names: &[&'a str],
) -> Result<NamedFiles<'a>, AllocError>
    ensures { IfOk result (spec.AreFoundIn all (I.gives inputs.now) (map (λ name. name.now) names.now)) }
{
    let mut found = NamedFiles {
        read: Vec::new(alloc),
        unread: Vec::new(alloc),
    };
    let mut is_used = false;
    for name in names {
        found.add(alloc, inputs, all, is_used, name)?;
        is_used = is_used || is_standard(name);
    }
    Ok(found)
}
