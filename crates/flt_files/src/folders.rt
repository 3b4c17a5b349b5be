//! The folders of a system: the names in them, and the kinds of paths.

ghost use Rattle.std.specs.Prelude.{IfNone, IfOk, IfSome, map};
ghost use Rattle.flt_files.specs.Folders.{Fact, Has, Lists, Unlisted};

use std::alloc::{AllocError, Global};

/// The kind of a path.
#[derive(Clone, Copy)]
pub enum PathKind {
    /// A regular file, or a link to one.
    File,
    /// A folder itself.
    Folder,
    /// A link to a folder.
    FolderLink,
    /// A pipe, a device or a socket, or a link to one.
    Stream,
    /// Nothing is there, or the system doesn't say what.
    Unknown,
}

/// Folders by their paths.
pub trait Folders {
    // It says this of them.
    ghost says: { Self → Fact → Type 0 };

    /// The names in the folder of a path, in any order; none if it can't be read.
    ///
    /// # Errors
    ///
    /// If memory is refused.
    fn names(&self, alloc: Global, path: &str) -> Result<Option<Vec<Vec<u8>>>, AllocError>
        ensures some { IfOk result (λ found. IfSome found (λ names. says self.now (Lists path.now (map (λ name. name.items) names.items)))) }
        ensures none { IfOk result (λ found. IfNone found (says self.now (Unlisted path.now))) };

    /// The kind of a path.
    fn kind(&self, path: &str) -> PathKind
        ensures { says self.now (Has path.now result) };
}
