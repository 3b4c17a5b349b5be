//! The files that commands read and write: what a system gives under a name and keeps under one, over systems of any kind and over the one
//! that the program runs on, and why a file isn't read or written.
#![tactic(auto)]

mod contents;
mod deeds;
mod failure;
mod flaws;
mod folders;
mod host_folders;
mod host_system;
mod inputs;
mod kept;
mod named;
mod pieces;
mod split;
mod system;
mod texts;
mod unread;
mod unwritten;
mod written;

pub use contents::Contents;
pub use deeds::{Act, Deed, Deeds, Fate};
pub use failure::Failure;
pub use flaws::{FilePlace, flaw_line};
pub use folders::{Folders, PathKind};
pub use host_folders::HostFolders;
pub use host_system::{BarredFile, BoundedFile, CountedReader, HostSystem};
pub use inputs::{
    Inputs, MAX_INPUT, Pictures, ReadFiles, is_standard, read_all, read_each, read_pieces_within,
    read_text_within, read_with_journal, read_within,
};
pub use kept::kept_texts_are_told_as_whole;
pub use named::SystemFiles;
pub use pieces::{PieceReader, Pieces};
pub use split::certificate_start;
pub use system::{Place, Reader, System};
pub use texts::Texts;
pub use unread::{InputFault, UnreadFile, status_beside};
pub use unwritten::{OutputFault, unwritten_line, unwritten_lines};
pub use written::WrittenFiles;
