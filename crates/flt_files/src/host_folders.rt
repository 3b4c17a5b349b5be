//! The folders of the system that the program runs on.

use crate::folders::{Folders, PathKind};
use std::alloc::{AllocError, Global};
use std::fs::{self, Files};
use std::io;
use std::io::Read;

/// The folders of the system that the program runs on.
#[derive(Drop)]
pub struct HostFolders<'a> {
    rt: &'a HostRuntime,
}

impl Folders for HostFolders<'_> {
    ghost use Rattle.flt_files.specs.Folders.{said_by_host};

    ghost says = { λ _. said_by_host };

    fn names(&self, alloc: Global, path: &str) -> Result<Option<Vec<Vec<u8>>>, AllocError> {
        match self.bytes_of_names(alloc, path) {
            Ok(bytes) => Ok(Some(each_name(alloc, bytes.as_slice())?)),
            Err(fault) if fault.kind() == io::ErrorKind::OutOfMemory => Err(AllocError),
            Err(_) => Ok(None),
        }
    }

    fn kind(&self, path: &str) -> PathKind {
        match fs::metadata(self.rt, path) {
            Ok(found) if found.is_file() => PathKind::File,
            Ok(found) if !found.is_dir() => PathKind::Stream,
            Ok(_) => self.kind_of_folder(path),
            Err(_) => PathKind::Unknown,
        }
    }
}

impl<'a> HostFolders<'a> {
    /// Those of the system of a runtime.
    pub fn new(rt: &'a HostRuntime) -> HostFolders<'a> {
        HostFolders { rt }
    }
}

impl HostFolders<'_> {
    /// The names in the folder of a path, with a byte 0 after each.
    fn bytes_of_names(&self, alloc: Global, path: &str) -> io::Result<Vec<u8>> {
        let mut folder = self.rt.open_dir(path)?;
        let mut names = Vec::new(alloc);
        // No name is longer.
        let mut buffer = [0u8; 4096];
        for _ in 0..u64::MAX {
            match folder.read(&mut buffer)? {
                0 => break,
                count => names.extend_from_slice(&buffer[..count])?,
            }
        }
        Ok(names)
    }

    /// Whether what leads to a folder under a path is the folder itself.
    fn kind_of_folder(&self, path: &str) -> PathKind {
        match fs::symlink_metadata(self.rt, path) {
            Ok(found) if found.is_dir() => PathKind::Folder,
            _ => PathKind::FolderLink,
        }
    }
}

/// Names that have a byte 0 after each.
fn each_name(alloc: Global, bytes: &[u8]) -> Result<Vec<Vec<u8>>, AllocError> {
    let mut names = Vec::new(alloc);
    for name in bytes.split(|byte| *byte == 0) {
        if !name.is_empty() {
            names.push(Vec::from_slice(alloc, name)?)?;
        }
    }
    Ok(names)
}
