//! The files of the current folder that a plan can name.
ghost use Rattle.std.specs.Prelude.{◌≡◌, IfOk};
ghost use Rattle.std.specs.IoError.{error_kind};
ghost use Rattle.outside.specs.Folder.{AreNames};
ghost use Rattle.data_path.specs.declared.folder.FolderError.TheVariants.{NoMemory as RefusedMemory};
ghost use Rattle.data_path.specs.FolderFaults.{IsFolderFault};

use crate::names::in_order;
use outside::{Name, NoMemory};
use plan_words::is_file_name;
use std::alloc::{AllocError, AllocFailed};
use std::{fs, io};

/// The most files of a run from a folder.
const MOST_FILES: usize = 4095;

/// Why the files of a folder couldn't be listed.
#[derive(Clone, Copy, Debug, PartialEq, Eq)]
pub enum FolderError {
    /// The listing answered a fault.
    Fault,
    /// There are more than 4,095 files that a plan can name.
    TooMany,
    /// Memory was refused.
    NoMemory,
}

impl From<AllocError> for FolderError {
    ghost from_gives = { λ _ error. error ≡ RefusedMemory };

    fn from(_: AllocError) -> FolderError {
        FolderError::NoMemory
    }
}

impl From<NoMemory> for FolderError {
    ghost from_gives = { λ _ error. error ≡ RefusedMemory };

    fn from(_: NoMemory) -> FolderError {
        FolderError::NoMemory
    }
}

impl<T: Drop> From<AllocFailed<T>> for FolderError {
    ghost from_gives = { λ _ error. error ≡ RefusedMemory };

    fn from(_: AllocFailed<T>) -> FolderError {
        FolderError::NoMemory
    }
}

impl From<io::Error> for FolderError {
    ghost from_gives = { λ error folder. IsFolderFault (error_kind error) folder };

    fn from(error: io::Error) -> FolderError {
        if error.kind() == io::ErrorKind::OutOfMemory {
            FolderError::NoMemory
        } else {
            FolderError::Fault
        }
    }
}

/// The names of the current folder's files that a plan can name, sorted by their bytes, each once.
///
/// Refuses where the listing answers a fault, where there are more than 4,095 such names, and for want of
/// memory.
pub fn file_names(rt: HostRuntime) -> Result<Vec<Name>, FolderError>
    ensures { IfOk result (λ names. AreNames names.items) }
{
    let names = in_order(rt.alloc(), file_texts(rt)?)?;
    if names.len() > MOST_FILES {
        return Err(FolderError::TooMany);
    }
    Ok(names)
}

/// The names as texts, as the listing gives them.
fn file_texts(rt: HostRuntime) -> Result<Vec<String>, FolderError> {
    let alloc = rt.alloc();
    let mut texts = Vec::new(alloc);
    for entry in fs::read_dir(&rt, ".")? {
        let entry = entry?;
        let name = entry.file_name();
        if is_file_name(name.as_bytes()) && fs::metadata(&rt, name)?.is_file() {
            texts.push(String::from_str(alloc, name)?)?;
        }
    }
    Ok(texts)
}
