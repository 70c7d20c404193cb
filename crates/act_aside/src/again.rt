//! Files that are read a second time.

use act_io::{Files, MemFiles, RealFiles};
use act_model::MOST_BYTES;
use std::alloc::Global;
use std::fs;
use std::io::ErrorKind;
use std::rt::Files as FileSystem;

/// Files that are read a second time.
pub trait Again {
    /// The bytes of a file, or None where it can't be read again.
    fn again(&mut self, alloc: Global, name: &str) -> Option<Vec<u8>>;

    /// Why a file can't be read, in words.
    fn cause(&self, name: &str) -> &'static str;
}

impl Again for MemFiles {
    fn again(&mut self, alloc: Global, name: &str) -> Option<Vec<u8>> {
        self.fetch(alloc, name, MOST_BYTES).ok()
    }

    fn cause(&self, _name: &str) -> &'static str {
        "there is no such file"
    }
}

/// The plain files of the system. A pipe isn't read again, which would wait for who writes to it.
#[derive(Drop)]
pub struct PlainFiles<'a, R: FileSystem> {
    rt: &'a R,
}

impl<'a, R: FileSystem> PlainFiles<'a, R> {
    /// Those of this system.
    pub fn new(rt: &'a R) -> PlainFiles<'a, R> {
        PlainFiles { rt }
    }
}

impl<R: FileSystem> Again for PlainFiles<'_, R> {
    fn again(&mut self, alloc: Global, name: &str) -> Option<Vec<u8>> {
        match fs::metadata(self.rt, name) {
            Ok(about) if about.is_file() => {
                let mut files = RealFiles::new(self.rt);
                files.fetch(alloc, name, MOST_BYTES).ok()
            }
            _ => None,
        }
    }

    fn cause(&self, name: &str) -> &'static str {
        match fs::metadata(self.rt, name) {
            Ok(about) if about.is_dir() => "this is a folder, and a file was wanted",
            Ok(_) => "the file can't be read: its rights don't let this user, or reading failed",
            Err(error) => match error.kind() {
                ErrorKind::NotFound => {
                    "there is no such file; names are taken from the folder where you stand"
                }
                ErrorKind::PermissionDenied =>
                    "the rights of its folder don't let this user see it",
                _ => "the system can't find it under this name",
            },
        }
    }
}
