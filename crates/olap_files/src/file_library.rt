// The files of the system, as a library. It tells no content and no name, so no proof knows what a real file holds.
ghost use Rattle.std.specs.Prelude.{◌≡◌, None, false, is_some};
ghost use Rattle.olap_files.specs.Calls.{refused_calls};

use olap_outside::{Failed, Library, OpenError};
use std::fs;
use std::fs::Files;
use std::io::{ErrorKind, Read};

/// The files of the system. A name that isn't there is `Missing`; whatever else goes wrong is `Failed`, as opening a
/// file that may not be read, or reading a directory.
#[derive(Drop)]
pub struct FileLibrary<'a, R: Files> {
    rt: &'a R,
    file: Option<R::File>,
    taken: u64,
    faults: u64,
}

impl<'a, R: Files> FileLibrary<'a, R> {
    /// No file is open, and no call was refused.
    pub fn new(rt: &'a R) -> FileLibrary<'a, R>
        ensures quiet { refused_calls result ≡ 0 }
    {
        FileLibrary {
            rt,
            file: None,
            taken: 0,
            faults: 0,
        }
    }
}

impl<'a, R: Files> Library for FileLibrary<'a, R> {
    ghost contents = { λ _. None };

    ghost rest = { λ _. None };

    ghost asked = { λ _. None };

    ghost ready = { λ s. is_some s.file };

    ghost taken = { λ s. s.taken };

    ghost faults = { λ s. s.faults };

    ghost sure = { λ _. false };

    ghost told = { λ _ _ t. t };

    fn open_file(&mut self, name: &str) -> Result<(), OpenError> {
        self.taken = 0;
        match fs::open(self.rt, name) {
            Ok(file) => {
                self.file = Some(file);
                Ok(())
            }
            Err(e) => {
                self.file = None;
                self.faults = self.faults.saturating_add(1);
                if e.kind() == ErrorKind::NotFound {
                    Err(OpenError::Missing)
                } else {
                    Err(OpenError::Failed)
                }
            }
        }
    }

    fn read(&mut self, buf: &mut [u8]) -> Result<usize, Failed> {
        let Some(mut file) = self.file.take() else {
            unreachable!();
        };
        if let Ok(count) = file.read(buf) {
            if let Some(taken) = self.taken.checked_add(count as u64) {
                self.taken = taken;
                self.file = Some(file);
                return Ok(count);
            }
        }
        self.faults = self.faults.saturating_add(1);
        Err(Failed)
    }
}
