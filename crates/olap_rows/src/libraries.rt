// A library whose files can be opened once each, in the order in which they are given.
ghost use Rattle.std.specs.Prelude.{◌≤◌, None, false, length};

use olap_outside::{Failed, Library, OpenError};

/// What a file holds.
#[derive(Clone, Copy)]
pub(crate) enum Content<'a> {
    /// This text.
    Text(&'a str),
    /// The byte `#` without end.
    Endless,
}

impl<'a> Content<'a> {
    /// Fills the buffer with what comes after this many bytes, and says how many these are.
    fn fill(self, taken: usize, buf: &mut [u8]) -> usize
        ensures within { result ≤ length buf.new }
    {
        match self {
            Content::Text(text) => {
                let bytes = text.as_bytes();
                let left = &bytes[taken.min(bytes.len())..];
                let count = left.len().min(buf.len());
                buf[..count].copy_from_slice(&left[..count]);
                count
            }
            Content::Endless => {
                buf.fill(b'#');
                buf.len()
            }
        }
    }
}

/// Files with their names. Only the first that wasn't opened yet can be opened: any other name is missing.
#[derive(Drop)]
pub(crate) struct Once<'a> {
    files: &'a [(&'a str, Content<'a>)],
    /// How many of them were opened.
    opened: usize,
    /// The last of these can be read.
    ready: bool,
    taken: usize,
    faults: u64,
}

impl<'a> Once<'a> {
    /// None of the files is opened yet.
    pub(crate) fn new(files: &'a [(&'a str, Content<'a>)]) -> Once<'a> {
        Once {
            files,
            opened: 0,
            ready: false,
            taken: 0,
            faults: 0,
        }
    }

    /// Whether each file was opened, and nothing was refused.
    pub(crate) fn is_used_up(&self) -> bool {
        self.opened == self.files.len() && self.faults == 0
    }
}

impl<'a> Library for Once<'a> {
    ghost contents = { λ _. None };

    ghost rest = { λ _. None };

    ghost asked = { λ _. None };

    ghost ready = { λ s. s.ready };

    ghost taken = { λ s. s.taken };

    ghost faults = { λ s. s.faults };

    ghost sure = { λ _. false };

    ghost told = { λ _ _ t. t };

    fn open_file(&mut self, name: &str) -> Result<(), OpenError> {
        self.taken = 0;
        let is_next = match self.files.get(self.opened) {
            Some(file) => file.0 == name,
            None => false,
        };
        self.ready = is_next;
        if !is_next {
            self.faults = self.faults.saturating_add(1);
            return Err(OpenError::Missing);
        }
        self.opened = self.opened.saturating_add(1);
        Ok(())
    }

    fn read(&mut self, buf: &mut [u8]) -> Result<usize, Failed> {
        let count = match self.files.get(self.opened.saturating_sub(1)) {
            Some(file) => file.1.fill(self.taken, buf),
            None => 0,
        };
        let Some(taken) = self.taken.checked_add(count) else {
            self.ready = false;
            self.faults = self.faults.saturating_add(1);
            return Err(Failed);
        };
        self.taken = taken;
        Ok(count)
    }
}
