// How far a trail needs no second look for what it forces. Nothing here is trusted.
use crate::trails::Trail;
use olap_pool::Lit;
use std::alloc::{AllocError, Global};

/// At which lengths of the trail all stood on it that the clauses force, the least first.
#[derive(Drop)]
pub(crate) struct Fixpoints {
    lengths: Vec<usize>,
}

impl Fixpoints {
    /// None, with room for trails over this many variables.
    pub(crate) fn new(alloc: Global, variables: u32) -> Result<Fixpoints, AllocError> {
        Ok(Fixpoints {
            lengths: Vec::with_capacity(alloc, variables as usize + 1)?,
        })
    }

    /// Whether there are none, so that not even clauses of one literal are known to stand.
    pub(crate) fn is_empty(&self) -> bool {
        self.lengths.is_empty()
    }

    /// All is forced at this length, if that was seen.
    pub(crate) fn note(&mut self, length: usize, was_seen: bool) {
        let is_new = self.lengths.last() != Some(&length);
        if was_seen && is_new && self.lengths.len() < self.lengths.capacity() {
            self.lengths.push(length).unwrap();
        }
    }

    /// Leaves those up to this length, and returns the last of them, or 0.
    pub(crate) fn cut(&mut self, length: usize) -> usize {
        match self.last_up_to(length) {
            Some(last) => last,
            None => 0,
        }
    }

    /// Leaves those up to this length, and returns the last of them.
    fn last_up_to(&mut self, length: usize) -> Option<usize> {
        'lengths: for _ in 0..self.lengths.len() {
            let last = self.lengths.pop()?;
            if last <= length {
                self.note(last, true);
                return Some(last);
            }
        }
        None
    }

    /// There are other clauses.
    pub(crate) fn forget(&mut self) {
        self.lengths.clear();
    }

    /// Another clause was added, whose literals are false and in the order of the trail. Keeps the lengths at which two
    /// or more of them were open.
    pub(crate) fn keep_before(&mut self, trail: &Trail, clause: &[Lit]) {
        if clause.len() < 2 {
            self.forget();
        } else {
            let _ = self.cut(trail.place(clause[clause.len() - 2].variable));
        }
    }
}
