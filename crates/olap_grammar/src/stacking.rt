// The stack of what is still open.
ghost use Rattle.std.specs.Prelude.{◌≡◌, ◌==◌, [], ◌∷◌, List, OnOk, MatchOption, cond, length};
ghost use Rattle.olap_grammar.specs.Machine as machine;
ghost use Rattle.olap_grammar.specs.Machine.{parted};
ghost use Rattle.olap_grammar.specs.Reader.{Built, frame_of};
ghost use Rattle.olap_grammar.specs.Frames.{frames};

use crate::Joint;
use crate::parts::Part;
use olap_base::Memory;
use std::alloc::Global;

/// What is still open: a `!`, a formula with a mark after it, a bracket, a list, a part of a list with its comma.
#[derive(Drop)]
pub(crate) enum Frame {
    Negation,
    Left(Joint, Part),
    Bracket,
    Listing,
    Part(Part),
}

impl Frame {
    /// Whether a part of a list may follow.
    fn takes_part(&self) -> bool
        ensures { (f : Built) (s : List (machine.Frame Built)) → parted f (frame_of self.now ∷ s)
            ≡ cond result (machine.State.Wants (machine.Frame.Part f ∷ frame_of self.now ∷ s)) machine.State.Bad }
    {
        matches!(self, Frame::Listing | Frame::Part(_))
    }
}

/// What is still open, the last on top. Contracts see it as the list `frames`, from its top.
#[derive(Drop)]
pub(crate) struct Stack {
    frames: Vec<Frame>,
}

impl Stack {
    /// Nothing is open.
    pub fn new(alloc: Global) -> Stack
        ensures { frames result ≡ [] }
    {
        Stack {
            frames: Vec::new(alloc),
        }
    }

    /// Whether nothing is open.
    pub fn is_empty(&self) -> bool
        ensures { result ≡ (length (frames self.now) == 0) }
    {
        self.frames.is_empty()
    }

    /// Whether a list or a part of one is on top, so that a part may follow.
    pub fn takes_part(&self) -> bool
        ensures { (f : Built) → parted f (frames self.now)
            ≡ cond result (machine.State.Wants (machine.Frame.Part f ∷ frames self.now)) machine.State.Bad }
    {
        match self.frames.last() {
            Some(frame) => frame.takes_part(),
            None => false,
        }
    }

    /// One more is open.
    pub fn push(&mut self, frame: Frame) -> Result<(), Memory>
        ensures { OnOk result (frames self.new ≡ frame_of frame ∷ frames self.old) }
    {
        self.frames.push(frame)?;
        Ok(())
    }

    /// Takes the last off, if there is one.
    pub fn pop(&mut self) -> Option<Frame>
        ensures { MatchOption result ((frames self.old ≡ []) × (frames self.new ≡ []))
            (λ frame. frames self.old ≡ frame_of frame ∷ frames self.new) }
    {
        self.frames.pop()
    }
}
