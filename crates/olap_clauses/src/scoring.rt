// How much each variable had to do with recent conflicts. Nothing here is trusted.
use crate::ordering::{Decay, Order, Round, Sign};
use crate::trails::Trail;
use olap_pool::Lit;
use std::alloc::{AllocError, Global};

/// What is added to a score at first.
const FIRST: u32 = 64;

/// What is added at most before all scores are made smaller.
const MOST: u32 = 1 << 28;

/// A score for each variable. The amount that is added grows, so that late conflicts count more.
#[derive(Drop)]
pub(crate) struct Scores {
    scores: Vec<u32>,
    bump: u32,
    shown: bool,
    free: bool,
    sign: Sign,
    decay: Decay,
}

impl Scores {
    /// A score of 0 for each of this many variables.
    pub(crate) fn new(alloc: Global, variables: u32) -> Result<Scores, AllocError> {
        Ok(Scores {
            scores: vec![in alloc; 0; variables as usize]?,
            bump: FIRST,
            shown: false,
            free: false,
            sign: Sign::False,
            decay: Decay::Quick,
        })
    }

    /// From now on this is the plan: whether the judge is shown the scores, whether they are followed before it is
    /// asked, by which sign, and how quickly earlier conflicts come to count less.
    pub(crate) fn show(&mut self, plan: Round) {
        self.shown = plan.order == Order::Shown;
        self.free = plan.order == Order::Free;
        self.sign = plan.sign;
        self.decay = plan.decay;
    }

    /// The scores, or none.
    pub(crate) fn shown(&self) -> &[u32] {
        if self.shown { &self.scores } else { &[] }
    }

    /// The scores, if they are followed before the judge is asked, or none.
    pub(crate) fn free(&self) -> &[u32] {
        if self.free { &self.scores } else { &[] }
    }

    /// The sign with which a variable is decided where the judge isn't asked.
    pub(crate) fn sign(&self, trail: &Trail, variable: u32) -> bool {
        self.sign == Sign::Last && trail.last_sign(variable)
    }

    /// A conflict more: what is added from now on counts more.
    pub(crate) fn age(&mut self) {
        let more = match self.decay {
            Decay::Quick => self.bump / 8,
            Decay::Slow => self.bump / 19,
        };
        self.bump = self.bump.saturating_add(more);
        if self.bump > MOST {
            'scores: for score in self.scores.iter_mut() {
                *score >>= 16;
            }
            self.bump >>= 16;
        }
    }

    /// Raises the score of a variable, and the next one a little more: else all variables of one conflict would have
    /// the same score, and the one that a judge looks at first would always be taken.
    pub(crate) fn raise(&mut self, variable: usize) {
        if variable < self.scores.len() {
            self.scores[variable] = self.scores[variable].saturating_add(self.bump);
            self.bump = self.bump.saturating_add(1);
        }
    }

    /// Raises the scores of a clause's variables.
    pub(crate) fn raise_all(&mut self, clause: &[Lit]) {
        'lits: for lit in clause {
            self.raise(lit.variable as usize);
        }
    }
}
