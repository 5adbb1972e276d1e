// What a search takes. Nothing here is trusted.

/// What searching took so far. No contract speaks of it.
#[derive(Clone, Copy, PartialEq, Eq)]
pub struct Effort {
    /// Conflicts, from which something was learned or not.
    pub conflicts: u64,
    /// Literals of what was learned from them, together.
    pub literals: u64,
}

impl Effort {
    /// No effort.
    pub(crate) const NONE: Effort = Effort {
        conflicts: 0,
        literals: 0,
    };

    /// With one more conflict, from which this many literals were learned.
    pub(crate) fn with_conflict(self, literals: usize) -> Effort {
        Effort {
            conflicts: self.conflicts.saturating_add(1),
            literals: self.literals.saturating_add(literals as u64),
        }
    }

    /// What was taken after this much work.
    pub(crate) fn since(self, before: Effort) -> Effort {
        Effort {
            conflicts: self.conflicts.saturating_sub(before.conflicts),
            literals: self.literals.saturating_sub(before.literals),
        }
    }

    /// This and that.
    pub(crate) fn and(self, other: Effort) -> Effort {
        Effort {
            conflicts: self.conflicts.saturating_add(other.conflicts),
            literals: self.literals.saturating_add(other.literals),
        }
    }

    /// Half of this, and that.
    pub(crate) fn halved_with(self, other: Effort) -> Effort {
        Effort {
            conflicts: (self.conflicts / 2).saturating_add(other.conflicts),
            literals: (self.literals / 2).saturating_add(other.literals),
        }
    }

    /// How many literals a conflict gave, in sixteenths. With no conflict, more than any.
    pub(crate) fn literals_each(self) -> u64 {
        match self.literals.saturating_mul(16).checked_div(self.conflicts) {
            Some(each) => each,
            None => u64::MAX,
        }
    }
}
