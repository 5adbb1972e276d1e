// How often, and how lately, reasons had each variable.
use std::alloc::{AllocError, Global};

/// Activities are halved from here on.
const MOST_ACTIVITY: u64 = 1 << 40;

/// A number for each variable: the greater, the more of the latest reasons had it.
#[derive(Drop)]
pub(crate) struct Activities {
    values: Vec<u64>,
    step: u64,
}

/// The activity with one more step.
fn raised(activity: u64, step: u64) -> u64 {
    if activity < MOST_ACTIVITY && step < MOST_ACTIVITY {
        activity + step
    } else {
        MOST_ACTIVITY
    }
}

impl Activities {
    /// Those of no variables.
    pub(crate) fn new(alloc: Global) -> Activities {
        Activities {
            values: Vec::new(alloc),
            step: 1,
        }
    }

    /// Those of this many variables, before any reason.
    pub(crate) fn resize(&mut self, count: usize) -> Result<(), AllocError> {
        self.values.resize(count, 0)
    }

    /// That of a variable.
    pub(crate) fn of(&self, variable: usize) -> u64 {
        if variable < self.values.len() {
            self.values[variable]
        } else {
            0
        }
    }

    /// The variables of a reason become more active.
    pub(crate) fn raise(&mut self, reason: &[usize]) {
        'variables: for variable in reason {
            if *variable < self.values.len() {
                self.values[*variable] = raised(self.values[*variable], self.step);
            }
        }
        self.step = raised(self.step, self.step / 16);
        self.step = raised(self.step, 1);
        if self.step >= MOST_ACTIVITY / 256 {
            self.step = 1;
            'activities: for i in 0..self.values.len() {
                self.values[i] >>= 30;
            }
        }
    }
}
