// Columns: a place for each variable that a parity speaks of.
ghost use Rattle.std.specs.Prelude.{◌≡◌, ℕ, Bool, false, IfSome};
ghost use Rattle.olap_parities.specs.Sums.{xor, sum_over};

use crate::rows::Row;
use std::alloc::{AllocError, Global};

/// The columns of variables, and the variables of columns.
#[derive(Drop)]
pub(crate) struct Columns {
    /// The column of each variable, or 0. A hint.
    columns: Vec<u32>,
    /// The variable of each column but column 0, which stands for what is true.
    variables: Vec<u32>,
}

impl Columns {
    ghost use Rattle.olap_parities.specs.Columns.{column_value, part_value, row_value};

    /// Room for this many variables, at most this many of which have a column.
    pub(crate) fn new(alloc: Global, variables: usize, room: usize) -> Result<Columns, AllocError> {
        Ok(Columns {
            columns: vec![in alloc; 0; variables]?,
            variables: Vec::with_capacity(alloc, room)?,
        })
    }

    /// How many variables have a column.
    pub(crate) fn len(&self) -> usize {
        self.variables.len()
    }

    /// Takes all columns away.
    pub(crate) fn clear(&mut self) {
        self.variables.clear();
        'columns: for column in self.columns.iter_mut() {
            *column = 0;
        }
    }

    /// Notes that these variables are to have a column.
    pub(crate) fn mark(&mut self, variables: &[u32]) {
        'variables: for x in variables {
            let x = *x as usize;
            if x < self.columns.len() {
                self.columns[x] = 1;
            }
        }
    }

    /// Gives the variables that were noted their columns, in order, while there is room.
    pub(crate) fn number(&mut self) {
        'columns: for x in 0..self.columns.len() {
            let place = self.variables.len();
            if self.columns[x] == 0 || x > u32::MAX as usize {
                continue;
            }
            self.columns[x] = 0;
            if place < self.variables.capacity() && place < u32::MAX as usize {
                let _ = self.variables.push(x as u32);
                self.columns[x] = place as u32 + 1;
            }
        }
    }

    /// The column of a variable, if it has one.
    pub(crate) fn column(&self, variable: u32) -> Option<usize>
        ensures { IfSome result (λ column. (v : ℕ → Bool) → column_value v self.now column ≡ v variable) }
    {
        let x = variable as usize;
        if x >= self.columns.len() {
            return None;
        }
        let column = self.columns[x] as usize;
        if self.variable(column) == Some(variable) {
            Some(column)
        } else {
            None
        }
    }

    /// The variable of a column, if there is one.
    pub(crate) fn variable(&self, column: usize) -> Option<u32>
        ensures { IfSome result (λ x. (v : ℕ → Bool) → column_value v self.now column ≡ v x) }
    {
        if column > 0 && column <= self.variables.len() {
            Some(self.variables[column - 1])
        } else {
            None
        }
    }

    /// Takes the first column out of a row that has one, and returns whose it is.
    pub(crate) fn take_out<const W: usize>(&self, row: &mut Row<W>) -> Option<u32>
        ensures { (v : ℕ → Bool) → row_value v self.now row.new
            ≡ xor (row_value v self.now row.old) (part_value v result) }
    {
        let column = row.first()?;
        let variable = self.variable(column)?;
        if row.flip(column) {
            Some(variable)
        } else {
            None
        }
    }

    /// The row of a parity, if each of its variables has a column.
    pub(crate) fn row<const W: usize>(&self, variables: &[u32], odd: bool) -> Option<Row<W>>
        ensures { IfSome result (λ row. (v : ℕ → Bool) → sum_over v variables.now ≡ odd
            → row_value v self.now row ≡ false) }
    {
        let mut row = Row::constant(odd)?;
        'variables: for k in 0..variables.len() {
            let column = self.column(variables[k])?;
            if !row.flip(column) {
                return None;
            }
        }
        Some(row)
    }
}
