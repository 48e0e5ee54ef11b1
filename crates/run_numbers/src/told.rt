//! Numbers as far as they were told.

ghost use Rattle.std.specs.Prelude.{◌≡◌, IfOk, None, length, replicate};
ghost use Rattle.run_numbers.specs.Metrics.{nothing_told, told, told_of};

use crate::row::Row;
use crate::rows::ROWS;
use std::alloc::{AllocError, Global};
use std::marker::Model;

/// Numbers as far as they were told, each at the place of its row.
#[derive(Debug)]
pub struct NumbersTold {
    values: Vec<Option<u64>>,
}

// Written by hand, so that it is proved and compiled here alone.
impl Drop for NumbersTold {
    fn drop(self) {
        let Self { values: _ } = self;
    }
}

impl Model for NumbersTold {
    ghost use Rattle.std.specs.Prelude.{ℕ, List, Option};

    ghost Value = { List (Option ℕ) };

    ghost view = { λ t. t.values.items };
}

impl NumbersTold {
    /// None was told.
    pub fn nothing(alloc: Global) -> Result<NumbersTold, AllocError>
        ensures { IfOk result (λ all. all ≡ nothing_told) }
    {
        Ok(NumbersTold {
            values: vec![in alloc; None; ROWS.len()]?,
        })
    }

    /// The same once more.
    pub fn copy(&self, alloc: Global) -> Result<NumbersTold, AllocError>
        ensures { IfOk result (λ all. all ≡ self.now) }
    {
        Ok(NumbersTold {
            values: Vec::from_slice(alloc, &self.values)?,
        })
    }

    /// None was told, as far as is known.
    pub fn forget(&mut self)
        ensures { self.new ≡ replicate (length self.old) None }
    {
        forget_all(&mut self.values);
    }

    /// The number of a row is told.
    pub fn tell(&mut self, row: Row, value: u64)
        ensures { self.new ≡ told row value self.old }
    {
        let place = row.place();
        if place < self.values.len() {
            self.values[place] = Some(value);
        }
    }

    /// The number of a row, if it was told.
    pub fn value(&self, row: Row) -> Option<u64>
        ensures { result ≡ told_of row self.now }
    {
        match self.values.as_slice().get(row.place()) {
            Some(value) => *value,
            None => None,
        }
    }
}

/// Puts nothing at each place.
fn forget_all(values: &mut [Option<u64>])
    ensures { values.new ≡ replicate (length values.old) None }
{
    for place in 0..values.len() {
        values[place] = None;
    }
}
