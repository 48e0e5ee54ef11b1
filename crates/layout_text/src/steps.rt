//! One step for each entry of a list, up to the first fault.

ghost use Rattle.layout_text.specs.FirstFault.{Gives, each_of, all_of};

use crate::fault::{LayoutFault, Place, TableName};
use std::alloc::Global;

/// A step that makes one value of one entry, or tells the fault of the entry.
pub trait Step {
    /// What it is made of.
    type From;
    /// What is made.
    type To;

    ghost use Rattle.std.specs.Prelude.{Result};
    ghost use Rattle.layout_text.specs.declared.fault.LayoutFault.{LayoutFault};
    ghost use Rattle.layout_text.specs.declared.fault.Place.{Place};

    /// What is made of an entry at a place, or its fault.
    ghost gives: { Self → Place → Self.From → Result Self.To LayoutFault };

    /// Makes it.
    fn step(&self, alloc: Global, place: Place, from: &Self::From) -> Result<Self::To, LayoutFault>
        ensures { Gives (λ x. x) result (gives self.now place from.now) };
}

/// What the step makes of each entry of a table, in order, or the first fault.
pub fn each<S: Step>(
    alloc: Global,
    step: &S,
    table: TableName,
    from: &[S::From],
) -> Result<Vec<S::To>, LayoutFault>
where
    S::To: Drop,
    ensures { Gives (λ v. v.items) result (each_of (S.gives step.now) table 1 from.now) }
{
    let mut made = Vec::new(alloc);
    for (before, entry) in from.iter().enumerate() {
        let place = Place {
            table,
            entry: before + 1,
        };
        made.push(step.step(alloc, place, entry)?)?;
    }
    Ok(made)
}

/// What the step makes of each entry of a list, in order, or the first fault. All stand at one place.
pub fn all<S: Step>(
    alloc: Global,
    step: &S,
    place: Place,
    from: &[S::From],
) -> Result<Vec<S::To>, LayoutFault>
where
    S::To: Drop,
    ensures { Gives (λ v. v.items) result (all_of (S.gives step.now place) from.now) }
{
    let mut made = Vec::new(alloc);
    for entry in from {
        made.push(step.step(alloc, place, entry)?)?;
    }
    Ok(made)
}
