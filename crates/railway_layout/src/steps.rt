//! One step for each entry of a list, up to the first fault.

ghost use Rattle.std.specs.Prelude.{map};
ghost use Rattle.toml.specs.View.{view};
ghost use Rattle.railway_layout.specs.Reading.{Gives, each_of};

use crate::fault::TextFault;
use std::alloc::Global;
use toml::Value;

/// A step that makes one value of one entry, or tells the fault of the entry.
pub(crate) trait Step {
    /// What is made.
    type To;

    ghost use Rattle.std.specs.Prelude.{ℕ, Result};
    ghost use Rattle.toml.specs.Data.{Data};
    ghost use Rattle.railway_layout.specs.declared.fault.TextFault.{TextFault};

    /// What is made of an entry with its number, or its fault.
    ghost gives: { Self → ℕ → Data → Result Self.To TextFault };

    /// Makes it.
    fn step(&self, alloc: Global, number: usize, from: &Value) -> Result<Self::To, TextFault>
        ensures { Gives (λ x. x) result (gives self.now number (view from.now)) };
}

/// What the step makes of each entry of a list, in order, or the first fault. Entries are counted from 1.
pub(crate) fn each<S: Step>(
    alloc: Global,
    step: &S,
    from: &[Value],
) -> Result<Vec<S::To>, TextFault>
where
    S::To: Drop,
    ensures { Gives (λ v. v.items) result (each_of (S.gives step.now) 1 (map view from.now)) }
{
    let mut made = Vec::new(alloc);
    for (before, entry) in from.iter().enumerate() {
        made.push(step.step(alloc, before + 1, entry)?)?;
    }
    Ok(made)
}
