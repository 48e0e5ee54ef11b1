//! The detection controllers of a layout.

ghost use Rattle.std.specs.Prelude.{◌≡◌, IfOk};

use crate::ids::SectionId;
use sci_telegram::Name;
use std::alloc::{AllocError, Global};
use std::marker::Model;

/// A detection controller.
#[derive(Debug, Drop)]
pub struct Detector {
    pub(crate) name: Name,
    pub(crate) id: u32,
    pub(crate) sections: Vec<SectionId>,
}

impl Model for Detector {
    ghost use Rattle.layout.specs.Entries.{DetectorEntry};

    ghost Value = { DetectorEntry };

    ghost view = { λ d. record { name = d.name; id = d.id; sections = d.sections.items } };
}

impl Detector {
    /// An equal one.
    pub(crate) fn copy(&self, alloc: Global) -> Result<Detector, AllocError>
        ensures { IfOk result (λ d. d ≡ self.now) }
    {
        let sections = Vec::from_slice(alloc, &self.sections)?;
        Ok(Detector {
            name: self.name,
            id: self.id,
            sections,
        })
    }

    /// Its name.
    pub fn name(&self) -> &Name
        ensures { result.now ≡ self.now.name }
    {
        &self.name
    }

    /// Its identity on its link, 1 to 4294967295.
    pub fn id(&self) -> u32
        ensures { result ≡ self.now.id }
    {
        self.id
    }

    /// The sections that it reports, in its own order.
    pub fn sections(&self) -> &[SectionId]
        ensures { result.now ≡ self.now.sections }
    {
        &self.sections
    }
}
