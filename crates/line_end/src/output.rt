//! What a step hands out.

ghost use Rattle.std.specs.Prelude.{◌≡◌, ◌≤◌, length};

use crate::kept::Kept;
use arrayvec::ArrayVec;
use line_laws::Item;
use std::marker::Model;

/// What a step hands out, in this order: first the file is to be written, if it has changed, and then the items are to
/// be given to the link, oldest first. Nothing of it, and no report to the station, leaves before the file is on disk.
#[derive(Drop)]
pub struct Output {
    pub(crate) written: Option<Kept>,
    pub(crate) items: ArrayVec<Item, 5>,
}

impl Model for Output {
    ghost use Rattle.line_end.specs.State.{StepOutput};

    ghost Value = { StepOutput };

    ghost view = { λ output. record { written = output.written; items = output.items.items } };
}

impl Output {
    /// What is to be written to the file, if it has changed.
    pub fn written(&self) -> Option<Kept>
        ensures { result ≡ self.now.written }
    {
        self.written
    }

    /// What is to be given to the link then.
    pub fn items(&self) -> &[Item]
        ensures items { result.now ≡ self.now.items }
        ensures few { length result.now ≤ 5 }
    {
        self.items.as_slice()
    }
}
