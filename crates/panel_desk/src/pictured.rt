//! A station of which a panel shows a picture.

use crate::panel_line::PanelLine;
use std::alloc::{AllocError, Global};

/// A station of which a panel shows a picture.
pub trait Pictured {
    ghost use Rattle.std.specs.Prelude.{◌≡◌, IfOk, List};
    ghost use Rattle.panel_desk.specs.declared.panel_line.PanelLine.{PanelLine as Line};

    /// What is seen of it, a line each.
    ghost lines: { Self → List Line };

    /// Its picture. Of one station it has always as many lines.
    fn picture(&self, alloc: Global) -> Result<Vec<PanelLine>, AllocError>
        ensures { IfOk result (λ all. all.items ≡ lines self.now) };
}
