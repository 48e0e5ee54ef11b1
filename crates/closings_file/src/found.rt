//! What is found in a file of closings.

ghost use Rattle.std.specs.Prelude.{◌≡◌};
ghost use Rattle.closings_file.specs.Files.{found_of};

use crate::fault::FileFault;
use closings::{AuxiliaryCounts, Closings, Layout};

/// What is closed when a process begins, how many auxiliary commands were counted before, and what is wrong with its file, if
/// anything is: all track is closed then, and none was counted.
#[derive(Clone, Copy, Debug)]
pub struct Found {
    pub closings: Closings,
    pub counts: AuxiliaryCounts,
    pub fault: Option<FileFault>,
}

/// What a whole file says.
#[derive(Clone, Copy)]
pub(crate) struct Said {
    pub(crate) counts: AuxiliaryCounts,
    pub(crate) closings: Closings,
}

/// What is found where a file says this.
pub(crate) fn found_of(layout: &Layout, said: Result<Said, FileFault>) -> Found
    ensures { result ≡ found_of layout.now said }
{
    match said {
        Ok(said) => Found {
            closings: said.closings,
            counts: said.counts,
            fault: None,
        },
        Err(fault) => Found {
            closings: Closings::all_track(layout),
            counts: AuxiliaryCounts::none(),
            fault: Some(fault),
        },
    }
}
