//! Why a command isn't carried out.

ghost use Rattle.std.specs.Prelude.{◌≡◌};
ghost use Rattle.station_command.specs.Failures.{status_of};

use run_files::PartsFault;
use thiserror::Error;

/// Why a command isn't carried out.
#[derive(Debug, Drop, Error)]
pub enum Failure {
    #[error("argument {0} is not UTF-8")]
    Word(usize),
    #[error("standard input can be read for one file alone")]
    SecondInput,
    #[error("a size of the record's parts needs a record")]
    NoRecord,
    #[error("--complete and --digest are for the layout of one station, and this is a railway")]
    Railway,
    #[error("cannot read {0}")]
    File(String),
    #[error("the file {0}, which is to end the run, is there already")]
    StopFile(String),
    #[error("the file {0} of the record is there already")]
    PartThere(String),
    #[error("{0}")]
    Parts(PartsFault),
    #[error("out of memory")]
    OutOfMemory,
}

impl Failure {
    /// The status to end with: 2 where the command line is wrong.
    pub fn status(&self) -> u8
        ensures { result ≡ status_of self.now }
    {
        match self {
            Failure::Word(_) | Failure::SecondInput | Failure::NoRecord | Failure::Railway => 2,
            _ => 1,
        }
    }
}
