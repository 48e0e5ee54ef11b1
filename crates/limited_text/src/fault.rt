//! Why there is no text.

ghost use Rattle.std.specs.Prelude.{◌≡◌};

use std::alloc::AllocError;
use std::io;
use thiserror::Error;

/// Why there is no text.
#[derive(Clone, Copy, Debug, PartialEq, Eq, Error)]
pub enum TextFault {
    /// There are more bytes than it may have.
    #[error("it is too long")]
    TooLong,
    #[error("it is not UTF-8")]
    NotUtf8,
    /// The system doesn't give its bytes.
    #[error("it can't be read")]
    Unreadable,
    #[error("out of memory")]
    OutOfMemory,
}

impl From<AllocError> for TextFault {
    ghost use Rattle.limited_text.specs.declared.fault.TextFault.TheVariants.{OutOfMemory};

    ghost from_gives = { λ _ fault. fault ≡ OutOfMemory };

    fn from(_error: AllocError) -> TextFault {
        TextFault::OutOfMemory
    }
}

impl From<io::Error> for TextFault {
    ghost use Rattle.std.specs.IoError.{error_kind};
    ghost use Rattle.limited_text.specs.Texts.{IsOfSystem};

    ghost from_gives = { λ error fault. IsOfSystem (error_kind error) fault };

    fn from(error: io::Error) -> TextFault {
        if error.kind() == io::ErrorKind::OutOfMemory {
            TextFault::OutOfMemory
        } else {
            TextFault::Unreadable
        }
    }
}
