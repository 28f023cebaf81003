//! Why a text isn't read as a session.

ghost use Rattle.std.specs.Prelude.{◌≡◌};
ghost use Rattle.gh_session.specs.declared.error.SessionError.TheVariants.{OutOfMemory};

use std::alloc::{AllocError, AllocFailed};
use thiserror::Error;

/// Why a text isn't read as a session.
#[derive(Debug, Drop, Error)]
pub enum SessionError {
    /// The first line that begins with `%` and is no separator. Lines count from 1.
    #[error("line {line} is no separator")]
    Line { line: u32 },
    /// The separator after the most that there may be.
    #[error("too many separators at line {line}")]
    TooMany { line: u32 },
    #[error("out of memory")]
    OutOfMemory,
}

impl From<AllocError> for SessionError {
    ghost from_gives = { λ _ e. e ≡ OutOfMemory };

    fn from(_: AllocError) -> Self {
        SessionError::OutOfMemory
    }
}

impl<T: Drop> From<AllocFailed<T>> for SessionError {
    ghost from_gives = { λ _ e. e ≡ OutOfMemory };

    fn from(_: AllocFailed<T>) -> Self {
        SessionError::OutOfMemory
    }
}
