//! Why a text isn't read as a log, and why a part of a text isn't read.

ghost use Rattle.std.specs.Prelude.{◌≡◌};
ghost use Rattle.gh_log.specs.declared.error.LogError.TheVariants.{OutOfMemory};
ghost use Rattle.gh_log.specs.declared.error.Refusal.TheVariants.{OutOfMemory as NoMemory};
ghost use Rattle.gh_log.specs.Reading.{error_at};

use std::alloc::{AllocError, AllocFailed};
use thiserror::Error;

/// Why a text isn't read as a log.
#[derive(Debug, Drop, Error)]
pub enum LogError {
    /// The first line that is outside the grammar. Lines count from 1.
    #[error("line {line} is outside the grammar of logs")]
    Line { line: u32 },
    #[error("out of memory")]
    OutOfMemory,
}

impl From<AllocError> for LogError {
    ghost from_gives = { λ _ e. e ≡ OutOfMemory };

    fn from(_: AllocError) -> Self {
        LogError::OutOfMemory
    }
}

impl<T: Drop> From<AllocFailed<T>> for LogError {
    ghost from_gives = { λ _ e. e ≡ OutOfMemory };

    fn from(_: AllocFailed<T>) -> Self {
        LogError::OutOfMemory
    }
}

/// Why a part of a text isn't read.
#[derive(Debug, Drop, Error)]
pub enum Refusal {
    /// The part isn't next.
    #[error("the text goes on with something else")]
    Outside,
    #[error("out of memory")]
    OutOfMemory,
}

impl From<AllocError> for Refusal {
    ghost from_gives = { λ _ e. e ≡ NoMemory };

    fn from(_: AllocError) -> Self {
        Refusal::OutOfMemory
    }
}

impl<T: Drop> From<AllocFailed<T>> for Refusal {
    ghost from_gives = { λ _ e. e ≡ NoMemory };

    fn from(_: AllocFailed<T>) -> Self {
        Refusal::OutOfMemory
    }
}

impl Refusal {
    /// The error of a refusal in this line.
    pub(crate) fn at(self, line: u32) -> LogError
        ensures { result ≡ error_at self line }
    {
        match self {
            Refusal::Outside => LogError::Line { line },
            Refusal::OutOfMemory => LogError::OutOfMemory,
        }
    }
}
