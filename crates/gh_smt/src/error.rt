//! Why there is no script.

ghost use Rattle.std.specs.Prelude.{◌≡◌};
ghost use Rattle.gh_smt.specs.declared.error.ScriptError.TheVariants.{OutOfMemory};

use std::alloc::{AllocError, AllocFailed};
use thiserror::Error;

/// Why there is no script of a condition.
#[derive(Debug, Drop, Error)]
pub enum ScriptError {
    /// It would have so many assertions, more than 2,000,000.
    #[error("a script of {count} assertions is too long")]
    TooLong { count: u64 },
    #[error("out of memory")]
    OutOfMemory,
}

impl From<AllocError> for ScriptError {
    ghost from_gives = { λ _ e. e ≡ OutOfMemory };

    fn from(_: AllocError) -> Self {
        ScriptError::OutOfMemory
    }
}

impl<T: Drop> From<AllocFailed<T>> for ScriptError {
    ghost from_gives = { λ _ e. e ≡ OutOfMemory };

    fn from(_: AllocFailed<T>) -> Self {
        ScriptError::OutOfMemory
    }
}
