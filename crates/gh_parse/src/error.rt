//! Why a text isn't parsed.

ghost use Rattle.std.specs.Prelude.{◌≡◌};
ghost use Rattle.gh_parse.specs.declared.error.ParseError.TheVariants as parsing;
ghost use Rattle.gh_parse.specs.declared.error.ReadError.TheVariants as reading;

use gh_base::place::Span;
use std::alloc::{AllocError, AllocFailed};
use thiserror::Error;

/// Why a text isn't parsed.
#[derive(Debug, Drop, Error)]
pub enum ParseError {
    /// A byte outside comments isn't a character of the grammar. The offset counts from 0.
    #[error("byte {offset} is no character of the grammar")]
    Byte { offset: u32 },
    /// Too many brackets stand open.
    #[error("too many brackets are open")]
    Deep { span: Span },
    /// The text is no program, or no question. The place is that of the first token with which the
    /// tokens are no prefix of any program's, or any question's, the place where no token fits, or
    /// that after the last byte.
    #[error("syntax error")]
    Syntax { span: Span },
    #[error("out of memory")]
    OutOfMemory,
}

impl From<AllocError> for ParseError {
    ghost from_gives = { λ _ e. e ≡ parsing.OutOfMemory };

    fn from(_: AllocError) -> Self {
        ParseError::OutOfMemory
    }
}

/// Why a rule of the grammar isn't read.
#[derive(Debug, Drop, Error)]
pub(crate) enum ReadError {
    /// The next token doesn't fit, or the end doesn't.
    #[error("a token is unexpected")]
    Unexpected,
    #[error("out of memory")]
    OutOfMemory,
}

impl From<AllocError> for ReadError {
    ghost from_gives = { λ _ e. e ≡ reading.OutOfMemory };

    fn from(_: AllocError) -> Self {
        ReadError::OutOfMemory
    }
}

impl<T: Drop> From<AllocFailed<T>> for ReadError {
    ghost from_gives = { λ _ e. e ≡ reading.OutOfMemory };

    fn from(_: AllocFailed<T>) -> Self {
        ReadError::OutOfMemory
    }
}
