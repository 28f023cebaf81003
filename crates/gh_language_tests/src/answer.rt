//! How texts are answered, those of programs and those of questions.

use gh_parse::error::ParseError;
use std::alloc::AllocError;

// How a text is answered.
#[derive(Clone, Copy, PartialEq, Eq)]
pub(crate) enum Answer {
    Accepted,
    Byte(u32),
    Deep(u32, u32),
    Syntax(u32, u32),
}

// The answer to a text that is refused.
pub(crate) fn refused(error: ParseError) -> Result<Answer, AllocError> {
    match error {
        ParseError::Byte { offset } => Ok(Answer::Byte(offset)),
        ParseError::Deep { span } => Ok(Answer::Deep(span.line, span.col)),
        ParseError::Syntax { span } => Ok(Answer::Syntax(span.line, span.col)),
        ParseError::OutOfMemory => Err(AllocError),
    }
}
