//! Session files.

ghost use Rattle.std.specs.Prelude.{◌≡◌, ◌-◌, ◌<◌, ◌^◌, length, IfOk, IfErr};
ghost use Rattle.gh_session.specs.Lines.{IsSession, IsFirstBad};

use crate::edits::{Edit, Edits};
use crate::error::SessionError;
use crate::lines::{first_part, line_end};
use crate::separator::{Mark, mark_of};
use gh_base::text::Text;
use std::alloc::{AllocError, Global};

// A text of some bytes.
fn text_of(alloc: Global, bytes: &[u8]) -> Result<Text, AllocError>
    ensures { IfOk result (λ t. t ≡ bytes.now) }
{
    let mut text = Text::new(alloc);
    text.push(bytes)?;
    Ok(text)
}

/// The most separators of a session file.
pub const MOST_EDITS: usize = 256;

/// The pieces of a session file. A line that begins with `%` is `%% NAME`, which asks for an answer
/// after its piece, or `%+ NAME`, which doesn't. There are at most `MOST_EDITS` such lines.
pub fn read_session(alloc: Global, text: &[u8]) -> Result<Edits, SessionError>
    requires { length text.now < 2 ^ 32 - 1 }
    ensures read { IfOk result (IsSession text.now) }
    ensures refused { IfErr result (IsFirstBad text.now) }
{
    let first = first_part(text);
    let mut rest = first.rest;
    let mut number = first.lines;
    let mut edits = Vec::new(alloc);
    while !rest.is_empty() {
        number += 1;
        let (mark, after) = rest.split_at(line_end(rest));
        let Some(Mark { name, asks }) = mark_of(alloc, mark)? else {
            return Err(SessionError::Line { line: number });
        };
        if edits.as_slice().len() == MOST_EDITS {
            return Err(SessionError::TooMany { line: number });
        }
        let part = first_part(after);
        let text = text_of(alloc, part.text)?;
        edits.push(Edit { name, asks, text })?;
        number += part.lines;
        rest = part.rest;
    }
    let head = text_of(alloc, first.text)?;
    Ok(Edits { head, edits })
}
