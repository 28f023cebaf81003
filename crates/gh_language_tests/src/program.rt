//! Programs that are read from parts of a text.

ghost use Rattle.std.specs.Prelude.{IfOk};
ghost use Rattle.gh_ast.specs.Plain.{program_of};
ghost use Rattle.gh_ast.specs.WellFormed.{IsWellFormed};

use gh_ast::Program;
use gh_parse::error::ParseError;
use gh_parse::parse::parse;
use std::alloc::Global;

// The program of a part between two others.
pub(crate) fn program(
    alloc: Global,
    before: &[u8],
    part: &[u8],
    after: &[u8],
) -> Result<Program, ParseError>
    ensures { IfOk result (λ p. IsWellFormed (program_of p)) }
{
    let mut text = Vec::from_slice(alloc, before)?;
    text.extend_from_slice(part)?;
    text.extend_from_slice(after)?;
    if text.len() >= 2_000 {
        return Err(ParseError::OutOfMemory);
    }
    parse(alloc, text.as_slice())
}
