// Small programs, checked whole.

use crate::program::program;
use gh_parse::error::ParseError;
use gh_types::check::{CheckError, check};
use std::alloc::Global;

// What a check finds: how many procedures there are, or the number and the place of the broken rule.
#[derive(Clone, Copy, PartialEq, Eq)]
enum Found {
    Typed(usize),
    Rule(u8, u32, u32),
    Other,
}

fn checked(alloc: Global, text: &[u8]) -> Result<Found, ParseError> {
    let program = program(alloc, text, b"", b"")?;
    match check(alloc, program) {
        Ok(typed) => Ok(Found::Typed(typed.program().procedures.len())),
        Err(CheckError::TypeError { number, span }) => Ok(Found::Rule(number, span.line, span.col)),
        Err(_) => Ok(Found::Other),
    }
}

const TEXTS: &[(&[u8], Found)] = &[
    (
        b"struct Node { var next: Node; }\nprocedure p() {\n}\n",
        Found::Typed(1),
    ),
    (
        b"struct Node { var next: Node; }\nprocedure p() {\n  free z;\n}\n",
        Found::Rule(1, 3, 8),
    ),
];

// The first text of which something else is found.
fn wrong_row(alloc: Global, rows: &[(&[u8], Found)]) -> Result<Option<usize>, ParseError> {
    for (number, (text, wanted)) in rows.iter().enumerate() {
        if checked(alloc, text)? != *wanted {
            return Ok(Some(number));
        }
    }
    Ok(None)
}

#[test]
fn checked_programs(rt: HostRuntime) -> Result<(), ParseError> {
    assert_eq!(rt; wrong_row(rt.alloc(), TEXTS)?, None);
    Ok(())
}
