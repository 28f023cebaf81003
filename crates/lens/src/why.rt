// `lens why`.

use crate::drawings::{Chosen, choose};
use crate::words::Choice;
use crate::{REFUSED, REFUTED, refused};
use anyhow::Error;
use gh_ast::typed::Typed;
use gh_lens::front::admitted;
use gh_lens::story::{Explained, why};
use std::alloc::Global;
use std::io::{self, Write};
use std::rt::Files;

/// `lens why FILE`: the story of the counterexample that is chosen, or why there is none.
pub(crate) fn explain<R: Print + Eprint + Files + Alloc<A = Global>>(
    rt: &R,
    file: &str,
    typed: &Typed,
    choice: Choice<'_>,
) -> Result<u8, Error> {
    let conditions = match admitted(rt.alloc(), typed) {
        Ok(conditions) => conditions,
        Err(error) => return refused(rt, file, &error),
    };
    let (drawing, name) = match choose(rt, typed, &conditions, file, choice)? {
        Chosen::Drawn { drawing, name } => (drawing, name),
        Chosen::Said(status) => return Ok(status),
    };
    match why(rt.alloc(), typed, &conditions, &drawing)? {
        Explained::Told(story) => {
            io::writer(rt).write_all(story.bytes())?;
            Ok(REFUTED)
        }
        Explained::Fails { number } => {
            eprintln!(rt; "{name}: no counterexample: step {number} fails")?;
            Ok(REFUSED)
        }
        Explained::Unnumbered => {
            eprintln!(rt; "{name}: no such condition")?;
            Ok(REFUSED)
        }
    }
}
