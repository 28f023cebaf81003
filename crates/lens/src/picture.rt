// `lens picture`.

use crate::drawings::{Chosen, choose};
use crate::words::Choice;
use crate::{REFUSED, REFUTED, refused};
use anyhow::Error;
use gh_ast::typed::Typed;
use gh_lens::front::admitted;
use gh_scene::pictured::{Pictured, picture_of};
use std::alloc::Global;
use std::io::{self, Write};
use std::rt::Files;

/// `lens picture FILE`: the picture of the counterexample that is chosen, or why there is none.
pub(crate) fn picture<R: Print + Eprint + Files + Alloc<A = Global>>(
    rt: &R,
    file: &str,
    typed: &Typed,
    choice: Choice<'_>,
) -> Result<u8, Error> {
    let conditions = match admitted(rt.alloc(), typed) {
        Ok(conditions) => conditions,
        Err(error) => return refused(rt, file, &error),
    };
    let (drawing, name) = match choose(rt, typed, &conditions, file, choice)? {
        Chosen::Drawn { drawing, name } => (drawing, name),
        Chosen::Said(status) => return Ok(status),
    };
    match picture_of(rt.alloc(), typed, &conditions, &drawing)? {
        Pictured::Drawn(text) => {
            io::writer(rt).write_all(text.bytes())?;
            Ok(REFUTED)
        }
        Pictured::Fails { number } => {
            eprintln!(rt; "{name}: no counterexample: step {number} fails")?;
            Ok(REFUSED)
        }
        Pictured::Unnumbered => {
            eprintln!(rt; "{name}: no such condition")?;
            Ok(REFUSED)
        }
    }
}
