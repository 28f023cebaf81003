// The counterexample that is told or drawn.

ghost use Rattle.std.specs.Prelude.{◌≡◌};
ghost use Rattle.gh_ast.specs.Plain.{program_of};
ghost use Rattle.gh_path.specs.Admitted.{IsAdmitted};

use crate::REFUSED;
use crate::words::Choice;
use anyhow::Error;
use gh_ast::typed::Typed;
use gh_draw::drawing::Drawing;
use gh_draw::reading::{MOST_DRAWN, read_drawing};
use gh_path::conditions::Conditions;
use gh_scene::sought::{Sought, named_first, smallest_of};
use std::alloc::Global;
use std::fs;
use std::rt::Files;

/// A drawing with the name by which messages speak of it, or the status of what was said in its place.
#[derive(Drop)]
pub(crate) enum Chosen<'a> {
    Drawn { drawing: Drawing, name: &'a str },
    Said(u8),
}

// A text up to its first line `end`, with that line. What `check` and `smallest` answer goes on with a log.
fn up_to_end(text: &[u8]) -> &[u8] {
    let Some(at) = text
        .windows(5)
        .position(|five| five == b"\nend\n".as_slice())
    else {
        return text;
    };
    text.get(..at.saturating_add(5)).unwrap_or(text)
}

// The drawing in a file; none where it isn't one for a condition of the program.
fn drawing_in<R: Files + Alloc<A = Global>>(
    rt: &R,
    typed: &Typed,
    conditions: &Conditions,
    file: &str,
) -> Result<Option<Drawing>, Error>
    requires { program_of conditions.now ≡ program_of typed.now }
{
    let text = fs::read(rt, file)?;
    let text = up_to_end(text.as_slice());
    if text.len() > MOST_DRAWN {
        return Ok(None);
    }
    let drawing = read_drawing(rt.alloc(), typed, conditions, text)?;
    Ok(drawing)
}

// The drawing in a file, or a message that it has none.
fn given<'a, R: Eprint + Files + Alloc<A = Global>>(
    rt: &R,
    typed: &Typed,
    conditions: &Conditions,
    file: &'a str,
) -> Result<Chosen<'a>, Error>
    requires { program_of conditions.now ≡ program_of typed.now }
{
    match drawing_in(rt, typed, conditions, file)? {
        Some(drawing) => Ok(Chosen::Drawn {
            drawing,
            name: file,
        }),
        None => {
            eprintln!(rt; "{file}: no drawing of a condition")?;
            Ok(Chosen::Said(REFUSED))
        }
    }
}

// The smallest counterexample of the condition of a number, or a message that there is none.
fn numbered<'a, R: Print + Eprint + Alloc<A = Global>>(
    rt: &R,
    typed: &Typed,
    conditions: &Conditions,
    file: &'a str,
    number: u32,
) -> Result<Chosen<'a>, Error>
    requires same { program_of conditions.now ≡ program_of typed.now }
    requires admitted { IsAdmitted (program_of typed.now) }
{
    match smallest_of(rt.alloc(), typed, conditions, number)? {
        Sought::Found(drawing) => Ok(Chosen::Drawn {
            drawing,
            name: file,
        }),
        Sought::Valid => {
            println!(rt; "condition {number} is valid")?;
            Ok(Chosen::Said(0))
        }
        Sought::Unnumbered => {
            let count = conditions.count();
            eprintln!(rt; "{file}: no condition {number} of {count}")?;
            Ok(Chosen::Said(REFUSED))
        }
    }
}

// The smallest counterexample of the condition that an overview names first, or a message that all are valid.
fn first<'a, R: Print + Eprint + Alloc<A = Global>>(
    rt: &R,
    typed: &Typed,
    conditions: &Conditions,
    file: &'a str,
) -> Result<Chosen<'a>, Error>
    requires same { program_of conditions.now ≡ program_of typed.now }
    requires admitted { IsAdmitted (program_of typed.now) }
{
    match named_first(rt.alloc(), typed, conditions)? {
        Some(number) => numbered(rt, typed, conditions, file, number),
        None => {
            println!(rt; "all conditions are valid")?;
            Ok(Chosen::Said(0))
        }
    }
}

/// The drawing of a choice.
pub(crate) fn choose<'a, R: Print + Eprint + Files + Alloc<A = Global>>(
    rt: &R,
    typed: &Typed,
    conditions: &Conditions,
    file: &'a str,
    choice: Choice<'a>,
) -> Result<Chosen<'a>, Error>
    requires same { program_of conditions.now ≡ program_of typed.now }
    requires admitted { IsAdmitted (program_of typed.now) }
{
    match choice {
        Choice::First => first(rt, typed, conditions, file),
        Choice::Number(number) => numbered(rt, typed, conditions, file, number),
        Choice::Drawing(name) => given(rt, typed, conditions, name),
    }
}
