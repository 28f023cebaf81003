// The smallest counterexample of a condition, told and drawn.

ghost use Rattle.std.specs.Prelude.{◌≡◌, IfOk};
ghost use Rattle.gh_ast.specs.Plain.{program_of};
ghost use Rattle.gh_path.specs.Admitted.{IsAdmitted};
ghost use Rattle.gh_scene.specs.Sought.{IsSmallestOf};
ghost use Rattle.gh_page.specs.Telling.{IsToldAbout, IsToldIn, IsToldAndDrawn};

use crate::front::refused;
use crate::reply::Reply;
use gh_ast::typed::Typed;
use gh_base::text::Text;
use gh_draw::drawing::Drawing;
use gh_lens::front::{admitted, read_program};
use gh_lens::story::{Explained, why};
use gh_path::conditions::Conditions;
use gh_scene::pictured::{Pictured, picture_of};
use gh_scene::sought::{Sought, smallest_of};
use gh_top::status::Status;
use std::alloc::{AllocError, Global};

// A smallest counterexample, told and drawn.
fn told_and_drawn(
    alloc: Global,
    typed: &Typed,
    conditions: &Conditions,
    number: u32,
    drawing: &Drawing,
) -> Result<Text, AllocError>
    requires same { program_of conditions.now ≡ program_of typed.now }
    requires admitted { IsAdmitted (program_of typed.now) }
    requires smallest { IsSmallestOf (program_of typed.now) number drawing.now }
    ensures { IfOk result (IsToldAndDrawn (program_of typed.now) number) }
{
    let Explained::Told(mut text) = why(alloc, typed, conditions, drawing)? else {
        unreachable!();
    };
    let Pictured::Drawn(picture) = picture_of(alloc, typed, conditions, drawing)? else {
        unreachable!();
    };
    text.push(picture.bytes())?;
    Ok(text)
}

// What is replied about the condition of a number.
fn shown_of(
    alloc: Global,
    typed: &Typed,
    conditions: &Conditions,
    number: u32,
) -> Result<Reply, AllocError>
    requires same { program_of conditions.now ≡ program_of typed.now }
    requires admitted { IsAdmitted (program_of typed.now) }
    ensures { IfOk result (IsToldIn (program_of typed.now) number) }
{
    match smallest_of(alloc, typed, conditions, number)? {
        Sought::Found(drawing) => {
            let text = told_and_drawn(alloc, typed, conditions, number, &drawing)?;
            Ok(Reply::about(Status::Refuted, text))
        }
        Sought::Valid => Ok(Reply::about(Status::Verified, Text::new(alloc))),
        Sought::Unnumbered => Ok(Reply::about(Status::LogRefused, Text::new(alloc))),
    }
}

/// The smallest counterexample of the condition of a number in the program of a text, told and drawn; or that the
/// condition is valid, or isn't there; or why the text is refused.
pub(crate) fn shown(alloc: Global, text: &[u8], number: u32) -> Result<Reply, AllocError>
    ensures { IfOk result (IsToldAbout text.now number) }
{
    let typed = match read_program(alloc, text) {
        Ok(typed) => typed,
        Err(error) => return refused(alloc, &error),
    };
    let conditions = match admitted(alloc, &typed) {
        Ok(conditions) => conditions,
        Err(error) => return refused(alloc, &error),
    };
    shown_of(alloc, &typed, &conditions, number)
}
