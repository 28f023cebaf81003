//! The picture of a drawing.

ghost use Rattle.std.specs.Prelude.{◌≡◌, IfOk};
ghost use Rattle.gh_ast.specs.Plain.{program_of};
ghost use Rattle.gh_path.specs.Admitted.{IsAdmitted};
ghost use Rattle.gh_scene.specs.Picturing.{IsPictured};

use crate::sketch::{Sketch, scene_of};
use gh_ast::typed::Typed;
use gh_base::text::Text;
use gh_draw::drawing::Drawing;
use gh_path::conditions::Conditions;
use gh_picture::picture::picture;
use std::alloc::{AllocError, Global};

/// The text of a picture where a drawing is a counterexample; else the number of its first failure, as
/// `replay` answers it; or the program has no condition of its number.
#[derive(Debug, Drop)]
pub enum Pictured {
    Drawn(Text),
    Fails { number: u16 },
    Unnumbered,
}

/// The picture of a drawing for a condition of an admitted program: one SVG element with a row for each
/// state.
pub fn picture_of(
    alloc: Global,
    typed: &Typed,
    conditions: &Conditions,
    drawing: &Drawing,
) -> Result<Pictured, AllocError>
    requires same { program_of conditions.now ≡ program_of typed.now }
    requires admitted { IsAdmitted (program_of typed.now) }
    ensures { IfOk result (IsPictured (program_of typed.now) drawing.now.condition drawing.now.trace.states.items) }
{
    match scene_of(alloc, typed, conditions, drawing)? {
        Sketch::Shown(scene) => {
            let text = picture(alloc, &scene)?;
            Ok(Pictured::Drawn(text))
        }
        Sketch::Fails { number } => Ok(Pictured::Fails { number }),
        Sketch::Unnumbered => Ok(Pictured::Unnumbered),
    }
}
