//! The scene of a drawing.

ghost use Rattle.std.specs.Prelude.{◌≡◌, ◌∷◌, IfOk};
ghost use Rattle.gh_ast.specs.Plain.{program_of};
ghost use Rattle.gh_trace.specs.Settings.{HasLoops, here, whole};
ghost use Rattle.gh_path.specs.Admitted.{IsAdmitted};
ghost use Rattle.gh_path.specs.Conditions.{IsOf};
ghost use Rattle.gh_path.specs.Kept.{condition_of, IsScoped};
ghost use Rattle.gh_scene.specs.Sketches as told;

use crate::rows::{left_at_end, push_rows, start_row};
use crate::spare::spare;
use gh_ast::typed::Typed;
use gh_draw::describe::describe;
use gh_draw::drawing::Drawing;
use gh_lens::story::last;
use gh_path::condition::Condition;
use gh_path::conditions::Conditions;
use gh_path::loops::loops_of;
use gh_picture::scene::Scene;
use gh_trace::replay::{ReplayError, replay};
use gh_trace::setting::{Setting, procedure_at};
use gh_trace::state::State;
use std::alloc::{AllocError, Global};

/// What is shown of a drawing: a scene where it is a counterexample; else the number of its first failure,
/// as `replay` answers it; or the program has no condition of its number.
#[derive(Debug, Drop)]
pub enum Sketch {
    Shown(Scene),
    Fails { number: u16 },
    Unnumbered,
}

// The scene of a first state and others for a condition of a procedure.
fn scene(
    alloc: Global,
    setting: Setting<'_>,
    condition: &Condition,
    states: &[State],
    first: &State,
    others: &[State],
) -> Result<Scene, AllocError>
    requires loops { HasLoops setting }
    requires scoped { IsScoped (whole setting) condition.now }
    requires own { IsOf (whole setting) (condition_of condition.now) (here setting) }
    requires parts { states.now ≡ first.now ∷ others.now }
    ensures { IfOk result (told.IsSceneFor (whole setting.entry) condition.now first.now others.now) }
{
    let title = describe(alloc, setting.typed, condition)?;
    let rest = spare(alloc, setting, &condition.check.kind, last(first, others))?;
    let left = left_at_end(alloc, others, &rest)?;
    let start = start_row(alloc, first, &left)?;
    let mut rows = Vec::new(alloc);
    rows.push(start)?;
    let steps = condition.steps.as_slice();
    push_rows(alloc, &mut rows, setting, steps, states, &rest)?;
    Ok(Scene { title, rows })
}

// The scene of a first state and others for a condition.
fn shown(
    alloc: Global,
    typed: &Typed,
    condition: &Condition,
    states: &[State],
    first: &State,
    others: &[State],
) -> Result<Scene, AllocError>
    requires scoped { IsScoped (program_of typed.now) condition.now }
    requires parts { states.now ≡ first.now ∷ others.now }
    ensures { IfOk result (told.IsSceneFor (program_of typed.now) condition.now first.now others.now) }
{
    let Some(procedure) = procedure_at(typed, condition.procedure) else {
        unreachable!();
    };
    let loops = loops_of(alloc, procedure)?;
    let setting = Setting {
        typed,
        procedure,
        loops: loops.as_slice(),
    };
    scene(alloc, setting, condition, states, first, others)
}

/// The scene of a drawing for a condition of an admitted program.
pub fn scene_of(
    alloc: Global,
    typed: &Typed,
    conditions: &Conditions,
    drawing: &Drawing,
) -> Result<Sketch, AllocError>
    requires same { program_of conditions.now ≡ program_of typed.now }
    requires admitted { IsAdmitted (program_of typed.now) }
    ensures { IfOk result (told.IsSketch (program_of typed.now) drawing.now.condition drawing.now.trace.states.items) }
{
    let Some(condition) = conditions.condition(alloc, drawing.condition)? else {
        return Ok(Sketch::Unnumbered);
    };
    let states = drawing.trace.states.as_slice();
    let Some((first, others)) = states.split_first() else {
        return Ok(Sketch::Fails { number: 0 });
    };
    match replay(alloc, typed, &condition, &drawing.trace) {
        Ok(()) => {
            let scene = shown(alloc, typed, &condition, states, first, others)?;
            Ok(Sketch::Shown(scene))
        }
        Err(ReplayError::Step { number }) => Ok(Sketch::Fails { number }),
        Err(ReplayError::OutOfMemory) => Err(AllocError),
    }
}
