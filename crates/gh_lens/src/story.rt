//! A counterexample, told step by step.

ghost use Rattle.std.specs.Prelude.{◌≡◌, ◌++◌, map, All, IfOk, OnOk};
ghost use Rattle.gh_ast.specs.Plain.{program_of};
ghost use Rattle.gh_path.specs.Admitted.{IsAdmitted};
ghost use Rattle.gh_trace.specs.Settings.{HasLoops, here, whole};
ghost use Rattle.gh_path.specs.Conditions.{IsOf, StepIsThere};
ghost use Rattle.gh_path.specs.Kept.{condition_of, step_of, IsScoped};
ghost use Rattle.gh_trace.specs.Kept.{drawn, state_of};
ghost use Rattle.gh_trace.specs.Replay.{IsDrawnCounterexample};
ghost use Rattle.gh_trace.specs.Traces.{last_state};
ghost use Rattle.gh_lens.specs.Stories as told;

use crate::exchange::Exchange;
use crate::handed::handed;
use crate::lines::{push_changes, push_exchange};
use crate::misses::failing;
use crate::statement::{push_line, push_step, step_place};
use gh_ast::typed::Typed;
use gh_base::text::Text;
use gh_draw::describe::describe;
use gh_draw::drawing::{Drawing, state_lines};
use gh_path::condition::{Condition, PathStep};
use gh_path::conditions::Conditions;
use gh_path::loops::loops_of;
use gh_trace::replay::{ReplayError, replay};
use gh_trace::setting::{Setting, procedure_at};
use gh_trace::state::State;
use std::alloc::{AllocError, Global};

/// What is told of a drawing: a story where it is a counterexample; else the number of its first failure,
/// as `replay` answers it; or the program has no condition of its number.
#[derive(Debug, Drop)]
pub enum Explained {
    Told(Text),
    Fails { number: u16 },
    Unnumbered,
}

// The line of a statement.
fn statement(alloc: Global, setting: Setting<'_>, step: &PathStep) -> Result<Text, AllocError>
    requires { HasLoops setting }
    ensures { IfOk result (told.TellsStatement (whole setting.entry) (here setting.entry) step.now) }
{
    let mut text = Text::new(alloc);
    push_line(alloc, &mut text, step_place(setting.loops, step))?;
    push_step(&mut text, setting.typed.program(), step)?;
    text.push(b"\n")?;
    Ok(text)
}

// Adds what is handed over, if something is.
fn push_handed(
    alloc: Global,
    text: &mut Text,
    exchange: &Option<Exchange>,
) -> Result<(), AllocError>
    ensures { OnOk result (text.new ≡ text.old ++ told.handed_text exchange.now) }
{
    match exchange {
        Some(exchange) => push_exchange(alloc, text, exchange),
        None => Ok(()),
    }
}

// One step: the statement, what changes, and what is handed over.
fn step_told(
    alloc: Global,
    setting: Setting<'_>,
    step: &PathStep,
    before: &State,
    after: &State,
) -> Result<Text, AllocError>
    requires loops { HasLoops setting }
    requires there { StepIsThere (whole setting) (here setting) (step_of step.now) }
    ensures { IfOk result (told.TellsStep (whole setting.entry) (here setting.entry) step.now before.now after.now) }
{
    let mut text = statement(alloc, setting, step)?;
    push_changes(alloc, &mut text, before, after)?;
    let exchange = handed(alloc, setting, step, before, after)?;
    push_handed(alloc, &mut text, &exchange)?;
    Ok(text)
}

// The steps in turn, as far as there are states.
fn steps_told(
    alloc: Global,
    setting: Setting<'_>,
    steps: &[PathStep],
    before: &State,
    others: &[State],
) -> Result<Text, AllocError>
    requires loops { HasLoops setting }
    requires there { All (StepIsThere (whole setting) (here setting)) (map step_of steps.now) }
    ensures { IfOk result (told.TellsSteps (whole setting.entry) (here setting.entry) steps.now before.now others.now) }
{
    let Some((step, later)) = steps.split_first() else {
        return Ok(Text::new(alloc));
    };
    let Some((after, rest)) = others.split_first() else {
        return Ok(Text::new(alloc));
    };
    let mut text = step_told(alloc, setting, step, before, after)?;
    let more = steps_told(alloc, setting, later, after, rest)?;
    text.push(more.bytes())?;
    Ok(text)
}

/// A state with the values and the cells of the last of some states.
pub fn last<'s>(first: &'s State, others: &'s [State]) -> &'s State
    ensures { state_of result.now ≡ last_state (state_of first.now) (map state_of others.now) }
{
    let mut last = first;
    for other in others {
        last = other;
    }
    last
}

// The lines before the steps: the condition and the first state.
fn heading(
    alloc: Global,
    typed: &Typed,
    condition: &Condition,
    first: &State,
) -> Result<Text, AllocError>
    requires { IsScoped (program_of typed.now) condition.now }
    ensures { IfOk result (told.TellsHeading (program_of typed.now) condition.now first.now) }
{
    let mut text = describe(alloc, typed, condition)?;
    text.push(b"\n")?;
    let lines = state_lines(alloc, first)?;
    text.push(lines.bytes())?;
    Ok(text)
}

// The lines from the first state to the failing check; none where the check can't fail.
fn story(
    alloc: Global,
    setting: Setting<'_>,
    condition: &Condition,
    first: &State,
    others: &[State],
) -> Result<Option<Text>, AllocError>
    requires loops { HasLoops setting }
    requires scoped { IsScoped (whole setting) condition.now }
    requires own { IsOf (whole setting) (condition_of condition.now) (here setting) }
    ensures { IfOk result (told.IsStoryOr (whole setting.entry) condition.now first.now others.now) }
{
    let Some(missed) = failing(alloc, setting, &condition.check.kind, last(first, others))? else {
        return Ok(None);
    };
    let mut text = heading(alloc, setting.typed, condition, first)?;
    let steps = steps_told(alloc, setting, condition.steps.as_slice(), first, others)?;
    text.push(steps.bytes())?;
    text.push(b"the check fails:\n")?;
    text.push(missed.bytes())?;
    Ok(Some(text))
}

// What is told of a trace that is a counterexample of a condition.
fn told_of(
    alloc: Global,
    typed: &Typed,
    condition: &Condition,
    states: &[State],
) -> Result<Text, AllocError>
    requires scoped { IsScoped (program_of typed.now) condition.now }
    requires shown { IsDrawnCounterexample (program_of typed.now) (condition_of condition.now) (map drawn states.now) }
    ensures { IfOk result (told.IsToldFor (program_of typed.now) condition.now states.now) }
{
    let Some(procedure) = procedure_at(typed, condition.procedure) else {
        unreachable!();
    };
    let Some((first, others)) = states.split_first() else {
        unreachable!();
    };
    let loops = loops_of(alloc, procedure)?;
    let setting = Setting {
        typed,
        procedure,
        loops: loops.as_slice(),
    };
    match story(alloc, setting, condition, first, others)? {
        Some(text) => Ok(text),
        None => unreachable!(),
    }
}

/// What is told of a drawing for a condition of an admitted program.
pub fn why(
    alloc: Global,
    typed: &Typed,
    conditions: &Conditions,
    drawing: &Drawing,
) -> Result<Explained, AllocError>
    requires same { program_of conditions.now ≡ program_of typed.now }
    requires admitted { IsAdmitted (program_of typed.now) }
    ensures { IfOk result (told.IsExplained (program_of typed.now)
        drawing.now.condition drawing.now.trace.states.items) }
{
    let Some(condition) = conditions.condition(alloc, drawing.condition)? else {
        return Ok(Explained::Unnumbered);
    };
    match replay(alloc, typed, &condition, &drawing.trace) {
        Ok(()) => {
            let states = drawing.trace.states.as_slice();
            let text = told_of(alloc, typed, &condition, states)?;
            Ok(Explained::Told(text))
        }
        Err(ReplayError::Step { number }) => Ok(Explained::Fails { number }),
        Err(ReplayError::OutOfMemory) => Err(AllocError),
    }
}
