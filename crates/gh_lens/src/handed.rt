//! What a step hands over.

ghost use Rattle.std.specs.Prelude.{IfOk};
ghost use Rattle.gh_trace.specs.Settings.{HasLoops, here, whole};
ghost use Rattle.gh_lens.specs.Handed.{IsHandedToCallee, IsHandedToLoop, IsHandedBetween};
ghost use Rattle.gh_path.specs.Graphs.{HasProcedure, HasLoop};
ghost use Rattle.gh_path.specs.Conditions.{StepIsThere};
ghost use Rattle.gh_path.specs.Kept.{step_of};

use crate::exchange::{Exchange, exchanged};
use gh_ast::Expr;
use gh_path::condition::PathStep;
use gh_trace::parts::Part;
use gh_trace::setting::{Setting, procedure_at};
use gh_trace::state::State;
use gh_trace::stores::entered;
use std::alloc::{AllocError, Global};

// What a call hands over.
fn handed_to_callee(
    alloc: Global,
    setting: Setting<'_>,
    callee: u16,
    arguments: &[Expr],
    before: &State,
    after: &State,
) -> Result<Option<Exchange>, AllocError>
    requires { HasProcedure (whole setting) callee }
    ensures { IfOk result (IsHandedToCallee setting.entry callee arguments.now before.now after.now) }
{
    let Some(callee) = procedure_at(setting.typed, callee) else {
        unreachable!();
    };
    let Some(inside) = entered(alloc, callee, arguments, before)? else {
        return Ok(None);
    };
    let part = Part {
        assertion: &callee.needs,
        store: &inside,
        heap: &before.heap,
    };
    exchanged(alloc, part, &after.heap)
}

// What a loop hands over.
fn handed_to_loop(
    alloc: Global,
    setting: Setting<'_>,
    number: u16,
    before: &State,
    after: &State,
) -> Result<Option<Exchange>, AllocError>
    requires loops { HasLoops setting }
    requires there { HasLoop (here setting) number }
    ensures { IfOk result (IsHandedToLoop setting.entry number before.now after.now) }
{
    let Some(round) = setting.round(number) else {
        unreachable!();
    };
    let part = Part {
        assertion: round.invariant,
        store: &before.store,
        heap: &before.heap,
    };
    exchanged(alloc, part, &after.heap)
}

/// What a step of a condition hands over between two states, if it hands cells over.
pub fn handed(
    alloc: Global,
    setting: Setting<'_>,
    step: &PathStep,
    before: &State,
    after: &State,
) -> Result<Option<Exchange>, AllocError>
    requires loops { HasLoops setting }
    requires there { StepIsThere (whole setting) (here setting) (step_of step.now) }
    ensures { IfOk result (IsHandedBetween setting.entry step.now before.now after.now) }
{
    match step {
        PathStep::Call {
            callee,
            arguments,
            ..
        } => handed_to_callee(alloc, setting, *callee, arguments.as_slice(), before, after),
        PathStep::Loop { number } => handed_to_loop(alloc, setting, *number, before, after),
        PathStep::Access { .. } => Ok(None),
        PathStep::Assume { .. } => Ok(None),
        PathStep::Set { .. } => Ok(None),
        PathStep::Write { .. } => Ok(None),
        PathStep::New { .. } => Ok(None),
        PathStep::Free { .. } => Ok(None),
        PathStep::Return { .. } => Ok(None),
    }
}
