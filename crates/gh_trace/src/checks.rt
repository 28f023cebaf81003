//! Whether a state meets the start of a path, and whether it passes a check.

ghost use Rattle.std.specs.Prelude.{◌≡◌, ◌↔◌, IfOk, IfNone, IfSome, IsTrue};
ghost use Rattle.gh_ast.specs.Plain.{procedure_of};
ghost use Rattle.gh_path.specs.Conditions.{StartIsThere};
ghost use Rattle.gh_path.specs.Kept.{start_of};
ghost use Rattle.gh_trace.specs.Parts.{IsReturned};
ghost use Rattle.gh_assert.specs.Stores.{listed_names};
ghost use Rattle.gh_trace.specs.Kept.{state_of};
ghost use Rattle.gh_trace.specs.Settings.{HasLoops, here, variables_here};
ghost use Rattle.gh_trace.specs.Decisions.{IsMetAtStart, DecidesStart, DecidesEntry, DecidesLoopEntry, DecidesLoopEnd};
ghost use Rattle.gh_trace.specs.Decisions.{DecidesCheck};

use crate::parts::{Part, has_part};
use crate::setting::{Setting, procedure_at};
use crate::state::State;
use crate::stores::{entered, is_over, value};
use gh_assert::meaning::{holds, meets_one_of};
use gh_ast::{Assertion, Expr, Procedure};
use gh_path::condition::{CheckKind, Start};
use std::alloc::{AllocError, Global};

// What the first heap of a path meets.
fn start_assertion<'t>(setting: Setting<'t>, start: Start) -> Option<&'t Assertion>
    requires { HasLoops setting }
    ensures some { IfSome result (λ f. IsMetAtStart setting.entry start f.now) }
    ensures none { IfNone result (StartIsThere (here setting.entry) (start_of start) → ⊥) }
{
    match start {
        Start::Entry => Some(&setting.procedure.needs),
        Start::Loop { number } => match setting.round(number) {
            Some(round) => Some(round.invariant),
            None => None,
        },
    }
}

/// Whether a path may begin in a state.
pub fn begins(
    alloc: Global,
    setting: Setting<'_>,
    start: Start,
    state: &State,
) -> Result<bool, AllocError>
    requires loops { HasLoops setting }
    requires there { StartIsThere (here setting) (start_of start) }
    ensures begins { IfOk result (DecidesStart setting.entry start state.now) }
    ensures over { IfOk result (λ b. IsTrue b → listed_names state.now.store ≡ variables_here setting.entry) }
{
    let Some(assertion) = start_assertion(setting, start) else {
        return Ok(false);
    };
    if !is_over(&state.store, setting.procedure) {
        return Ok(false);
    }
    holds(alloc, &state.store, &state.heap, assertion)
}

// Some part of the heap meets what the callee needs. A call that gives no values, or another number
// of them, is none.
fn is_entered(
    alloc: Global,
    setting: Setting<'_>,
    callee: u16,
    arguments: &[Expr],
    state: &State,
) -> Result<bool, AllocError>
    ensures { IfOk result (DecidesEntry setting.entry callee arguments.now state.now) }
{
    let Some(callee) = procedure_at(setting.typed, callee) else {
        return Ok(true);
    };
    let Some(inside) = entered(alloc, callee, arguments, state)? else {
        return Ok(true);
    };
    has_part(
        alloc,
        Part {
            assertion: &callee.needs,
            store: &inside,
            heap: &state.heap,
        },
    )
}

// Some part of the heap meets the loop's invariant.
fn is_loop_entered(
    alloc: Global,
    setting: Setting<'_>,
    number: u16,
    state: &State,
) -> Result<bool, AllocError>
    requires { HasLoops setting }
    ensures { IfOk result (DecidesLoopEntry setting.entry number state.now) }
{
    let Some(round) = setting.round(number) else {
        return Ok(true);
    };
    has_part(
        alloc,
        Part {
            assertion: round.invariant,
            store: &state.store,
            heap: &state.heap,
        },
    )
}

// The whole heap meets the loop's invariant.
fn is_loop_ended(
    alloc: Global,
    setting: Setting<'_>,
    number: u16,
    state: &State,
) -> Result<bool, AllocError>
    requires { HasLoops setting }
    ensures { IfOk result (DecidesLoopEnd setting.entry number state.now) }
{
    let Some(round) = setting.round(number) else {
        return Ok(true);
    };
    holds(alloc, &state.store, &state.heap, round.invariant)
}

/// Whether the whole heap meets an alternative of what the procedure gives.
pub fn is_returned(alloc: Global, procedure: &Procedure, state: &State) -> Result<bool, AllocError>
    ensures { IfOk result (λ b. IsTrue b ↔ IsReturned (procedure_of procedure.now) (state_of state.now)) }
{
    meets_one_of(alloc, &state.store, &state.heap, procedure.gives.as_slice())
}

/// Whether a state passes a check.
pub fn passes(
    alloc: Global,
    setting: Setting<'_>,
    kind: &CheckKind,
    state: &State,
) -> Result<bool, AllocError>
    requires { HasLoops setting }
    ensures { IfOk result (DecidesCheck setting.entry kind.now state.now) }
{
    match kind {
        CheckKind::Access { at } => Ok(state.heap.get(value(&state.store, at)).is_some()),
        CheckKind::CalleeEntry { callee, arguments } => {
            is_entered(alloc, setting, *callee, arguments.as_slice(), state)
        }
        CheckKind::LoopEntry { number } => is_loop_entered(alloc, setting, *number, state),
        CheckKind::Return => is_returned(alloc, setting.procedure, state),
        CheckKind::LoopEnd { number } => is_loop_ended(alloc, setting, *number, state),
    }
}
