//! Whether a step leads from one state to another.

ghost use Rattle.std.specs.Prelude.{◌≡◌, ◌↔◌, IfOk, IsTrue};
ghost use Rattle.gh_ast.specs.declared.Occ.{Occ};
ghost use Rattle.gh_path.specs.Graphs as graph;
ghost use Rattle.gh_trace.specs.Kept.{state_of, ListsAlike};
ghost use Rattle.gh_trace.specs.Settings.{HasLoops};
ghost use Rattle.gh_trace.specs.Decisions.{DecidesTaken, DecidesCall, DecidesReturn, DecidesLoop, DecidesStep};

use crate::heaps::is_same_outside;
use crate::parts::{Part, is_answered, is_replaced};
use crate::setting::{Setting, procedure_at};
use crate::state::State;
use crate::stores::{gets, inside, keeps, values};
use crate::targets::Targets;
use gh_assert::values::{compares, expr_value, value_of, values_of};
use gh_ast::{Expr, Occ};
use gh_path::condition::PathStep;
use std::alloc::{AllocError, Global};
use std::slice::from_ref;

// Whether the state stays as it is.
fn stays(alloc: Global, before: &State, after: &State) -> Result<bool, AllocError>
    requires { ListsAlike before.now after.now }
    ensures { IfOk result (λ b. IsTrue b ↔ (state_of after.now ≡ state_of before.now)) }
{
    if !keeps(&before.store, &after.store, Targets::Names(&[])) {
        return Ok(false);
    }
    is_same_outside(alloc, &before.heap, &[], &after.heap, &[])
}

/// The place is allocated, and the state stays.
pub fn accesses(alloc: Global, at: &Occ, before: &State, after: &State) -> Result<bool, AllocError>
    requires { ListsAlike before.now after.now }
    ensures { IfOk result (DecidesTaken (graph.access_step at.now) before.now after.now) }
{
    let place = value_of(&before.store, at);
    if before.heap.get(place).is_none() {
        return Ok(false);
    }
    stays(alloc, before, after)
}

/// The comparison is true, and the state stays.
pub fn assumes(
    alloc: Global,
    left: &Expr,
    equal: bool,
    right: &Expr,
    before: &State,
    after: &State,
) -> Result<bool, AllocError>
    requires { ListsAlike before.now after.now }
    ensures { IfOk result (DecidesTaken (graph.assume_step left.now equal right.now) before.now after.now) }
{
    let Some(left) = expr_value(&before.store, &before.heap, left) else {
        return Ok(false);
    };
    let Some(right) = expr_value(&before.store, &before.heap, right) else {
        return Ok(false);
    };
    if !compares(left, equal, right) {
        return Ok(false);
    }
    stays(alloc, before, after)
}

/// The variable has the value.
pub fn assigns(
    alloc: Global,
    target: &Occ,
    expr: &Expr,
    before: &State,
    after: &State,
) -> Result<bool, AllocError>
    requires { ListsAlike before.now after.now }
    ensures { IfOk result (DecidesTaken (graph.set_step target.now expr.now) before.now after.now) }
{
    let Some(value) = expr_value(&before.store, &before.heap, expr) else {
        return Ok(false);
    };
    if !gets(
        alloc,
        &before.store,
        &after.store,
        from_ref(target),
        &[value],
    )? {
        return Ok(false);
    }
    is_same_outside(alloc, &before.heap, &[], &after.heap, &[])
}

/// The cell at the place has the value.
pub fn writes(
    alloc: Global,
    at: &Occ,
    expr: &Expr,
    before: &State,
    after: &State,
) -> Result<bool, AllocError>
    requires { ListsAlike before.now after.now }
    ensures { IfOk result (DecidesTaken (graph.write_step at.now expr.now) before.now after.now) }
{
    let place = value_of(&before.store, at);
    let Some(value) = expr_value(&before.store, &before.heap, expr) else {
        return Ok(false);
    };
    if before.heap.get(place).is_none() {
        return Ok(false);
    }
    if after.heap.get(place) != Some(value) {
        return Ok(false);
    }
    if !keeps(&before.store, &after.store, Targets::Names(&[])) {
        return Ok(false);
    }
    is_same_outside(alloc, &before.heap, &[place], &after.heap, &[place])
}

/// The variable has a place that was not allocated, and a cell is there.
pub fn makes(alloc: Global, target: &Occ, before: &State, after: &State) -> Result<bool, AllocError>
    requires { ListsAlike before.now after.now }
    ensures { IfOk result (DecidesTaken (graph.new_step target.now) before.now after.now) }
{
    let place = value_of(&after.store, target);
    if place == 0 {
        return Ok(false);
    }
    if after.heap.get(place).is_none() {
        return Ok(false);
    }
    if !keeps(
        &before.store,
        &after.store,
        Targets::Names(from_ref(target)),
    ) {
        return Ok(false);
    }
    is_same_outside(alloc, &before.heap, &[], &after.heap, &[place])
}

/// The cell at the place is gone.
pub fn frees(alloc: Global, at: &Occ, before: &State, after: &State) -> Result<bool, AllocError>
    requires { ListsAlike before.now after.now }
    ensures { IfOk result (DecidesTaken (graph.free_step at.now) before.now after.now) }
{
    let place = value_of(&before.store, at);
    if before.heap.get(place).is_none() {
        return Ok(false);
    }
    if !keeps(&before.store, &after.store, Targets::Names(&[])) {
        return Ok(false);
    }
    is_same_outside(alloc, &before.heap, &[place], &after.heap, &[])
}

// A call of the procedure of a number.
#[derive(Clone, Copy)]
struct Call<'t> {
    targets: &'t [Occ],
    callee: u16,
    arguments: &'t [Expr],
}

// A part that meets what the callee needs gives way to one that meets an alternative of what it gives,
// and the targets have its results.
fn calls(
    alloc: Global,
    setting: Setting<'_>,
    call: Call<'_>,
    before: &State,
    after: &State,
) -> Result<bool, AllocError>
    requires { ListsAlike before.now after.now }
    ensures { IfOk result (DecidesCall setting.entry call.entry before.now after.now) }
{
    let Call {
        targets,
        callee,
        arguments,
    } = call;
    let Some(callee) = procedure_at(setting.typed, callee) else {
        return Ok(false);
    };
    let Some(given) = values_of(alloc, &before.store, &before.heap, arguments)? else {
        return Ok(false);
    };
    if given.as_slice().len() != callee.parameters.as_slice().len() {
        return Ok(false);
    }
    if targets.len() != callee.results.as_slice().len() {
        return Ok(false);
    }
    if !keeps(&before.store, &after.store, Targets::Names(targets)) {
        return Ok(false);
    }
    let results = values(alloc, &after.store, targets)?;
    let inside = inside(alloc, callee, given.as_slice(), results.as_slice())?;
    is_answered(alloc, callee, &inside, &before.heap, &after.heap)
}

// A part that meets the invariant gives way to one that meets it again, and the variables that the
// body assigns have any values.
fn goes_around(
    alloc: Global,
    setting: Setting<'_>,
    number: u16,
    before: &State,
    after: &State,
) -> Result<bool, AllocError>
    requires loops { HasLoops setting }
    requires next { ListsAlike before.now after.now }
    ensures { IfOk result (DecidesLoop setting.entry number before.now after.now) }
{
    let Some(round) = setting.round(number) else {
        return Ok(false);
    };
    if !keeps(&before.store, &after.store, Targets::Body(round.body)) {
        return Ok(false);
    }
    let old = Part {
        assertion: round.invariant,
        store: &before.store,
        heap: &before.heap,
    };
    let new = Part {
        assertion: round.invariant,
        store: &after.store,
        heap: &after.heap,
    };
    is_replaced(alloc, old, new)
}

// The results have the values, all at once.
fn answers(
    alloc: Global,
    setting: Setting<'_>,
    exprs: &[Expr],
    before: &State,
    after: &State,
) -> Result<bool, AllocError>
    requires { ListsAlike before.now after.now }
    ensures { IfOk result (DecidesReturn setting.entry exprs.now before.now after.now) }
{
    let Some(given) = values_of(alloc, &before.store, &before.heap, exprs)? else {
        return Ok(false);
    };
    let results = setting.procedure.results.as_slice();
    if !gets(
        alloc,
        &before.store,
        &after.store,
        results,
        given.as_slice(),
    )? {
        return Ok(false);
    }
    is_same_outside(alloc, &before.heap, &[], &after.heap, &[])
}

/// Whether a step leads from one state to the next, whose store lists the same names.
pub fn leads(
    alloc: Global,
    setting: Setting<'_>,
    step: &PathStep,
    before: &State,
    after: &State,
) -> Result<bool, AllocError>
    requires loops { HasLoops setting }
    requires next { ListsAlike before.now after.now }
    ensures { IfOk result (DecidesStep setting.entry step.now before.now after.now) }
{
    match step {
        PathStep::Access { at } => accesses(alloc, at, before, after),
        PathStep::Assume { left, equal, right } => {
            assumes(alloc, left, *equal, right, before, after)
        }
        PathStep::Set { target, value } => assigns(alloc, target, value, before, after),
        PathStep::Write { at, value } => writes(alloc, at, value, before, after),
        PathStep::New { target } => makes(alloc, target, before, after),
        PathStep::Free { at } => frees(alloc, at, before, after),
        PathStep::Call {
            targets,
            callee,
            arguments,
        } => {
            let call = Call {
                targets: targets.as_slice(),
                callee: *callee,
                arguments: arguments.as_slice(),
            };
            calls(alloc, setting, call, before, after)
        }
        PathStep::Loop { number } => goes_around(alloc, setting, *number, before, after),
        PathStep::Return { values } => answers(alloc, setting, values.as_slice(), before, after),
    }
}
