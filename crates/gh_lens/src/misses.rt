//! Where a check fails.

ghost use Rattle.std.specs.Prelude.{◌≡◌, ◌++◌, map, IfOk, OnOk};
ghost use Rattle.gh_ast.specs.Plain.{comparison, segment, assertion_of};
ghost use Rattle.gh_assert.specs.Stores.{store_of};
ghost use Rattle.gh_trace.specs.Kept.{state_of};
ghost use Rattle.gh_trace.specs.Settings.{HasLoops, here, whole};
ghost use Rattle.gh_lens.specs.Misses as told;

use crate::lines::{push_heap_line, push_number};
use crate::statement::push_operand;
use crate::taking::{Reason, Taking, conjuncts, reason_for, taken};
use gh_assert::heap::Heap;
use gh_assert::store::Store;
use gh_assert::values::operand_value;
use gh_ast::{Assertion, Expr, Operand};
use gh_base::name::Name;
use gh_base::text::Text;
use gh_path::condition::CheckKind;
use gh_trace::setting::{Setting, procedure_at};
use gh_trace::state::State;
use gh_trace::stores::entered;
use std::alloc::{AllocError, Global};

fn push_comparison(
    text: &mut Text,
    left: &Operand,
    equal: bool,
    right: &Operand,
) -> Result<(), AllocError>
    ensures { OnOk result (text.new ≡ text.old ++ told.assertion_text (comparison left.now equal right.now)) }
{
    push_operand(text, left)?;
    text.push(if equal { b" == " } else { b" != " })?;
    push_operand(text, right)?;
    Ok(())
}

fn push_segment(text: &mut Text, from: &Operand, to: &Operand) -> Result<(), AllocError>
    ensures { OnOk result (text.new ≡ text.old ++ told.assertion_text (segment from.now to.now)) }
{
    text.push(b"lseg(")?;
    push_operand(text, from)?;
    text.push(b", ")?;
    push_operand(text, to)?;
    text.push(b")")?;
    Ok(())
}

// Adds a conjunct.
fn push_formula(text: &mut Text, assertion: &Assertion) -> Result<(), AllocError>
    ensures { OnOk result (text.new ≡ text.old ++ told.assertion_text (assertion_of assertion.now)) }
{
    match assertion {
        Assertion::Emp => text.push(b"emp"),
        Assertion::Pure { left, equal, right } => push_comparison(text, left, *equal, right),
        Assertion::PointsTo { at, to } => {
            text.push(at.name.bytes())?;
            text.push(b".next |-> ")?;
            push_operand(text, to)?;
            Ok(())
        }
        Assertion::Acc { at } => {
            text.push(b"acc(")?;
            text.push(at.name.bytes())?;
            text.push(b")")?;
            Ok(())
        }
        Assertion::Lseg { from, to } => push_segment(text, from, to),
        Assertion::Star(_) => text.push(b"a conjunction"),
        Assertion::Cases { .. } => text.push(b"a choice"),
    }
}

fn push_reason(alloc: Global, text: &mut Text, reason: Reason) -> Result<(), AllocError>
    ensures { OnOk result (text.new ≡ text.old ++ told.reason_text reason) }
{
    match reason {
        Reason::Untrue => text.push(b"not so"),
        Reason::Missing { at } => {
            text.push(b"no cell at ")?;
            push_number(alloc, text, at)?;
            Ok(())
        }
        Reason::Shared { at } => {
            text.push(b"the cell at ")?;
            push_number(alloc, text, at)?;
            text.push(b" is taken already")?;
            Ok(())
        }
        Reason::Content { at, to } => {
            text.push(b"the cell at ")?;
            push_number(alloc, text, at)?;
            text.push(b" leads to ")?;
            push_number(alloc, text, to)?;
            Ok(())
        }
    }
}

// Adds an operand with its value.
fn push_value(
    alloc: Global,
    text: &mut Text,
    store: &Store,
    operand: &Operand,
) -> Result<(), AllocError>
    ensures { OnOk result (text.new ≡ text.old ++ told.value_text (store_of store.now) operand.now) }
{
    push_operand(text, operand)?;
    text.push(b" = ")?;
    push_number(alloc, text, operand_value(store, operand))?;
    Ok(())
}

// Adds both sides of a comparison with their values.
fn push_sides(
    alloc: Global,
    text: &mut Text,
    store: &Store,
    left: &Operand,
    right: &Operand,
) -> Result<(), AllocError>
    ensures { OnOk result (text.new ≡ text.old ++ told.sides_text (store_of store.now) left.now right.now) }
{
    text.push(b" (")?;
    push_value(alloc, text, store, left)?;
    text.push(b", ")?;
    push_value(alloc, text, store, right)?;
    text.push(b")")?;
    Ok(())
}

// Adds the values that a conjunct compares.
fn push_compared(
    alloc: Global,
    text: &mut Text,
    store: &Store,
    conjunct: &Assertion,
) -> Result<(), AllocError>
    ensures { OnOk result (text.new ≡ text.old ++ told.compared_text (store_of store.now) (assertion_of conjunct.now)) }
{
    match conjunct {
        Assertion::Pure { left, right, .. } => push_sides(alloc, text, store, left, right),
        Assertion::Emp => Ok(()),
        Assertion::PointsTo { .. } => Ok(()),
        Assertion::Acc { .. } => Ok(()),
        Assertion::Lseg { .. } => Ok(()),
        Assertion::Star(_) => Ok(()),
        Assertion::Cases { .. } => Ok(()),
    }
}

// The line on a conjunct that finds no part.
fn blocked_line(
    alloc: Global,
    store: &Store,
    conjunct: &Assertion,
    reason: Reason,
) -> Result<Text, AllocError>
    ensures { IfOk result (λ t. t ≡ told.blocked_line (store_of store.now) (assertion_of conjunct.now) reason) }
{
    let mut text = Text::new(alloc);
    text.push(b"  ")?;
    push_formula(&mut text, conjunct)?;
    text.push(b": ")?;
    push_reason(alloc, &mut text, reason)?;
    push_compared(alloc, &mut text, store, conjunct)?;
    text.push(b"\n")?;
    Ok(text)
}

// The line on the cells that no conjunct takes.
fn left_line(alloc: Global, rest: &Heap) -> Result<Text, AllocError>
    ensures { IfOk result (λ t. t ≡ told.left_line rest.now) }
{
    let mut text = Text::new(alloc);
    push_heap_line(alloc, &mut text, b"  leaked:", rest)?;
    Ok(text)
}

/// A line that tells where an assertion fails on a whole heap: at a conjunct that finds no part, or by
/// cells that are left over.
pub fn miss(
    alloc: Global,
    store: &Store,
    heap: &Heap,
    assertion: &Assertion,
) -> Result<Text, AllocError>
    ensures { IfOk result (told.IsMiss (assertion_of assertion.now) (store_of store.now) heap.now) }
{
    match taken(alloc, store, heap, conjuncts(assertion))? {
        Taking::Blocked { conjunct, rest } => {
            let reason = reason_for(alloc, store, heap, &rest, conjunct)?;
            blocked_line(alloc, store, conjunct, reason)
        }
        Taking::Whole { rest } => left_line(alloc, &rest),
    }
}

// A line for each of some alternatives.
fn misses(
    alloc: Global,
    store: &Store,
    heap: &Heap,
    alternatives: &[Assertion],
) -> Result<Text, AllocError>
    ensures { IfOk result (told.AreMisses (map assertion_of alternatives.now) (store_of store.now) heap.now) }
{
    let mut text = Text::new(alloc);
    for alternative in alternatives {
        let line = miss(alloc, store, heap, alternative)?;
        text.push(line.bytes())?;
    }
    Ok(text)
}

// A line on a place that should be allocated.
fn access_line(alloc: Global, state: &State, at: &Name) -> Result<Text, AllocError>
    ensures { IfOk result (λ t. t ≡ told.access_line at.now (store_of state.now.store at.now)) }
{
    let mut text = Text::new(alloc);
    text.push(b"  ")?;
    text.push(at.bytes())?;
    text.push(b" = ")?;
    push_number(alloc, &mut text, state.store.get(at).unwrap_or(0))?;
    text.push(b": no cell\n")?;
    Ok(text)
}

// Where the entry of a callee fails; none where it can't.
fn entry_miss(
    alloc: Global,
    setting: Setting<'_>,
    callee: u16,
    arguments: &[Expr],
    state: &State,
) -> Result<Option<Text>, AllocError>
    ensures { IfOk result (told.IsEntryOr (whole setting.entry) callee arguments.now (state_of state.now)) }
{
    let Some(callee) = procedure_at(setting.typed, callee) else {
        return Ok(None);
    };
    let Some(inside) = entered(alloc, callee, arguments, state)? else {
        return Ok(None);
    };
    let text = miss(alloc, &inside, &state.heap, &callee.needs)?;
    Ok(Some(text))
}

// Where a loop's invariant fails; none where there is no such loop.
fn invariant_miss(
    alloc: Global,
    setting: Setting<'_>,
    number: u16,
    state: &State,
) -> Result<Option<Text>, AllocError>
    requires { HasLoops setting }
    ensures { IfOk result (told.IsInvariantOr (here setting.entry) number (state_of state.now)) }
{
    let Some(round) = setting.round(number) else {
        return Ok(None);
    };
    let text = miss(alloc, &state.store, &state.heap, round.invariant)?;
    Ok(Some(text))
}

/// The lines that tell where a check fails in a state; none where it doesn't.
pub fn failing(
    alloc: Global,
    setting: Setting<'_>,
    kind: &CheckKind,
    state: &State,
) -> Result<Option<Text>, AllocError>
    requires { HasLoops setting }
    ensures { IfOk result (told.IsFailingOr (whole setting.entry) (here setting.entry) kind.now (state_of state.now)) }
{
    match kind {
        CheckKind::Access { at } => {
            let line = access_line(alloc, state, at)?;
            Ok(Some(line))
        }
        CheckKind::CalleeEntry { callee, arguments } => {
            entry_miss(alloc, setting, *callee, arguments.as_slice(), state)
        }
        CheckKind::LoopEntry { number } => invariant_miss(alloc, setting, *number, state),
        CheckKind::Return => {
            let gives = setting.procedure.gives.as_slice();
            let lines = misses(alloc, &state.store, &state.heap, gives)?;
            Ok(Some(lines))
        }
        CheckKind::LoopEnd { number } => invariant_miss(alloc, setting, *number, state),
    }
}
