// The rows of a picture.

ghost use Rattle.std.specs.Prelude.{◌≡◌, map, All, IfOk};
ghost use Rattle.gh_path.specs.Conditions.{StepIsThere};
ghost use Rattle.gh_path.specs.Kept.{step_of};
ghost use Rattle.gh_trace.specs.Settings.{HasLoops, here, whole};
ghost use Rattle.gh_lens.specs.Statements.{statement_text};
ghost use Rattle.gh_scene.specs.Rows as told;
ghost use Rattle.gh_scene.specs.Rows.{AddsRowsFor};

use crate::notes::{aside, note};
use crate::roles::{changes_of, roles_of};
use gh_assert::heap::Heap;
use gh_base::text::Text;
use gh_lens::handed::handed;
use gh_lens::statement::{push_line, push_step, step_place};
use gh_path::condition::PathStep;
use gh_picture::scene::Row;
use gh_trace::setting::Setting;
use gh_trace::state::State;
use std::alloc::{AllocError, Global};

// The statement of a step, with its line.
fn statement(alloc: Global, setting: Setting<'_>, step: &PathStep) -> Result<Text, AllocError>
    requires { HasLoops setting }
    ensures { IfOk result (λ t. t ≡ statement_text (whole setting.entry) (here setting.entry) (step_of step.now)) }
{
    let mut text = Text::new(alloc);
    push_line(alloc, &mut text, step_place(setting.loops, step))?;
    push_step(&mut text, setting.typed.program(), step)?;
    Ok(text)
}

/// The row of the first state, of which some cells are left over.
pub fn start_row(alloc: Global, first: &State, spare: &Heap) -> Result<Row, AllocError>
    ensures { IfOk result (told.IsStartRow first.now spare.now) }
{
    let none = Heap::new(alloc);
    let mut statement = Text::new(alloc);
    statement.push(b"start")?;
    let roles = roles_of(alloc, &first.heap, &none, spare, &first.heap)?;
    let changes = changes_of(alloc, &first.store, &first.store)?;
    let state = first.copy(alloc)?;
    Ok(Row {
        statement,
        note: Text::new(alloc),
        state,
        roles,
        changes,
    })
}

// The row of the state that a step leads to, of which some cells are left over.
fn step_row(
    alloc: Global,
    setting: Setting<'_>,
    step: &PathStep,
    before: &State,
    after: &State,
    spare: &Heap,
) -> Result<Row, AllocError>
    requires loops { HasLoops setting }
    requires there { StepIsThere (whole setting) (here setting) (step_of step.now) }
    ensures { IfOk result (told.IsRowFor setting.entry step.now before.now after.now spare.now) }
{
    let exchange = handed(alloc, setting, step, before, after)?;
    let apart = aside(alloc, &exchange)?;
    let statement = statement(alloc, setting, step)?;
    let note = note(alloc, &exchange)?;
    let roles = roles_of(alloc, &before.heap, &apart, spare, &after.heap)?;
    let changes = changes_of(alloc, &before.store, &after.store)?;
    let state = after.copy(alloc)?;
    Ok(Row {
        statement,
        note,
        state,
        roles,
        changes,
    })
}

/// What is left over in a state before some others: nothing, unless it is the last.
pub fn left_at_end(alloc: Global, others: &[State], spare: &Heap) -> Result<Heap, AllocError>
    ensures { IfOk result (λ h. h ≡ told.left_at_end others.now spare.now) }
{
    match others {
        [] => spare.copy(alloc),
        [_, ..] => Ok(Heap::new(alloc)),
    }
}

/// Adds a row for each state after the first.
pub fn push_rows(
    alloc: Global,
    rows: &mut Vec<Row>,
    setting: Setting<'_>,
    steps: &[PathStep],
    states: &[State],
    spare: &Heap,
) -> Result<(), AllocError>
    requires loops { HasLoops setting }
    requires there { All (StepIsThere (whole setting) (here setting)) (map step_of steps.now) }
    ensures { IfOk result (λ _.
        AddsRowsFor setting.entry steps.now states.now spare.now rows.old.items rows.new.items) }
{
    let Some((step, later)) = steps.split_first() else {
        return Ok(());
    };
    let Some((before, others)) = states.split_first() else {
        return Ok(());
    };
    let Some((after, rest)) = others.split_first() else {
        return Ok(());
    };
    let left = left_at_end(alloc, rest, spare)?;
    let row = step_row(alloc, setting, step, before, after, &left)?;
    rows.push(row)?;
    push_rows(alloc, rows, setting, later, others, spare)
}
