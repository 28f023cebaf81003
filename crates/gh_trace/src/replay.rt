//! Whether a trace is a counterexample of a condition.

ghost use Rattle.std.specs.Prelude.{◌≡◌, ◌≤◌, IfErr, IfOk, OnOk, IsTrue, length};
ghost use Rattle.gh_ast.specs.Plain.{program_of};
ghost use Rattle.gh_assert.specs.Stores.{listed_names};
ghost use Rattle.gh_path.specs.Admitted.{most_steps};
ghost use Rattle.gh_path.specs.Kept.{IsOne, condition_of};
ghost use Rattle.gh_trace.specs.Kept.{drawn_of, IsFailure};
ghost use Rattle.gh_trace.specs.Replay.{IsDrawnCounterexample};
ghost use Rattle.gh_trace.specs.Settings.{HasLoops, variables_here};
ghost use Rattle.gh_trace.specs.Decisions.{DecidesNext, IsRefutedIn, IsFailureIn};

use crate::checks::{begins, passes};
use crate::setting::{Setting, procedure_at};
use crate::state::{State, Trace};
use crate::steps::leads;
use crate::stores::is_over;
use gh_ast::typed::Typed;
use gh_path::condition::{Condition, PathStep};
use gh_path::loops::loops_of;
use std::alloc::{AllocError, Global};
use thiserror::Error;

/// Why a trace is no counterexample, or why that isn't known.
///
/// `Step` has the number of the first failure. It is 0 where there is no first state, or its store
/// isn't over the variables, or its heap doesn't meet what is given at the start; k where state k is
/// missing, or step k doesn't lead to it; and one above the number of steps where the last state
/// passes the check, or more states follow.
#[derive(Debug, Drop, Error)]
pub enum ReplayError {
    #[error("step {number}")]
    Step { number: u16 },
    #[error("out of memory")]
    OutOfMemory,
}

impl From<AllocError> for ReplayError {
    ghost use Rattle.gh_trace.specs.declared.replay.ReplayError.TheVariants.{OutOfMemory};

    ghost from_gives = { λ _ e. e ≡ OutOfMemory };

    fn from(_: AllocError) -> Self {
        ReplayError::OutOfMemory
    }
}

// The failure of a number.
fn failure(number: usize) -> ReplayError
    requires { number ≤ 257 }
    ensures { result ≡ ReplayError.Step number }
{
    ReplayError::Step {
        number: number as u16,
    }
}

// Whether the next state is over the variables, and the step leads to it.
fn is_next(
    alloc: Global,
    setting: Setting<'_>,
    step: &PathStep,
    before: &State,
    after: &State,
) -> Result<bool, AllocError>
    requires loops { HasLoops setting }
    requires over { listed_names before.now.store ≡ variables_here setting }
    ensures next { IfOk result (DecidesNext setting.entry step.now before.now after.now) }
    ensures over { IfOk result (λ b. IsTrue b → listed_names after.now.store ≡ variables_here setting.entry) }
{
    if !is_over(&after.store, setting.procedure) {
        return Ok(false);
    }
    leads(alloc, setting, step, before, after)
}

// Follows the steps from a first state.
fn walk(
    alloc: Global,
    setting: Setting<'_>,
    condition: &Condition,
    first: &State,
    others: &[State],
) -> Result<(), ReplayError>
    requires loops { HasLoops setting }
    requires few { length condition.now.steps.items ≤ most_steps }
    requires over { listed_names first.now.store ≡ variables_here setting }
    ensures refuted { OnOk result (IsRefutedIn setting.entry condition.now first.now others.now) }
    ensures failed { IfErr result (IsFailureIn setting.entry condition.now first.now others.now) }
{
    let mut before = first;
    for (i, step) in condition.steps.iter().enumerate() {
        let Some(after) = others.get(i) else {
            return Err(failure(i + 1));
        };
        if !is_next(alloc, setting, step, before, after)? {
            return Err(failure(i + 1));
        }
        before = after;
    }
    let count = condition.steps.len();
    if others.len() > count {
        return Err(failure(count + 1));
    }
    if passes(alloc, setting, &condition.check.kind, before)? {
        return Err(failure(count + 1));
    }
    Ok(())
}

/// Whether a trace is a counterexample of a condition of the program.
pub fn replay(
    alloc: Global,
    typed: &Typed,
    condition: &Condition,
    trace: &Trace,
) -> Result<(), ReplayError>
    requires one { IsOne (program_of typed.now) condition.now }
    requires few { length condition.now.steps.items ≤ most_steps }
    ensures refuted { OnOk result (IsDrawnCounterexample (program_of typed.now) (condition_of condition.now) (drawn_of trace.now)) }
    ensures failed { IfErr result (IsFailure (program_of typed.now) condition.now (drawn_of trace.now)) }
{
    let Some(procedure) = procedure_at(typed, condition.procedure) else {
        unreachable!();
    };
    let loops = loops_of(alloc, procedure)?;
    let setting = Setting {
        typed,
        procedure,
        loops: loops.as_slice(),
    };
    let Some((first, others)) = trace.states.as_slice().split_first() else {
        return Err(failure(0));
    };
    if !begins(alloc, setting, condition.start, first)? {
        return Err(failure(0));
    }
    walk(alloc, setting, condition, first, others)
}
