//! What a concrete run comes to.

ghost use Rattle.std.specs.Prelude.{◌≡◌, ◌+◌, ◌≤◌, ◌↔◌, IfOk, IsTrue, map};
ghost use Rattle.std.specs.FinMap.{len};
ghost use Rattle.gh_ast.specs.Plain.{procedure_of, program_of};
ghost use Rattle.gh_machine.specs.Configs.{config_of, IsMadeFor};
ghost use Rattle.gh_run.specs.StateFiles.{FitsProgram};
ghost use Rattle.gh_run.specs.Reports.{IsAtBegin, HasGivenWay, IsStateOf, IsReport};

use crate::rule::{Halt, run_ruled};
use crate::state_file::Begin;
use gh_assert::meaning::meets_one_of;
use gh_assert::store::{Entry, Store};
use gh_ast::Procedure;
use gh_ast::typed::Typed;
use gh_machine::config::Config;
use gh_trace::parts::{Part, has_part, replacement};
use gh_trace::state::State;
use std::alloc::{AllocError, Global};

/// What a run comes to. `steps` is the number of its steps, without the one that a return of the
/// first activation makes; `state` is that of the topmost activation.
#[derive(Debug, Drop)]
pub enum Report {
    /// No part of the heap meets what the procedure needs.
    Unmet,
    /// A place that isn't allocated would be read, written or freed.
    Faulted { steps: u32, state: State },
    /// The run has ended. `met` tells whether the heap is what lay outside the footprint of what the
    /// procedure needs, as it was, and a part that meets what the procedure gives.
    Ended { steps: u32, state: State, met: bool },
    /// As many steps were made as were asked for.
    Stopped { steps: u32, state: State },
}

// The values of all variables, in their order.
fn values(alloc: Global, entries: &[Entry]) -> Result<Vec<u32>, AllocError>
    ensures { IfOk result (λ vs. vs.items ≡ map (λ e. e.value) entries.now) }
{
    let mut values = Vec::new(alloc);
    for entry in entries {
        values.push(entry.value)?;
    }
    Ok(values)
}

// The procedure at its start.
fn start<'p>(alloc: Global, typed: &'p Typed, begin: &Begin) -> Result<Config<'p>, AllocError>
    requires fits { FitsProgram (program_of typed.now) begin.now }
    ensures begun { IfOk result (IsAtBegin (program_of typed.now) begin.now) }
    ensures made { IfOk result (IsMadeFor (program_of typed.now)) }
{
    let procedure = &typed.program().procedures[usize::from(begin.procedure)];
    let values = values(alloc, begin.store.entries())?;
    let count = procedure.parameters.len();
    Config::start(
        alloc,
        typed,
        begin.procedure,
        &values[..count],
        &values[count..],
        begin.heap.copy(alloc)?,
    )
}

// The state of the topmost activation.
fn state_of(alloc: Global, typed: &Typed, config: &Config<'_>) -> Result<State, AllocError>
    requires made { IsMadeFor (program_of typed.now) config.now }
    ensures state { IfOk result (IsStateOf (config_of config.now)) }
{
    Ok(State {
        store: config.store().copy(alloc)?,
        heap: config.heap().copy(alloc)?,
    })
}

// Whether the part that meets what the procedure needs has given way to one that meets what it gives,
// and the rest stayed.
fn is_met(
    alloc: Global,
    procedure: &Procedure,
    begin: &Begin,
    last: &State,
) -> Result<bool, AllocError>
    ensures { IfOk result (λ b. IsTrue b ↔ HasGivenWay (procedure_of procedure.now) begin.now last.now) }
{
    let needed = Part {
        assertion: &procedure.needs,
        store: &begin.store,
        heap: &begin.heap,
    };
    let Some(other) = replacement(alloc, needed, &last.heap)? else {
        return Ok(false);
    };
    meets_one_of(alloc, &last.store, &other, procedure.gives.as_slice())
}

/// Runs a procedure from a state, at most `limit` steps: a new cell stands at the least free place and
/// contains 0, and a callee's results and locals begin with 0.
///
/// A step costs a search for each place that it reads, writes or chooses, and allocates only at a call.
pub fn simulate(
    alloc: Global,
    typed: &Typed,
    begin: &Begin,
    limit: u32,
) -> Result<Report, AllocError>
    requires fits { FitsProgram (program_of typed.now) begin.now }
    requires room { len begin.now.heap + limit ≤ 4294967295 }
    ensures { IfOk result (IsReport (program_of typed.now) begin.now limit) }
{
    let procedure = &typed.program().procedures[usize::from(begin.procedure)];
    let needed = Part {
        assertion: &procedure.needs,
        store: &begin.store,
        heap: &begin.heap,
    };
    if !has_part(alloc, needed)? {
        return Ok(Report::Unmet);
    }
    let mut config = start(alloc, typed, begin)?;
    let (steps, halt) = run_ruled(alloc, typed, &mut config, limit)?;
    let state = state_of(alloc, typed, &config)?;
    match halt {
        Halt::Stopped => Ok(Report::Stopped { steps, state }),
        Halt::Faulted => Ok(Report::Faulted { steps, state }),
        Halt::Ended => {
            let met = is_met(alloc, procedure, begin, &state)?;
            Ok(Report::Ended { steps, state, met })
        }
    }
}
