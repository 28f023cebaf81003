//! The essence of a condition.

ghost use Rattle.std.specs.Prelude.{◌≡◌, ◌++◌, map, filter, IfOk};
ghost use Rattle.gh_ast.specs.Plain.{procedure_of, program_of, statements_view};
ghost use Rattle.gh_ast.specs.Bare.{bare_expr};
ghost use Rattle.gh_ast.specs.Programs.{names, variable_names};
ghost use Rattle.gh_path.specs.Graphs.{loops_of};
ghost use Rattle.gh_path.specs.Kept.{check_of, condition_of, IsOne, start_of, step_of};
ghost use Rattle.gh_path.specs.Terms.{some_assigns};
ghost use Rattle.gh_path.specs.Walking.{loop_of};
ghost use Rattle.gh_session.specs.Numbering.{listed};
ghost use Rattle.gh_session.specs.Essences as plain;
ghost use Rattle.gh_session.specs.Views.{contract_view, loop_contract_view, start_view, step_view, check_view};
ghost use Rattle.gh_session.specs.Views.{essence_view, AreContractsAt, AreLoopContractsAt, IsEssenceIn};
ghost use Rattle.gh_session.specs.Laws.{HasEssence};

use crate::bare::{assertion, assertions, expr, exprs, names};
use crate::numbers::{add, place};
use gh_ast::typed::Typed;
use gh_ast::{Assertion, Expr, Occ, Procedure, Program, Stmt};
use gh_base::name::Name;
use gh_path::assigned::some_assigns;
use gh_path::condition::{self, CheckKind, Condition, PathStep};
use gh_path::loops::{While, loops_of};
use gh_trace::setting::procedure_in;
use std::alloc::{AllocError, Global};

/// What calls of a procedure rest on.
#[derive(Debug, Drop)]
pub struct Contract {
    pub parameters: Vec<Name>,
    pub results: Vec<Name>,
    pub needs: Assertion,
    /// The alternatives of what is ensured.
    pub gives: Vec<Assertion>,
}

/// An invariant, and the variables that the body assigns, in the order of the procedure's.
#[derive(Debug, Drop)]
pub struct LoopContract {
    pub invariant: Assertion,
    pub assigned: Vec<Name>,
}

/// Where the path begins. `number` is a place in the list of loops.
#[derive(Clone, Copy, Debug, PartialEq, Eq)]
pub enum Start {
    Entry,
    Loop { number: usize },
}

/// One step. `contract` is a place in the list of contracts, `number` one in that of loops.
#[derive(Debug, Drop)]
pub enum Step {
    Access {
        at: Name,
    },
    Assume {
        left: Expr,
        equal: bool,
        right: Expr,
    },
    Set {
        target: Name,
        value: Expr,
    },
    New {
        target: Name,
    },
    Write {
        at: Name,
        value: Expr,
    },
    Free {
        at: Name,
    },
    Call {
        targets: Vec<Name>,
        contract: usize,
        arguments: Vec<Expr>,
    },
    Loop {
        number: usize,
    },
    Return {
        values: Vec<Expr>,
    },
}

/// What is asked at the end.
#[derive(Debug, Drop)]
pub enum Check {
    Access {
        at: Name,
    },
    Entry {
        contract: usize,
        arguments: Vec<Expr>,
    },
    LoopEntry {
        number: usize,
    },
    Return,
    LoopEnd {
        number: usize,
    },
}

/// All that the counterexamples of a condition depend on. Every place in it is 1:1.
#[derive(Debug, Drop)]
pub struct Essence {
    pub variables: Vec<Name>,
    pub contracts: Vec<Contract>,
    pub loops: Vec<LoopContract>,
    pub start: Start,
    pub steps: Vec<Step>,
    pub check: Check,
}

// Adds the callee of a step.
fn add_callee(numbers: &mut Vec<u16>, step: &PathStep) -> Result<(), AllocError>
    ensures { IfOk result (λ _. numbers.new.items ≡ listed numbers.old.items (plain.callees_in (step_of step.now))) }
{
    match step {
        PathStep::Call { callee, .. } => Ok(add(numbers, *callee)?),
        _ => Ok(()),
    }
}

// Adds the callee of a check.
fn add_entered(numbers: &mut Vec<u16>, check: &condition::Check) -> Result<(), AllocError>
    ensures { IfOk result (λ _. numbers.new.items ≡ listed numbers.old.items (plain.callees_at (check_of check.now))) }
{
    match &check.kind {
        CheckKind::CalleeEntry { callee, .. } => Ok(add(numbers, *callee)?),
        _ => Ok(()),
    }
}

// Adds the loop of a step.
fn add_loop(numbers: &mut Vec<u16>, step: &PathStep) -> Result<(), AllocError>
    ensures { IfOk result (λ _. numbers.new.items ≡ listed numbers.old.items (plain.loops_in (step_of step.now))) }
{
    match step {
        PathStep::Loop { number } => Ok(add(numbers, *number)?),
        _ => Ok(()),
    }
}

// Adds the loop of a check.
fn add_looped(numbers: &mut Vec<u16>, check: &condition::Check) -> Result<(), AllocError>
    ensures { IfOk result (λ _. numbers.new.items ≡ listed numbers.old.items (plain.loops_at (check_of check.now))) }
{
    match &check.kind {
        CheckKind::LoopEntry { number } => Ok(add(numbers, *number)?),
        CheckKind::LoopEnd { number } => Ok(add(numbers, *number)?),
        _ => Ok(()),
    }
}

// The loop of a start.
fn loops_from(alloc: Global, start: condition::Start) -> Result<Vec<u16>, AllocError>
    ensures { IfOk result (λ v. v.items ≡ plain.loops_from (start_of start)) }
{
    let mut numbers = Vec::new(alloc);
    match start {
        condition::Start::Entry => Ok(numbers),
        condition::Start::Loop { number } => {
            numbers.push(number)?;
            Ok(numbers)
        }
    }
}

// The procedures that a condition names, its own first.
fn procedures_of(alloc: Global, condition: &Condition) -> Result<Vec<u16>, AllocError>
    ensures { IfOk result (λ v. v.items ≡ plain.procedures_of (condition_of condition.now)) }
{
    let mut numbers = Vec::new(alloc);
    numbers.push(condition.procedure)?;
    for step in condition.steps.as_slice() {
        add_callee(&mut numbers, step)?;
    }
    add_entered(&mut numbers, &condition.check)?;
    Ok(numbers)
}

// The loops that a condition names, that of its start first.
fn rounds_of(alloc: Global, condition: &Condition) -> Result<Vec<u16>, AllocError>
    ensures { IfOk result (λ v. v.items ≡ plain.loops_met (condition_of condition.now)) }
{
    let mut numbers = loops_from(alloc, condition.start)?;
    for step in condition.steps.as_slice() {
        add_loop(&mut numbers, step)?;
    }
    add_looped(&mut numbers, &condition.check)?;
    Ok(numbers)
}

// The step that assumes a comparison.
fn assume(alloc: Global, left: &Expr, equal: bool, right: &Expr) -> Result<Step, AllocError>
    ensures { IfOk result (λ s. step_view s ≡ plain.assume_step (bare_expr left.now) equal (bare_expr right.now)) }
{
    Ok(Step::Assume {
        left: expr(alloc, left)?,
        equal,
        right: expr(alloc, right)?,
    })
}

// The step that sets a variable.
fn set(alloc: Global, target: &Occ, value: &Expr) -> Result<Step, AllocError>
    ensures { IfOk result (λ s. step_view s ≡ plain.set_step target.now.name (bare_expr value.now)) }
{
    Ok(Step::Set {
        target: target.name.copy(alloc)?,
        value: expr(alloc, value)?,
    })
}

// The step that writes a cell.
fn write(alloc: Global, at: &Occ, value: &Expr) -> Result<Step, AllocError>
    ensures { IfOk result (λ s. step_view s ≡ plain.write_step at.now.name (bare_expr value.now)) }
{
    Ok(Step::Write {
        at: at.name.copy(alloc)?,
        value: expr(alloc, value)?,
    })
}

// The call of the procedure with a contract.
fn call(
    alloc: Global,
    targets: &[Occ],
    contract: usize,
    arguments: &[Expr],
) -> Result<Step, AllocError>
    ensures { IfOk result (λ s.
        step_view s ≡ plain.call_step (names targets.now) contract (map bare_expr arguments.now)) }
{
    Ok(Step::Call {
        targets: names(alloc, targets)?,
        contract,
        arguments: exprs(alloc, arguments)?,
    })
}

// A step, its procedures and loops numbered by the lists.
fn step_in(
    alloc: Global,
    procedures: &[u16],
    loops: &[u16],
    step: &PathStep,
) -> Result<Step, AllocError>
    ensures { IfOk result (λ s. step_view s ≡ plain.step_in procedures.now loops.now (step_of step.now)) }
{
    match step {
        PathStep::Access { at } => Ok(Step::Access {
            at: at.name.copy(alloc)?,
        }),
        PathStep::Assume { left, equal, right } => Ok(assume(alloc, left, *equal, right)?),
        PathStep::Set { target, value } => Ok(set(alloc, target, value)?),
        PathStep::Write { at, value } => Ok(write(alloc, at, value)?),
        PathStep::New { target } => Ok(Step::New {
            target: target.name.copy(alloc)?,
        }),
        PathStep::Free { at } => Ok(Step::Free {
            at: at.name.copy(alloc)?,
        }),
        PathStep::Call {
            targets,
            callee,
            arguments,
        } => {
            let contract = place(*callee, procedures);
            Ok(call(alloc, targets.as_slice(), contract, arguments.as_slice())?)
        }
        PathStep::Loop { number } => Ok(Step::Loop {
            number: place(*number, loops),
        }),
        PathStep::Return { values } => Ok(Step::Return {
            values: exprs(alloc, values.as_slice())?,
        }),
    }
}

// A start, its loop numbered by the list.
fn start_in(loops: &[u16], start: condition::Start) -> Start
    ensures { start_view result ≡ plain.start_in loops.now (start_of start) }
{
    match start {
        condition::Start::Entry => Start::Entry,
        condition::Start::Loop { number } => Start::Loop {
            number: place(number, loops),
        },
    }
}

// A check, its procedure or loop numbered by the lists.
fn check_in(
    alloc: Global,
    procedures: &[u16],
    loops: &[u16],
    check: &condition::Check,
) -> Result<Check, AllocError>
    ensures { IfOk result (λ c. check_view c ≡ plain.check_in procedures.now loops.now (check_of check.now)) }
{
    match &check.kind {
        CheckKind::Access { at } => Ok(Check::Access {
            at: at.copy(alloc)?,
        }),
        CheckKind::CalleeEntry { callee, arguments } => Ok(Check::Entry {
            contract: place(*callee, procedures),
            arguments: exprs(alloc, arguments.as_slice())?,
        }),
        CheckKind::LoopEntry { number } => Ok(Check::LoopEntry {
            number: place(*number, loops),
        }),
        CheckKind::Return => Ok(Check::Return),
        CheckKind::LoopEnd { number } => Ok(Check::LoopEnd {
            number: place(*number, loops),
        }),
    }
}

// Some steps, their procedures and loops numbered by the lists.
fn steps_in(
    alloc: Global,
    procedures: &[u16],
    loops: &[u16],
    steps: &[PathStep],
) -> Result<Vec<Step>, AllocError>
    ensures { IfOk result (λ v.
        map step_view v.items ≡ map (plain.step_in procedures.now loops.now) (map step_of steps.now)) }
{
    let mut whole = Vec::new(alloc);
    for step in steps {
        whole.push(step_in(alloc, procedures, loops, step)?)?;
    }
    Ok(whole)
}

// The contract of a procedure.
fn contract_of(alloc: Global, procedure: &Procedure) -> Result<Contract, AllocError>
    ensures { IfOk result (λ k. contract_view k ≡ plain.contract_of (procedure_of procedure.now)) }
{
    Ok(Contract {
        parameters: names(alloc, procedure.parameters.as_slice())?,
        results: names(alloc, procedure.results.as_slice())?,
        needs: assertion(alloc, &procedure.needs)?,
        gives: assertions(alloc, procedure.gives.as_slice())?,
    })
}

// The contract of the procedure of a number.
fn contract_at(alloc: Global, procedures: &[Procedure], number: u16) -> Result<Contract, AllocError>
    ensures { IfOk result (λ k. contract_view k ≡ plain.contract_at (map procedure_of procedures.now) number) }
{
    match procedures.get(usize::from(number)) {
        Some(procedure) => Ok(contract_of(alloc, procedure)?),
        None => Ok(Contract {
            parameters: Vec::new(alloc),
            results: Vec::new(alloc),
            needs: Assertion::Emp,
            gives: Vec::new(alloc),
        }),
    }
}

// The contracts of the procedures of some numbers.
fn contracts(
    alloc: Global,
    procedures: &[Procedure],
    numbers: &[u16],
) -> Result<Vec<Contract>, AllocError>
    ensures { IfOk result (λ v. AreContractsAt (map procedure_of procedures.now) numbers.now v.items) }
{
    let mut whole = Vec::new(alloc);
    for number in numbers {
        whole.push(contract_at(alloc, procedures, *number)?)?;
    }
    Ok(whole)
}

// The variables that a body assigns.
fn assigned(alloc: Global, variables: &[Name], body: &[Stmt]) -> Result<Vec<Name>, AllocError>
    ensures { IfOk result (λ v. v.items ≡ filter (some_assigns (statements_view body.now)) variables.now) }
{
    let mut found = Vec::new(alloc);
    for variable in variables {
        if some_assigns(body, variable.bytes()) {
            found.push(variable.copy(alloc)?)?;
        }
    }
    Ok(found)
}

// The loop of a number among those of a procedure with these variables.
fn round_at(
    alloc: Global,
    variables: &[Name],
    loops: &[While<'_>],
    number: u16,
) -> Result<LoopContract, AllocError>
    ensures { IfOk result (λ r. loop_contract_view r ≡ plain.loop_contract_at variables.now (map loop_of loops.now) number) }
{
    match loops.get(usize::from(number)) {
        Some(round) => Ok(LoopContract {
            invariant: assertion(alloc, round.invariant)?,
            assigned: assigned(alloc, variables, round.body.statements.as_slice())?,
        }),
        None => Ok(LoopContract {
            invariant: Assertion::Emp,
            assigned: Vec::new(alloc),
        }),
    }
}

// The loops of some numbers.
fn rounds(
    alloc: Global,
    variables: &[Name],
    loops: &[While<'_>],
    numbers: &[u16],
) -> Result<Vec<LoopContract>, AllocError>
    ensures { IfOk result (λ v. AreLoopContractsAt variables.now (map loop_of loops.now) numbers.now v.items) }
{
    let mut whole = Vec::new(alloc);
    for number in numbers {
        whole.push(round_at(alloc, variables, loops, *number)?)?;
    }
    Ok(whole)
}

// The loops of some numbers, of a procedure with these variables.
fn rounds_in(
    alloc: Global,
    procedure: &Procedure,
    variables: &[Name],
    numbers: &[u16],
) -> Result<Vec<LoopContract>, AllocError>
    ensures { IfOk result (λ v.
        AreLoopContractsAt variables.now (loops_of (procedure_of procedure.now)) numbers.now v.items) }
{
    let found = loops_of(alloc, procedure)?;
    rounds(alloc, variables, found.as_slice(), numbers)
}

// Adds the names of some occurrences.
fn add_names(alloc: Global, found: &mut Vec<Name>, occs: &[Occ]) -> Result<(), AllocError>
    ensures { IfOk result (λ _. found.new.items ≡ found.old.items ++ names occs.now) }
{
    for one in occs {
        found.push(one.name.copy(alloc)?)?;
    }
    Ok(())
}

// The variables of a procedure.
fn variables_of(alloc: Global, procedure: &Procedure) -> Result<Vec<Name>, AllocError>
    ensures { IfOk result (λ v. v.items ≡ variable_names (procedure_of procedure.now)) }
{
    let mut found = names(alloc, procedure.parameters.as_slice())?;
    add_names(alloc, &mut found, procedure.results.as_slice())?;
    if let Some(body) = &procedure.body {
        add_names(alloc, &mut found, body.locals.as_slice())?;
    }
    Ok(found)
}

// The essence of a condition of a procedure, from the numbers of the procedures and of the loops that it names.
fn essence_by(
    alloc: Global,
    program: &Program,
    procedure: &Procedure,
    condition: &Condition,
    procedures: &[u16],
    loops: &[u16],
) -> Result<Essence, AllocError>
    requires procedures { procedures.now ≡ plain.procedures_of (condition_of condition.now) }
    requires loops { loops.now ≡ plain.loops_met (condition_of condition.now) }
    ensures { IfOk result (IsEssenceIn (program_of program.now) (procedure_of procedure.now) condition.now) }
{
    let variables = variables_of(alloc, procedure)?;
    let contracts = contracts(alloc, program.procedures.as_slice(), procedures)?;
    let rounds = rounds_in(alloc, procedure, variables.as_slice(), loops)?;
    let steps = steps_in(alloc, procedures, loops, condition.steps.as_slice())?;
    let check = check_in(alloc, procedures, loops, &condition.check)?;
    let start = start_in(loops, condition.start);
    Ok(Essence {
        variables,
        contracts,
        loops: rounds,
        start,
        steps,
        check,
    })
}

// The essence of a condition of a procedure.
fn essence_in(
    alloc: Global,
    program: &Program,
    procedure: &Procedure,
    condition: &Condition,
) -> Result<Essence, AllocError>
    ensures { IfOk result (IsEssenceIn (program_of program.now) (procedure_of procedure.now) condition.now) }
{
    let numbers = procedures_of(alloc, condition)?;
    let places = rounds_of(alloc, condition)?;
    let ps = numbers.as_slice();
    let ls = places.as_slice();
    essence_by(alloc, program, procedure, condition, ps, ls)
}

/// The essence of a condition of a typed program.
pub fn essence_of(
    alloc: Global,
    typed: &Typed,
    condition: &Condition,
) -> Result<Essence, AllocError>
    requires { IsOne (program_of typed.now) condition.now }
    ensures { IfOk result (λ e. HasEssence (program_of typed.now) (condition_of condition.now) (essence_view e)) }
{
    let program = typed.program();
    let Some(procedure) = procedure_in(program, condition.procedure) else {
        unreachable!()
    };
    Ok(essence_in(alloc, program, procedure, condition)?)
}
