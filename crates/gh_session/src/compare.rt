//! Whether two essences are one.

ghost use Rattle.std.specs.Prelude.{◌≡◌, ◌↔◌, map, IsTrue};
ghost use Rattle.gh_session.specs.Essences as plain;
ghost use Rattle.gh_session.specs.Views.{contract_view, loop_contract_view, start_view, step_view, check_view};
ghost use Rattle.gh_session.specs.Views.{essence_view};

use crate::essence::{Check, Contract, Essence, LoopContract, Start, Step};
use crate::same::{are_same_assertions, is_same_assertion, is_same_expr, is_same_name};
use gh_ast::Expr;
use gh_base::name::Name;

// Whether two lists of names are one.
fn are_same_names(some: &[Name], others: &[Name]) -> bool
    ensures { IsTrue result ↔ (some.now ≡ others.now) }
{
    let mut left = others;
    for one in some {
        let Some((other, rest)) = left.split_first() else {
            return false;
        };
        if !is_same_name(one, other) {
            return false;
        }
        left = rest;
    }
    left.is_empty()
}

// Whether two lists of expressions are one.
fn are_same_exprs(some: &[Expr], others: &[Expr]) -> bool
    ensures { IsTrue result ↔ (some.now ≡ others.now) }
{
    let mut left = others;
    for one in some {
        let Some((other, rest)) = left.split_first() else {
            return false;
        };
        if !is_same_expr(one, other) {
            return false;
        }
        left = rest;
    }
    left.is_empty()
}

// Whether two contracts are one.
fn is_same_contract(one: &Contract, other: &Contract) -> bool
    ensures { IsTrue result ↔ (contract_view one.now ≡ contract_view other.now) }
{
    are_same_names(one.parameters.as_slice(), other.parameters.as_slice())
        && are_same_names(one.results.as_slice(), other.results.as_slice())
        && is_same_assertion(&one.needs, &other.needs)
        && are_same_assertions(one.gives.as_slice(), other.gives.as_slice())
}

// Whether two lists of contracts are one.
fn are_same_contracts(some: &[Contract], others: &[Contract]) -> bool
    ensures { IsTrue result ↔ (map contract_view some.now ≡ map contract_view others.now) }
{
    let mut left = others;
    for one in some {
        let Some((other, rest)) = left.split_first() else {
            return false;
        };
        if !is_same_contract(one, other) {
            return false;
        }
        left = rest;
    }
    left.is_empty()
}

// Whether two loops are one.
fn is_same_round(one: &LoopContract, other: &LoopContract) -> bool
    ensures { IsTrue result ↔ (loop_contract_view one.now ≡ loop_contract_view other.now) }
{
    is_same_assertion(&one.invariant, &other.invariant)
        && are_same_names(one.assigned.as_slice(), other.assigned.as_slice())
}

// Whether two lists of loops are one.
fn are_same_rounds(some: &[LoopContract], others: &[LoopContract]) -> bool
    ensures { IsTrue result ↔ (map loop_contract_view some.now ≡ map loop_contract_view others.now) }
{
    let mut left = others;
    for one in some {
        let Some((other, rest)) = left.split_first() else {
            return false;
        };
        if !is_same_round(one, other) {
            return false;
        }
        left = rest;
    }
    left.is_empty()
}

// Whether two starts are one.
fn is_same_start(one: &Start, other: &Start) -> bool
    ensures { IsTrue result ↔ (start_view one.now ≡ start_view other.now) }
{
    match one {
        Start::Entry => {
            let Start::Entry = other else {
                return false;
            };
            true
        }
        Start::Loop { number } => {
            let Start::Loop { number: place } = other else {
                return false;
            };
            number == place
        }
    }
}

// Whether a step assumes this comparison.
fn is_assume(left: &Expr, equal: bool, right: &Expr, step: &Step) -> bool
    ensures { IsTrue result ↔ (plain.assume_step left.now equal right.now ≡ step_view step.now) }
{
    let Step::Assume {
        left: first,
        equal: way,
        right: second,
    } = step
    else {
        return false;
    };
    is_same_expr(left, first) && equal == *way && is_same_expr(right, second)
}

// Whether a step sets this variable to this value.
fn is_set(target: &Name, value: &Expr, step: &Step) -> bool
    ensures { IsTrue result ↔ (plain.set_step target.now value.now ≡ step_view step.now) }
{
    let Step::Set {
        target: name,
        value: content,
    } = step
    else {
        return false;
    };
    is_same_name(target, name) && is_same_expr(value, content)
}

// Whether a step writes this value at this variable.
fn is_write(at: &Name, value: &Expr, step: &Step) -> bool
    ensures { IsTrue result ↔ (plain.write_step at.now value.now ≡ step_view step.now) }
{
    let Step::Write {
        at: place,
        value: content,
    } = step
    else {
        return false;
    };
    is_same_name(at, place) && is_same_expr(value, content)
}

// Whether a step is this call.
fn is_call(targets: &[Name], contract: usize, arguments: &[Expr], step: &Step) -> bool
    ensures { IsTrue result ↔ (plain.call_step targets.now contract arguments.now ≡ step_view step.now) }
{
    let Step::Call {
        targets: names,
        contract: place,
        arguments: values,
    } = step
    else {
        return false;
    };
    are_same_names(targets, names.as_slice())
        && contract == *place
        && are_same_exprs(arguments, values.as_slice())
}

// Whether a step returns these values.
fn is_return(values: &[Expr], step: &Step) -> bool
    ensures { IsTrue result ↔ (plain.return_step values.now ≡ step_view step.now) }
{
    let Step::Return { values: contents } = step else {
        return false;
    };
    are_same_exprs(values, contents.as_slice())
}

// Whether two steps are one.
fn is_same_step(one: &Step, other: &Step) -> bool
    ensures { IsTrue result ↔ (step_view one.now ≡ step_view other.now) }
{
    match one {
        Step::Access { at } => {
            let Step::Access { at: place } = other else {
                return false;
            };
            is_same_name(at, place)
        }
        Step::Assume { left, equal, right } => is_assume(left, *equal, right, other),
        Step::Set { target, value } => is_set(target, value, other),
        Step::New { target } => {
            let Step::New { target: name } = other else {
                return false;
            };
            is_same_name(target, name)
        }
        Step::Write { at, value } => is_write(at, value, other),
        Step::Free { at } => {
            let Step::Free { at: place } = other else {
                return false;
            };
            is_same_name(at, place)
        }
        Step::Call {
            targets,
            contract,
            arguments,
        } => is_call(targets.as_slice(), *contract, arguments.as_slice(), other),
        Step::Loop { number } => {
            let Step::Loop { number: place } = other else {
                return false;
            };
            number == place
        }
        Step::Return { values } => is_return(values.as_slice(), other),
    }
}

// Whether two lists of steps are one.
fn are_same_steps(some: &[Step], others: &[Step]) -> bool
    ensures { IsTrue result ↔ (map step_view some.now ≡ map step_view others.now) }
{
    let mut left = others;
    for one in some {
        let Some((other, rest)) = left.split_first() else {
            return false;
        };
        if !is_same_step(one, other) {
            return false;
        }
        left = rest;
    }
    left.is_empty()
}

// Whether a check is that of this call's entry.
fn is_entry(contract: usize, arguments: &[Expr], check: &Check) -> bool
    ensures { IsTrue result ↔ (plain.callee_entry contract arguments.now ≡ check_view check.now) }
{
    let Check::Entry {
        contract: place,
        arguments: values,
    } = check
    else {
        return false;
    };
    contract == *place && are_same_exprs(arguments, values.as_slice())
}

// Whether two checks are one.
fn is_same_check(one: &Check, other: &Check) -> bool
    ensures { IsTrue result ↔ (check_view one.now ≡ check_view other.now) }
{
    match one {
        Check::Access { at } => {
            let Check::Access { at: place } = other else {
                return false;
            };
            is_same_name(at, place)
        }
        Check::Entry {
            contract,
            arguments,
        } => is_entry(*contract, arguments.as_slice(), other),
        Check::LoopEntry { number } => {
            let Check::LoopEntry { number: place } = other else {
                return false;
            };
            number == place
        }
        Check::Return => {
            let Check::Return = other else {
                return false;
            };
            true
        }
        Check::LoopEnd { number } => {
            let Check::LoopEnd { number: place } = other else {
                return false;
            };
            number == place
        }
    }
}

/// Whether two essences are one.
pub fn is_same_essence(one: &Essence, other: &Essence) -> bool
    ensures { IsTrue result ↔ (essence_view one.now ≡ essence_view other.now) }
{
    are_same_names(one.variables.as_slice(), other.variables.as_slice())
        && are_same_contracts(one.contracts.as_slice(), other.contracts.as_slice())
        && are_same_rounds(one.loops.as_slice(), other.loops.as_slice())
        && is_same_start(&one.start, &other.start)
        && are_same_steps(one.steps.as_slice(), other.steps.as_slice())
        && is_same_check(&one.check, &other.check)
}
