//! A number that is computed from an essence, by which the essence is found.

ghost use Rattle.std.specs.Prelude.{◌≡◌, map};
ghost use Rattle.gh_ast.specs.Plain.{cond_of, conds_view, comparison, assertion_of, assertions_view};
ghost use Rattle.gh_session.specs.Fingerprint as plain;
ghost use Rattle.gh_session.specs.Views.{contract_view, loop_contract_view, start_view, step_view, check_view};
ghost use Rattle.gh_session.specs.Views.{essence_view};

use crate::essence::{Check, Contract, Essence, LoopContract, Start, Step};
use gh_ast::{Assertion, Cond, Expr, Operand};
use gh_base::name::Name;

// A number with one more mixed in.
fn mix(hash: u64, number: u64) -> u64
    ensures { result ≡ plain.mixed hash number }
{
    hash.wrapping_mul(1_099_511_628_211).wrapping_add(number)
}

// With a name mixed in.
fn with_name(hash: u64, name: &Name) -> u64
    ensures { result ≡ plain.with_name hash name.now }
{
    let mut mixed = mix(hash, name.bytes().len() as u64);
    for byte in name.bytes() {
        mixed = mix(mixed, u64::from(*byte));
    }
    mixed
}

// With some names mixed in.
fn with_names(hash: u64, names: &[Name]) -> u64
    ensures { result ≡ plain.counted plain.with_name hash names.now }
{
    let mut mixed = mix(hash, names.len() as u64);
    for name in names {
        mixed = with_name(mixed, name);
    }
    mixed
}

// With an operand mixed in.
fn with_operand(hash: u64, operand: &Operand) -> u64
    ensures { result ≡ plain.with_operand hash operand.now }
{
    match operand {
        Operand::Null { .. } => mix(hash, 1),
        Operand::Var(variable) => with_name(mix(hash, 2), &variable.name),
    }
}

// With an expression mixed in.
fn with_expr(hash: u64, expr: &Expr) -> u64
    ensures { result ≡ plain.with_expr hash expr.now }
{
    match expr {
        Expr::Plain(operand) => with_operand(hash, operand),
        Expr::Read(variable) => with_name(mix(hash, 3), &variable.name),
    }
}

// With some expressions mixed in.
fn with_exprs(hash: u64, exprs: &[Expr]) -> u64
    ensures { result ≡ plain.counted plain.with_expr hash exprs.now }
{
    let mut mixed = mix(hash, exprs.len() as u64);
    for expr in exprs {
        mixed = with_expr(mixed, expr);
    }
    mixed
}

// With a test mixed in.
#[cycle(any_test)]
fn with_cond(hash: u64, test: &Cond) -> u64
    ensures { result ≡ plain.with_cond hash (cond_of test.now) }
{
    match test {
        Cond::Compare { left, equal, right } => {
            let way = if *equal { 21 } else { 22 };
            with_expr(with_expr(mix(hash, way), left), right)
        }
        Cond::Not(inner) => with_cond(mix(hash, 23), inner),
        Cond::And(members) => with_conds(mix(hash, 24), members.as_slice()),
        Cond::Or(members) => with_conds(mix(hash, 25), members.as_slice()),
    }
}

// With the members of a test mixed in.
#[cycle(any_test)]
fn with_conds(hash: u64, members: &[Cond]) -> u64
    ensures { result ≡ plain.with_conds hash (conds_view members.now) }
{
    let mut mixed = hash;
    for member in members {
        mixed = with_cond(mixed, member);
    }
    mix(mixed, 26)
}

// With a comparison of an assertion mixed in.
fn with_comparison(hash: u64, left: &Operand, equal: bool, right: &Operand) -> u64
    ensures { result ≡ plain.with_assertion hash (comparison left.now equal right.now) }
{
    let way = if equal { 28 } else { 29 };
    with_operand(with_operand(mix(hash, way), left), right)
}

// With an assertion mixed in.
#[cycle(assertion)]
fn with_assertion(hash: u64, whole: &Assertion) -> u64
    ensures { result ≡ plain.with_assertion hash (assertion_of whole.now) }
{
    match whole {
        Assertion::Emp => mix(hash, 27),
        Assertion::Pure { left, equal, right } => with_comparison(hash, left, *equal, right),
        Assertion::PointsTo { at, to } => with_operand(with_name(mix(hash, 30), &at.name), to),
        Assertion::Acc { at } => with_name(mix(hash, 31), &at.name),
        Assertion::Lseg { from, to } => with_operand(with_operand(mix(hash, 32), from), to),
        Assertion::Star(members) => with_assertions(mix(hash, 33), members.as_slice()),
        Assertion::Cases { test, yes, no } => {
            let tested = with_cond(mix(hash, 34), test);
            with_assertion(with_assertion(tested, yes), no)
        }
    }
}

// With the members of an assertion mixed in.
#[cycle(assertion)]
fn with_assertions(hash: u64, members: &[Assertion]) -> u64
    ensures { result ≡ plain.with_assertions hash (assertions_view members.now) }
{
    let mut mixed = hash;
    for member in members {
        mixed = with_assertion(mixed, member);
    }
    mix(mixed, 35)
}

// With some alternatives mixed in.
fn counted_assertions(hash: u64, members: &[Assertion]) -> u64
    ensures { result ≡ plain.counted plain.with_assertion hash (map assertion_of members.now) }
{
    let mut mixed = mix(hash, members.len() as u64);
    for member in members {
        mixed = with_assertion(mixed, member);
    }
    mixed
}

// With a contract mixed in.
fn with_contract(hash: u64, contract: &Contract) -> u64
    ensures { result ≡ plain.with_contract hash (contract_view contract.now) }
{
    let parameters = with_names(hash, contract.parameters.as_slice());
    let results = with_names(parameters, contract.results.as_slice());
    let needs = with_assertion(results, &contract.needs);
    counted_assertions(needs, contract.gives.as_slice())
}

// With some contracts mixed in.
fn with_contracts(hash: u64, contracts: &[Contract]) -> u64
    ensures { result ≡ plain.counted plain.with_contract hash (map contract_view contracts.now) }
{
    let mut mixed = mix(hash, contracts.len() as u64);
    for contract in contracts {
        mixed = with_contract(mixed, contract);
    }
    mixed
}

// With a loop mixed in.
fn with_loop_contract(hash: u64, round: &LoopContract) -> u64
    ensures { result ≡ plain.with_loop_contract hash (loop_contract_view round.now) }
{
    with_assertion(
        with_names(hash, round.assigned.as_slice()),
        &round.invariant,
    )
}

// With some loops mixed in.
fn with_rounds(hash: u64, rounds: &[LoopContract]) -> u64
    ensures { result ≡ plain.counted plain.with_loop_contract hash (map loop_contract_view rounds.now) }
{
    let mut mixed = mix(hash, rounds.len() as u64);
    for round in rounds {
        mixed = with_loop_contract(mixed, round);
    }
    mixed
}

// With a start mixed in.
fn with_start(hash: u64, start: Start) -> u64
    ensures { result ≡ plain.with_start hash (start_view start) }
{
    match start {
        Start::Entry => mix(hash, 4),
        Start::Loop { number } => mix(mix(hash, 5), number as u64),
    }
}

// With a step mixed in.
fn with_step(hash: u64, step: &Step) -> u64
    ensures { result ≡ plain.with_step hash (step_view step.now) }
{
    match step {
        Step::Access { at } => with_name(mix(hash, 6), at),
        Step::Assume { left, equal, right } => {
            let way = if *equal { 7 } else { 8 };
            with_expr(with_expr(mix(hash, way), left), right)
        }
        Step::Set { target, value } => with_expr(with_name(mix(hash, 9), target), value),
        Step::New { target } => with_name(mix(hash, 10), target),
        Step::Write { at, value } => with_expr(with_name(mix(hash, 11), at), value),
        Step::Free { at } => with_name(mix(hash, 12), at),
        Step::Call {
            targets,
            contract,
            arguments,
        } => {
            let called = mix(mix(hash, 13), *contract as u64);
            with_exprs(with_names(called, targets.as_slice()), arguments.as_slice())
        }
        Step::Loop { number } => mix(mix(hash, 14), *number as u64),
        Step::Return { values } => with_exprs(mix(hash, 15), values.as_slice()),
    }
}

// With some steps mixed in.
fn with_steps(hash: u64, steps: &[Step]) -> u64
    ensures { result ≡ plain.counted plain.with_step hash (map step_view steps.now) }
{
    let mut mixed = mix(hash, steps.len() as u64);
    for step in steps {
        mixed = with_step(mixed, step);
    }
    mixed
}

// With a check mixed in.
fn with_check(hash: u64, check: &Check) -> u64
    ensures { result ≡ plain.with_check hash (check_view check.now) }
{
    match check {
        Check::Access { at } => with_name(mix(hash, 16), at),
        Check::Entry {
            contract,
            arguments,
        } => with_exprs(mix(mix(hash, 17), *contract as u64), arguments.as_slice()),
        Check::LoopEntry { number } => mix(mix(hash, 18), *number as u64),
        Check::Return => mix(hash, 19),
        Check::LoopEnd { number } => mix(mix(hash, 20), *number as u64),
    }
}

/// The number that is computed from an essence.
pub fn fingerprint(essence: &Essence) -> u64
    ensures { result ≡ plain.fingerprint (essence_view essence.now) }
{
    let variables = with_names(0, essence.variables.as_slice());
    let contracts = with_contracts(variables, essence.contracts.as_slice());
    let rounds = with_rounds(contracts, essence.loops.as_slice());
    let start = with_start(rounds, essence.start);
    let steps = with_steps(start, essence.steps.as_slice());
    with_check(steps, &essence.check)
}
