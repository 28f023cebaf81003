//! Conditions that are settled, decided and refuted by models of their clauses, with traces replayed.

ghost use Rattle.std.specs.Prelude.{◌≡◌};
ghost use Rattle.gh_ast.specs.Limits.{KeepsLimits};
ghost use Rattle.gh_ast.specs.Plain.{program_of};
ghost use Rattle.gh_ast.specs.Rules.{IsTyped};
ghost use Rattle.gh_path.specs.Admitted.{IsAdmitted};
ghost use Rattle.gh_symb.specs.Encoded.{IsSymbolic};
ghost use Rattle.gh_path.specs.Kept.{IsOne, HoldsFor};

use gh_ast::typed::Typed;
use gh_decide::decide::{Verdict, decide, over_terms};
use gh_decide::direct::Direct;
use gh_decide::refuted::first_refuted;
use gh_ground::solve::{Answer, solve};
use gh_model::build::build;
use gh_parse::parse::parse;
use gh_path::condition::Condition;
use gh_path::conditions::Conditions;
use gh_path::listing::conditions;
use gh_reduce::ground::ground;
use gh_symb::admit::admit;
use gh_symb::over_terms::Symbolic;
use gh_texts::{CUT, DROP, FAULTY, LAST, REUSE, RING, SECOND};
use gh_trace::decider::Decider;
use gh_trace::replay::{ReplayError, replay};
use gh_trace::state::Trace;
use gh_types::check::check;
use gh_types::counts::MOST_BYTES;
use std::alloc::{AllocError, Global};

// What decides a condition: a decider, the decision itself, a model of its clauses, or a search for the first that is
// refuted.
#[derive(Clone, Copy)]
enum By {
    Settle,
    Decide,
    Model,
    First,
}

// What is found of a condition. Wrong: it isn't there, or its trace is no counterexample.
#[derive(Clone, Copy, PartialEq, Eq)]
enum Found {
    Valid,
    Refuted,
    Wrong,
}

// The trace that refutes a condition, by a decider.
fn settled(alloc: Global, typed: &Typed, condition: &Condition) -> Result<Option<Trace>, AllocError>
    requires admitted { IsAdmitted (program_of typed.now) }
    requires one { IsOne (program_of typed.now) condition.now }
{
    let mut direct = Direct::new();
    direct.settle(alloc, typed, condition)
}

// The trace that refutes a condition, by its verdict.
fn decided(alloc: Global, typed: &Typed, condition: &Condition) -> Result<Option<Trace>, AllocError>
    requires admitted { IsAdmitted (program_of typed.now) }
    requires one { IsOne (program_of typed.now) condition.now }
{
    match decide(alloc, typed, condition)? {
        Verdict::Valid(_) => Ok(None),
        Verdict::Refuted(trace) => Ok(Some(trace)),
    }
}

// The trace of a model of the clauses, if they have one.
fn modelled(
    alloc: Global,
    typed: &Typed,
    condition: &Condition,
    over: &Symbolic<'_>,
) -> Result<Option<Trace>, AllocError>
    requires one { IsOne (program_of typed.now) condition.now }
    requires told { HoldsFor (program_of typed.now) condition.now (λ P proc c. IsSymbolic P proc c over.now) }
{
    let clauses = ground(alloc, over)?;
    match solve(alloc, &clauses)? {
        Answer::Refutation(_) => Ok(None),
        Answer::Model(structure) => {
            let trace = build(alloc, typed, condition, over, &structure)?;
            Ok(Some(trace))
        }
    }
}

// The trace that refutes a condition, from a model of its clauses.
fn built(alloc: Global, typed: &Typed, condition: &Condition) -> Result<Option<Trace>, AllocError>
    requires admitted { IsAdmitted (program_of typed.now) }
    requires one { IsOne (program_of typed.now) condition.now }
{
    let over = over_terms(alloc, typed, condition)?;
    modelled(alloc, typed, condition, &over)
}

// The trace that refutes the condition of a number, if none before it is refuted.
fn first(
    alloc: Global,
    typed: &Typed,
    conditions: &Conditions<'_>,
    number: u32,
) -> Result<Option<Trace>, AllocError>
    requires same { program_of conditions.now ≡ program_of typed.now }
    requires admitted { IsAdmitted (program_of typed.now) }
{
    let Some(found) = first_refuted(alloc, typed, conditions)? else {
        return Ok(None);
    };
    if found.number == number {
        Ok(Some(found.trace))
    } else {
        Ok(None)
    }
}

fn refuting(
    alloc: Global,
    typed: &Typed,
    conditions: &Conditions<'_>,
    number: u32,
    condition: &Condition,
    by: By,
) -> Result<Option<Trace>, AllocError>
    requires same { program_of conditions.now ≡ program_of typed.now }
    requires admitted { IsAdmitted (program_of typed.now) }
    requires one { IsOne (program_of typed.now) condition.now }
{
    match by {
        By::Settle => settled(alloc, typed, condition),
        By::Decide => decided(alloc, typed, condition),
        By::Model => built(alloc, typed, condition),
        By::First => first(alloc, typed, conditions, number),
    }
}

// Whether a trace is a counterexample.
fn replays(
    alloc: Global,
    typed: &Typed,
    condition: &Condition,
    trace: &Trace,
) -> Result<bool, AllocError>
    requires { IsOne (program_of typed.now) condition.now }
{
    if condition.steps.as_slice().len() > 256 {
        return Ok(false);
    }
    match replay(alloc, typed, condition, trace) {
        Ok(()) => Ok(true),
        Err(ReplayError::Step { .. }) => Ok(false),
        Err(ReplayError::OutOfMemory) => Err(AllocError),
    }
}

// What is found of the condition of a number.
fn judged(
    alloc: Global,
    typed: &Typed,
    conditions: &Conditions<'_>,
    number: u32,
    by: By,
) -> Result<Found, AllocError>
    requires same { program_of conditions.now ≡ program_of typed.now }
    requires admitted { IsAdmitted (program_of typed.now) }
{
    let Some(condition) = conditions.condition(alloc, number)? else {
        return Ok(Found::Wrong);
    };
    let Some(trace) = refuting(alloc, typed, conditions, number, &condition, by)? else {
        return Ok(Found::Valid);
    };
    if replays(alloc, typed, &condition, &trace)? {
        Ok(Found::Refuted)
    } else {
        Ok(Found::Wrong)
    }
}

// The same of a program that keeps the rules and the limits on a text.
fn found_of(alloc: Global, typed: &Typed, number: u32, by: By) -> Result<Found, AllocError>
    requires typed { IsTyped (program_of typed.now) }
    requires limits { KeepsLimits (program_of typed.now) }
{
    let all = match conditions(alloc, typed) {
        Ok(all) => all,
        Err(_) => return Ok(Found::Wrong),
    };
    match admit(alloc, typed, &all) {
        Ok(()) => judged(alloc, typed, &all, number, by),
        Err(_) => Ok(Found::Wrong),
    }
}

fn found_in(alloc: Global, text: &[u8], number: u32, by: By) -> Result<Found, AllocError> {
    if text.len() > MOST_BYTES {
        return Ok(Found::Wrong);
    }
    let Ok(program) = parse(alloc, text) else {
        return Ok(Found::Wrong);
    };
    match check(alloc, program) {
        Ok(typed) => found_of(alloc, &typed, number, by),
        Err(_) => Ok(Found::Wrong),
    }
}

type Row<'a> = (&'a [u8], u32, Found);

// The first condition of which something else is found.
fn wrong(alloc: Global, rows: &[Row<'_>], by: By) -> Result<Option<usize>, AllocError> {
    for (place, row) in rows.iter().enumerate() {
        if found_in(alloc, row.0, row.1, by)? != row.2 {
            return Ok(Some(place));
        }
    }
    Ok(None)
}

const CELL: &[u8] = b"struct Node { var next: Node; }
procedure second(x: Node) returns (y: Node)
  requires acc(x)
  ensures acc(x)
{
  y := x.next;
}
";

const ROWS: &[Row<'static>] = &[
    (CELL, 1, Found::Valid),
    (SECOND, 1, Found::Refuted),
    (DROP, 2, Found::Refuted),
    (CUT, 2, Found::Refuted),
    (LAST, 2, Found::Refuted),
    (FAULTY, 2, Found::Refuted),
    (RING, 1, Found::Refuted),
    (REUSE, 2, Found::Refuted),
    (REUSE, 3, Found::Wrong),
];

#[test]
fn settled_conditions(rt: HostRuntime) -> Result<(), AllocError> {
    assert!(rt; wrong(rt.alloc(), ROWS, By::Settle)? == None);
    Ok(())
}

#[test]
fn decided_conditions(rt: HostRuntime) -> Result<(), AllocError> {
    assert!(rt; wrong(rt.alloc(), ROWS, By::Decide)? == None);
    Ok(())
}

const FIRSTS: &[Row<'static>] = &[
    (CELL, 1, Found::Valid),
    (FAULTY, 2, Found::Refuted),
    (RING, 1, Found::Refuted),
];

#[test]
fn first_conditions(rt: HostRuntime) -> Result<(), AllocError> {
    assert!(rt; wrong(rt.alloc(), FIRSTS, By::First)? == None);
    Ok(())
}

#[test]
fn models_of_clauses(rt: HostRuntime) -> Result<(), AllocError> {
    assert!(rt; wrong(rt.alloc(), ROWS, By::Model)? == None);
    Ok(())
}
