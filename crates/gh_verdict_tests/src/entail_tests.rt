// Answers to questions.

use gh_ast::question::{Claim, Question};
use gh_ast::{Assertion, Occ, Operand};
use gh_base::name::Name;
use gh_base::place::Span;
use gh_entail::admit::admit_question;
use gh_entail::answer::{Entailment, decide_question};
use std::alloc::{AllocError, Global};

// What is found: the question is entailed, or fails in a heap with so many cells, or isn't admitted.
#[derive(Clone, Copy, PartialEq, Eq)]
enum Found {
    Entailed,
    Cells(usize),
    Refused,
}

fn somewhere() -> Span {
    Span { line: 1, col: 1 }
}

fn occ(alloc: Global, text: &str) -> Result<Occ, AllocError> {
    match Name::new(alloc, text)? {
        Some(name) => Ok(Occ {
            name,
            span: somewhere(),
        }),
        None => Err(AllocError),
    }
}

fn var(alloc: Global, text: &str) -> Result<Operand, AllocError> {
    Ok(Operand::Var(occ(alloc, text)?))
}

fn null() -> Operand {
    Operand::Null { span: somewhere() }
}

// Two lists in a row: `lseg(x, y) &*& lseg(y, null)`.
fn two_lists(alloc: Global) -> Result<Claim, AllocError> {
    let mut members = Vec::new(alloc);
    let (x, y) = (var(alloc, "x")?, var(alloc, "y")?);
    members.push(Assertion::Lseg { from: x, to: y })?;
    let from = var(alloc, "y")?;
    members.push(Assertion::Lseg { from, to: null() })?;
    Ok(Claim::Leaf(Assertion::Star(members)))
}

// What is found of a question over `x` and one more variable.
fn decided(alloc: Global, second: &str, left: Claim, right: Claim) -> Result<Found, AllocError> {
    let mut variables = Vec::new(alloc);
    variables.push(occ(alloc, "x")?)?;
    variables.push(occ(alloc, second)?)?;
    let question = Question {
        variables,
        span: somewhere(),
        left,
        right,
    };
    let Ok(asked) = admit_question(alloc, question) else {
        return Ok(Found::Refused);
    };
    match decide_question(alloc, &asked)? {
        Entailment::Yes(_) => Ok(Found::Entailed),
        Entailment::No(state) => Ok(Found::Cells(state.heap.cells().len())),
    }
}

#[test]
fn lists_join(rt: HostRuntime) -> Result<(), AllocError> {
    let alloc = rt.alloc();
    let from = var(alloc, "x")?;
    let whole = Claim::Leaf(Assertion::Lseg { from, to: null() });
    let left = two_lists(alloc)?;
    assert!(rt; decided(alloc, "y", left, whole)? == Found::Entailed);
    Ok(())
}

#[test]
fn nothing_at_null(rt: HostRuntime) -> Result<(), AllocError> {
    let alloc = rt.alloc();
    let left = Claim::Leaf(Assertion::Pure {
        left: var(alloc, "x")?,
        equal: true,
        right: null(),
    });
    let at = occ(alloc, "x")?;
    let cell = Claim::Leaf(Assertion::Acc { at });
    assert!(rt; decided(alloc, "y", left, cell)? == Found::Cells(0));
    Ok(())
}

#[test]
fn variables_are_declared_once(rt: HostRuntime) -> Result<(), AllocError> {
    let alloc = rt.alloc();
    let left = Claim::Leaf(Assertion::Emp);
    let right = Claim::Leaf(Assertion::Emp);
    assert!(rt; decided(alloc, "x", left, right)? == Found::Refused);
    Ok(())
}
