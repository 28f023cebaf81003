// Copies of assertions and of lists of names.

ghost use Rattle.std.specs.Prelude.{◌≡◌, ◌++◌, map, IfOk, OnOk};
ghost use Rattle.gh_ast.specs.Plain.{compare, cond_of, comparison, points_to, segment, assertion_of, procedure_of};
ghost use Rattle.gh_ast.specs.Occurrences.{variables_of};

use gh_ast::{Assertion, Cond, Expr, Occ, Operand, Procedure};
use std::alloc::{AllocError, Global};

fn copy_occ(alloc: Global, occ: &Occ) -> Result<Occ, AllocError>
    ensures { IfOk result (λ o. o ≡ occ.now) }
{
    Ok(Occ {
        name: occ.name.copy(alloc)?,
        span: occ.span,
    })
}

fn copy_operand(alloc: Global, operand: &Operand) -> Result<Operand, AllocError>
    ensures { IfOk result (λ o. o ≡ operand.now) }
{
    match operand {
        Operand::Null { span } => Ok(Operand::Null { span: *span }),
        Operand::Var(occ) => Ok(Operand::Var(copy_occ(alloc, occ)?)),
    }
}

fn copy_expr(alloc: Global, expr: &Expr) -> Result<Expr, AllocError>
    ensures { IfOk result (λ e. e ≡ expr.now) }
{
    match expr {
        Expr::Plain(operand) => Ok(Expr::Plain(copy_operand(alloc, operand)?)),
        Expr::Read(occ) => Ok(Expr::Read(copy_occ(alloc, occ)?)),
    }
}

// A copy of a comparison of a test.
fn copy_compare(alloc: Global, left: &Expr, equal: bool, right: &Expr) -> Result<Cond, AllocError>
    ensures { IfOk result (λ t. cond_of t ≡ compare left.now equal right.now) }
{
    Ok(Cond::Compare {
        left: copy_expr(alloc, left)?,
        equal,
        right: copy_expr(alloc, right)?,
    })
}

#[cycle(tests)]
fn copy_test(alloc: Global, test: &Cond) -> Result<Cond, AllocError>
    ensures { IfOk result (λ t. cond_of t ≡ cond_of test.now) }
{
    match test {
        Cond::Compare { left, equal, right } => copy_compare(alloc, left, *equal, right),
        Cond::Not(inner) => Ok(Cond::Not(boxed_test(alloc, inner)?)),
        Cond::And(members) => Ok(Cond::And(copy_tests(alloc, members.as_slice())?)),
        Cond::Or(members) => Ok(Cond::Or(copy_tests(alloc, members.as_slice())?)),
    }
}

// A copy of a test in a box.
#[cycle(tests)]
fn boxed_test(alloc: Global, test: &Cond) -> Result<Box<Cond>, AllocError>
    ensures { IfOk result (λ b. cond_of b.value ≡ cond_of test.now) }
{
    Ok(Box::new(alloc, copy_test(alloc, test)?)?)
}

#[cycle(tests)]
fn copy_tests(alloc: Global, tests: &[Cond]) -> Result<Vec<Cond>, AllocError>
    ensures { IfOk result (λ v. map cond_of v.items ≡ map cond_of tests.now) }
{
    let mut copies = Vec::new(alloc);
    for test in tests {
        copies.push(copy_test(alloc, test)?)?;
    }
    Ok(copies)
}

// A copy of a comparison.
fn copy_comparison(
    alloc: Global,
    left: &Operand,
    equal: bool,
    right: &Operand,
) -> Result<Assertion, AllocError>
    ensures { IfOk result (λ f. assertion_of f ≡ comparison left.now equal right.now) }
{
    Ok(Assertion::Pure {
        left: copy_operand(alloc, left)?,
        equal,
        right: copy_operand(alloc, right)?,
    })
}

// A copy of a cell with its content.
fn copy_points_to(alloc: Global, at: &Occ, to: &Operand) -> Result<Assertion, AllocError>
    ensures { IfOk result (λ f. assertion_of f ≡ points_to at.now to.now) }
{
    Ok(Assertion::PointsTo {
        at: copy_occ(alloc, at)?,
        to: copy_operand(alloc, to)?,
    })
}

// A copy of a segment.
fn copy_segment(alloc: Global, from: &Operand, to: &Operand) -> Result<Assertion, AllocError>
    ensures { IfOk result (λ f. assertion_of f ≡ segment from.now to.now) }
{
    Ok(Assertion::Lseg {
        from: copy_operand(alloc, from)?,
        to: copy_operand(alloc, to)?,
    })
}

/// A copy of an assertion.
#[cycle(assertion)]
pub fn copy_assertion(alloc: Global, assertion: &Assertion) -> Result<Assertion, AllocError>
    ensures { IfOk result (λ f. assertion_of f ≡ assertion_of assertion.now) }
{
    match assertion {
        Assertion::Emp => Ok(Assertion::Emp),
        Assertion::Pure { left, equal, right } => copy_comparison(alloc, left, *equal, right),
        Assertion::PointsTo { at, to } => copy_points_to(alloc, at, to),
        Assertion::Acc { at } => Ok(Assertion::Acc {
            at: copy_occ(alloc, at)?,
        }),
        Assertion::Lseg { from, to } => copy_segment(alloc, from, to),
        Assertion::Star(members) => Ok(Assertion::Star(copy_assertions(
            alloc,
            members.as_slice(),
        )?)),
        Assertion::Cases { test, yes, no } => Ok(Assertion::Cases {
            test: copy_test(alloc, test)?,
            yes: boxed_assertion(alloc, yes)?,
            no: boxed_assertion(alloc, no)?,
        }),
    }
}

// A copy of an assertion in a box.
#[cycle(assertion)]
fn boxed_assertion(alloc: Global, assertion: &Assertion) -> Result<Box<Assertion>, AllocError>
    ensures { IfOk result (λ b. assertion_of b.value ≡ assertion_of assertion.now) }
{
    Ok(Box::new(alloc, copy_assertion(alloc, assertion)?)?)
}

/// Copies of some assertions.
#[cycle(assertion)]
pub fn copy_assertions(
    alloc: Global,
    assertions: &[Assertion],
) -> Result<Vec<Assertion>, AllocError>
    ensures { IfOk result (λ v. map assertion_of v.items ≡ map assertion_of assertions.now) }
{
    let mut copies = Vec::new(alloc);
    for assertion in assertions {
        copies.push(copy_assertion(alloc, assertion)?)?;
    }
    Ok(copies)
}

// Adds copies of some occurrences.
fn push_occs(alloc: Global, all: &mut Vec<Occ>, occs: &[Occ]) -> Result<(), AllocError>
    ensures { OnOk result (all.new.items ≡ all.old.items ++ occs.now) }
{
    for occ in occs {
        all.push(copy_occ(alloc, occ)?)?;
    }
    Ok(())
}

/// The variables of a procedure, in their order.
pub fn copy_variables(alloc: Global, procedure: &Procedure) -> Result<Vec<Occ>, AllocError>
    ensures { IfOk result (λ v. v.items ≡ variables_of (procedure_of procedure.now)) }
{
    let mut all = Vec::new(alloc);
    push_occs(alloc, &mut all, procedure.parameters.as_slice())?;
    push_occs(alloc, &mut all, procedure.results.as_slice())?;
    if let Some(body) = &procedure.body {
        push_occs(alloc, &mut all, body.locals.as_slice())?;
    }
    Ok(all)
}
