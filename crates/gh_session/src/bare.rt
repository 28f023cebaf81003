//! Copies in which every place is 1:1.

ghost use Rattle.std.specs.Prelude.{◌≡◌, map, IfOk};
ghost use Rattle.gh_ast.specs.Plain.{cond_of, compare, assertion_of, comparison, points_to, segment};
ghost use Rattle.gh_ast.specs.Bare.{bare_occ, bare_operand, bare_expr, bare_cond, bare_assertion};
ghost use Rattle.gh_ast.specs.Programs.{names};

use gh_ast::{Assertion, Cond, Expr, Occ, Operand};
use gh_base::name::Name;
use gh_base::place::Span;
use std::alloc::{AllocError, Global};

// Where each part stands that is copied here.
const FIRST: Span = Span { line: 1, col: 1 };

/// An occurrence at 1:1.
fn occ(alloc: Global, occ: &Occ) -> Result<Occ, AllocError>
    ensures { IfOk result (λ o. o ≡ bare_occ occ.now) }
{
    Ok(Occ {
        name: occ.name.copy(alloc)?,
        span: FIRST,
    })
}

/// An operand at 1:1.
fn operand(alloc: Global, operand: &Operand) -> Result<Operand, AllocError>
    ensures { IfOk result (λ o. o ≡ bare_operand operand.now) }
{
    match operand {
        Operand::Null { .. } => Ok(Operand::Null { span: FIRST }),
        Operand::Var(variable) => Ok(Operand::Var(occ(alloc, variable)?)),
    }
}

/// An expression at 1:1.
pub fn expr(alloc: Global, expr: &Expr) -> Result<Expr, AllocError>
    ensures { IfOk result (λ e. e ≡ bare_expr expr.now) }
{
    match expr {
        Expr::Plain(plain) => Ok(Expr::Plain(operand(alloc, plain)?)),
        Expr::Read(variable) => Ok(Expr::Read(occ(alloc, variable)?)),
    }
}

/// Some expressions at 1:1.
pub fn exprs(alloc: Global, exprs: &[Expr]) -> Result<Vec<Expr>, AllocError>
    ensures { IfOk result (λ v. v.items ≡ map bare_expr exprs.now) }
{
    let mut copies = Vec::new(alloc);
    for one in exprs {
        copies.push(expr(alloc, one)?)?;
    }
    Ok(copies)
}

/// The names of some occurrences.
pub fn names(alloc: Global, occs: &[Occ]) -> Result<Vec<Name>, AllocError>
    ensures { IfOk result (λ v. v.items ≡ names occs.now) }
{
    let mut copies = Vec::new(alloc);
    for one in occs {
        copies.push(one.name.copy(alloc)?)?;
    }
    Ok(copies)
}

// A comparison of a test at 1:1.
fn compare(alloc: Global, left: &Expr, equal: bool, right: &Expr) -> Result<Cond, AllocError>
    ensures { IfOk result (λ t. cond_of t ≡ bare_cond (compare left.now equal right.now)) }
{
    Ok(Cond::Compare {
        left: expr(alloc, left)?,
        equal,
        right: expr(alloc, right)?,
    })
}

/// A test at 1:1.
#[cycle(any_test)]
fn test(alloc: Global, test: &Cond) -> Result<Cond, AllocError>
    ensures { IfOk result (λ t. cond_of t ≡ bare_cond (cond_of test.now)) }
{
    match test {
        Cond::Compare { left, equal, right } => compare(alloc, left, *equal, right),
        Cond::Not(inner) => Ok(Cond::Not(boxed_test(alloc, inner)?)),
        Cond::And(members) => Ok(Cond::And(tests(alloc, members.as_slice())?)),
        Cond::Or(members) => Ok(Cond::Or(tests(alloc, members.as_slice())?)),
    }
}

// A test at 1:1, in a box.
#[cycle(any_test)]
fn boxed_test(alloc: Global, whole: &Cond) -> Result<Box<Cond>, AllocError>
    ensures { IfOk result (λ b. cond_of b.value ≡ bare_cond (cond_of whole.now)) }
{
    Ok(Box::new(alloc, test(alloc, whole)?)?)
}

/// Some tests at 1:1.
#[cycle(any_test)]
fn tests(alloc: Global, members: &[Cond]) -> Result<Vec<Cond>, AllocError>
    ensures { IfOk result (λ v. map cond_of v.items ≡ map (λ t. bare_cond (cond_of t)) members.now) }
{
    let mut copies = Vec::new(alloc);
    for member in members {
        copies.push(test(alloc, member)?)?;
    }
    Ok(copies)
}

// A comparison at 1:1.
fn comparison(
    alloc: Global,
    left: &Operand,
    equal: bool,
    right: &Operand,
) -> Result<Assertion, AllocError>
    ensures { IfOk result (λ a. assertion_of a ≡ bare_assertion (comparison left.now equal right.now)) }
{
    Ok(Assertion::Pure {
        left: operand(alloc, left)?,
        equal,
        right: operand(alloc, right)?,
    })
}

// A cell with its content at 1:1.
fn points_to(alloc: Global, at: &Occ, to: &Operand) -> Result<Assertion, AllocError>
    ensures { IfOk result (λ a. assertion_of a ≡ bare_assertion (points_to at.now to.now)) }
{
    Ok(Assertion::PointsTo {
        at: occ(alloc, at)?,
        to: operand(alloc, to)?,
    })
}

// A segment at 1:1.
fn segment(alloc: Global, from: &Operand, to: &Operand) -> Result<Assertion, AllocError>
    ensures { IfOk result (λ a. assertion_of a ≡ bare_assertion (segment from.now to.now)) }
{
    Ok(Assertion::Lseg {
        from: operand(alloc, from)?,
        to: operand(alloc, to)?,
    })
}

/// An assertion at 1:1.
#[cycle(assertion)]
pub fn assertion(alloc: Global, whole: &Assertion) -> Result<Assertion, AllocError>
    ensures { IfOk result (λ a. assertion_of a ≡ bare_assertion (assertion_of whole.now)) }
{
    match whole {
        Assertion::Emp => Ok(Assertion::Emp),
        Assertion::Pure { left, equal, right } => comparison(alloc, left, *equal, right),
        Assertion::PointsTo { at, to } => points_to(alloc, at, to),
        Assertion::Acc { at } => Ok(Assertion::Acc {
            at: occ(alloc, at)?,
        }),
        Assertion::Lseg { from, to } => segment(alloc, from, to),
        Assertion::Star(members) => Ok(Assertion::Star(assertions(alloc, members.as_slice())?)),
        Assertion::Cases { test, yes, no } => Ok(Assertion::Cases {
            test: crate::bare::test(alloc, test)?,
            yes: boxed(alloc, yes)?,
            no: boxed(alloc, no)?,
        }),
    }
}

// An assertion at 1:1, in a box.
#[cycle(assertion)]
fn boxed(alloc: Global, whole: &Assertion) -> Result<Box<Assertion>, AllocError>
    ensures { IfOk result (λ b. assertion_of b.value ≡ bare_assertion (assertion_of whole.now)) }
{
    Ok(Box::new(alloc, assertion(alloc, whole)?)?)
}

/// Some assertions at 1:1.
#[cycle(assertion)]
pub fn assertions(alloc: Global, members: &[Assertion]) -> Result<Vec<Assertion>, AllocError>
    ensures { IfOk result (λ v. map assertion_of v.items ≡ map (λ f. bare_assertion (assertion_of f)) members.now) }
{
    let mut copies = Vec::new(alloc);
    for member in members {
        copies.push(assertion(alloc, member)?)?;
    }
    Ok(copies)
}
