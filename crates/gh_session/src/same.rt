//! Whether two parts of essences are one.

ghost use Rattle.std.specs.Prelude.{◌≡◌, ◌↔◌, map, IsTrue};
ghost use Rattle.gh_ast.specs.Plain.{cond_of, comparison, points_to, segment, assertion_of};

use gh_ast::{Assertion, Cond, Expr, Occ, Operand};
use gh_base::name::Name;

/// Whether two names are one.
pub fn is_same_name(one: &Name, other: &Name) -> bool
    ensures { IsTrue result ↔ (one.now ≡ other.now) }
{
    one.bytes() == other.bytes()
}

// Whether two occurrences are one.
fn is_same_occ(one: &Occ, other: &Occ) -> bool
    ensures { IsTrue result ↔ (one.now ≡ other.now) }
{
    is_same_name(&one.name, &other.name) && one.span == other.span
}

// Whether two operands are one.
fn is_same_operand(one: &Operand, other: &Operand) -> bool
    ensures { IsTrue result ↔ (one.now ≡ other.now) }
{
    match one {
        Operand::Null { span } => match other {
            Operand::Null { span: place } => span == place,
            Operand::Var(_) => false,
        },
        Operand::Var(variable) => match other {
            Operand::Null { .. } => false,
            Operand::Var(name) => is_same_occ(variable, name),
        },
    }
}

/// Whether two expressions are one.
pub fn is_same_expr(one: &Expr, other: &Expr) -> bool
    ensures { IsTrue result ↔ (one.now ≡ other.now) }
{
    match one {
        Expr::Plain(operand) => match other {
            Expr::Plain(value) => is_same_operand(operand, value),
            Expr::Read(_) => false,
        },
        Expr::Read(variable) => match other {
            Expr::Plain(_) => false,
            Expr::Read(name) => is_same_occ(variable, name),
        },
    }
}

// Whether two tests are one.
#[cycle(any_test)]
fn is_same_test(one: &Cond, other: &Cond) -> bool
    ensures { IsTrue result ↔ (cond_of one.now ≡ cond_of other.now) }
{
    match one {
        Cond::Compare { left, equal, right } => {
            let Cond::Compare {
                left: first,
                equal: way,
                right: second,
            } = other
            else {
                return false;
            };
            is_same_expr(left, first) && equal == way && is_same_expr(right, second)
        }
        Cond::Not(inner) => {
            let Cond::Not(part) = other else {
                return false;
            };
            is_same_test(inner, part)
        }
        Cond::And(members) => {
            let Cond::And(parts) = other else {
                return false;
            };
            are_same_tests(members.as_slice(), parts.as_slice())
        }
        Cond::Or(members) => {
            let Cond::Or(parts) = other else {
                return false;
            };
            are_same_tests(members.as_slice(), parts.as_slice())
        }
    }
}

// Whether two lists of tests are one.
#[cycle(any_test)]
fn are_same_tests(some: &[Cond], others: &[Cond]) -> bool
    ensures { IsTrue result ↔ (map cond_of some.now ≡ map cond_of others.now) }
{
    let mut left = others;
    for one in some {
        let Some((other, rest)) = left.split_first() else {
            return false;
        };
        if !is_same_test(one, other) {
            return false;
        }
        left = rest;
    }
    left.is_empty()
}

// Whether an assertion is this comparison.
fn is_comparison(left: &Operand, equal: bool, right: &Operand, assertion: &Assertion) -> bool
    ensures { IsTrue result ↔ (comparison left.now equal right.now ≡ assertion_of assertion.now) }
{
    let Assertion::Pure {
        left: first,
        equal: way,
        right: second,
    } = assertion
    else {
        return false;
    };
    is_same_operand(left, first) && equal == *way && is_same_operand(right, second)
}

// Whether an assertion is this cell with its content.
fn is_points_to(at: &Occ, to: &Operand, assertion: &Assertion) -> bool
    ensures { IsTrue result ↔ (points_to at.now to.now ≡ assertion_of assertion.now) }
{
    let Assertion::PointsTo {
        at: place,
        to: content,
    } = assertion
    else {
        return false;
    };
    is_same_occ(at, place) && is_same_operand(to, content)
}

// Whether an assertion is this segment.
fn is_segment(from: &Operand, to: &Operand, assertion: &Assertion) -> bool
    ensures { IsTrue result ↔ (segment from.now to.now ≡ assertion_of assertion.now) }
{
    let Assertion::Lseg {
        from: first,
        to: second,
    } = assertion
    else {
        return false;
    };
    is_same_operand(from, first) && is_same_operand(to, second)
}

/// Whether two assertions are one.
#[cycle(assertion)]
pub fn is_same_assertion(one: &Assertion, other: &Assertion) -> bool
    ensures { IsTrue result ↔ (assertion_of one.now ≡ assertion_of other.now) }
{
    match one {
        Assertion::Emp => {
            let Assertion::Emp = other else {
                return false;
            };
            true
        }
        Assertion::Pure { left, equal, right } => is_comparison(left, *equal, right, other),
        Assertion::PointsTo { at, to } => is_points_to(at, to, other),
        Assertion::Acc { at } => {
            let Assertion::Acc { at: place } = other else {
                return false;
            };
            is_same_occ(at, place)
        }
        Assertion::Lseg { from, to } => is_segment(from, to, other),
        Assertion::Star(members) => {
            let Assertion::Star(parts) = other else {
                return false;
            };
            are_same_assertions(members.as_slice(), parts.as_slice())
        }
        Assertion::Cases { test, yes, no } => {
            let Assertion::Cases {
                test: condition,
                yes: first,
                no: second,
            } = other
            else {
                return false;
            };
            is_same_test(test, condition)
                && is_same_assertion(yes, first)
                && is_same_assertion(no, second)
        }
    }
}

/// Whether two lists of assertions are one.
#[cycle(assertion)]
pub fn are_same_assertions(some: &[Assertion], others: &[Assertion]) -> bool
    ensures { IsTrue result ↔ (map assertion_of some.now ≡ map assertion_of others.now) }
{
    let mut left = others;
    for one in some {
        let Some((other, rest)) = left.split_first() else {
            return false;
        };
        if !is_same_assertion(one, other) {
            return false;
        }
        left = rest;
    }
    left.is_empty()
}
