//! The formulas of comparisons and tests under a binding.

ghost use Rattle.std.specs.Prelude.{◌≡◌, IfOk};
ghost use Rattle.gh_ast.specs.Plain.{cond_of, conds_view};
ghost use Rattle.gh_grass.specs.Bindings.{bound_term};
ghost use Rattle.gh_grass.specs.Claims.{ground_formula_of, ground_formula_list};
ghost use Rattle.gh_grass.specs.Footprints.{operand_term, plain_term, compared, tested, all_tested, by_test_of};

use crate::binding::Binding;
use crate::formula::Formula;
use gh_ast::{Cond, Expr, Occ, Operand};
use gh_base::atom::Term;
use std::alloc::{AllocError, Global};

/// The term of a variable; one that isn't bound counts as null.
pub fn variable_term(binding: &Binding, variable: &Occ) -> Term
    ensures { result ≡ bound_term binding.now variable.now.name }
{
    binding.get(&variable.name).unwrap_or(Term(0))
}

/// The term of an operand.
pub fn term_of(binding: &Binding, operand: &Operand) -> Term
    ensures { result ≡ operand_term (bound_term binding.now) operand.now }
{
    match operand {
        Operand::Null { .. } => Term(0),
        Operand::Var(variable) => variable_term(binding, variable),
    }
}

// The term of an expression in a test of cases, which has no reads.
fn plain_expr_term(binding: &Binding, expr: &Expr) -> Term
    ensures { result ≡ plain_term (bound_term binding.now) expr.now }
{
    match expr {
        Expr::Plain(operand) => term_of(binding, operand),
        Expr::Read(_) => Term(0),
    }
}

/// `left` and `right` are equal where `equal` is true, and differ where it is false.
pub fn comparison(
    alloc: Global,
    left: Term,
    equal: bool,
    right: Term,
) -> Result<Formula, AllocError>
    ensures { IfOk result (λ f. ground_formula_of f ≡ compared left equal right) }
{
    let formula = Formula::equal(left, right);
    if equal {
        Ok(formula)
    } else {
        Ok(formula.negated(alloc)?)
    }
}

/// The formula of a test.
#[cycle(any_test)]
pub fn test_formula(alloc: Global, test: &Cond, binding: &Binding) -> Result<Formula, AllocError>
    ensures { IfOk result (λ f. ground_formula_of f ≡ tested (bound_term binding.now) (cond_of test.now)) }
{
    match test {
        Cond::Compare { left, equal, right } => {
            let left = plain_expr_term(binding, left);
            let right = plain_expr_term(binding, right);
            Ok(comparison(alloc, left, *equal, right)?)
        }
        Cond::Not(inner) => Ok(test_formula(alloc, inner, binding)?.negated(alloc)?),
        Cond::And(members) => Ok(Formula::And(test_formulas(alloc, members.as_slice(), binding)?)),
        Cond::Or(members) => Ok(Formula::Or(test_formulas(alloc, members.as_slice(), binding)?)),
    }
}

#[cycle(any_test)]
fn test_formulas(
    alloc: Global,
    tests: &[Cond],
    binding: &Binding,
) -> Result<Vec<Formula>, AllocError>
    ensures { IfOk result (λ fs. ground_formula_list fs.items ≡ all_tested (bound_term binding.now) (conds_view tests.now)) }
{
    let mut formulas = Vec::new(alloc);
    for test in tests {
        formulas.push(test_formula(alloc, test, binding)?)?;
    }
    Ok(formulas)
}

/// One of two formulas, by a test.
pub fn cases(
    alloc: Global,
    test: &Cond,
    binding: &Binding,
    taken: Formula,
    otherwise: Formula,
) -> Result<Formula, AllocError>
    ensures { IfOk result (λ f. ground_formula_of f ≡ by_test_of binding.now test.now (ground_formula_of taken) (ground_formula_of otherwise)) }
{
    let first = test_formula(alloc, test, binding)?.and(alloc, taken)?;
    let fails = test_formula(alloc, test, binding)?.negated(alloc)?;
    let second = fails.and(alloc, otherwise)?;
    Ok(first.or(alloc, second)?)
}
