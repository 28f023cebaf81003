// The occurrences of variables in claims, and the numbers of their atoms.

ghost use Rattle.std.specs.Prelude.{◌≡◌, OnOk};
ghost use Rattle.gh_ast.specs.Limits.{reported};
ghost use Rattle.gh_ast.specs.Occurrences.{in_operand, in_expr, in_cond, in_conds, in_assertion, in_assertions};
ghost use Rattle.gh_ast.specs.Plain.{cond_of, conds_view, assertion_of, assertions_view};
ghost use Rattle.gh_ast.specs.Questions.{claim_of, claims_view};
ghost use Rattle.gh_entail.specs.Limits.{claim_atoms, claims_atoms};
ghost use Rattle.gh_entail.specs.Rules.{in_claim, in_claims, Gathers};

use gh_ast::question::Claim;
use gh_ast::{Assertion, Cond, Expr, Occ, Operand};
use gh_types::counts::count_atoms;
use std::alloc::AllocError;

fn add_operand<'a>(found: &mut Vec<&'a Occ>, operand: &'a Operand) -> Result<(), AllocError>
    ensures { OnOk result (Gathers found.old.items found.new.items (in_operand operand.now)) }
{
    if let Operand::Var(occurrence) = operand {
        found.push(occurrence)?;
    }
    Ok(())
}

fn add_expr<'a>(found: &mut Vec<&'a Occ>, expr: &'a Expr) -> Result<(), AllocError>
    ensures { OnOk result (Gathers found.old.items found.new.items (in_expr expr.now)) }
{
    match expr {
        Expr::Plain(operand) => add_operand(found, operand),
        Expr::Read(occurrence) => Ok(found.push(occurrence)?),
    }
}

#[cycle(any_test)]
fn add_test<'a>(found: &mut Vec<&'a Occ>, test: &'a Cond) -> Result<(), AllocError>
    ensures { OnOk result (Gathers found.old.items found.new.items (in_cond (cond_of test.now))) }
{
    match test {
        Cond::Compare { left, right, .. } => {
            add_expr(found, left)?;
            add_expr(found, right)
        }
        Cond::Not(inner) => add_test(found, inner),
        Cond::And(members) => add_tests(found, members.as_slice()),
        Cond::Or(members) => add_tests(found, members.as_slice()),
    }
}

#[cycle(any_test)]
fn add_tests<'a>(found: &mut Vec<&'a Occ>, tests: &'a [Cond]) -> Result<(), AllocError>
    ensures { OnOk result (Gathers found.old.items found.new.items (in_conds (conds_view tests.now))) }
{
    for test in tests {
        add_test(found, test)?;
    }
    Ok(())
}

#[cycle(assertion)]
fn add_assertion<'a>(found: &mut Vec<&'a Occ>, assertion: &'a Assertion) -> Result<(), AllocError>
    ensures { OnOk result (Gathers found.old.items found.new.items (in_assertion (assertion_of assertion.now))) }
{
    match assertion {
        Assertion::Emp => Ok(()),
        Assertion::Pure { left, right, .. } => {
            add_operand(found, left)?;
            add_operand(found, right)
        }
        Assertion::PointsTo { at, to } => {
            found.push(at)?;
            add_operand(found, to)
        }
        Assertion::Acc { at } => Ok(found.push(at)?),
        Assertion::Lseg { from, to } => {
            add_operand(found, from)?;
            add_operand(found, to)
        }
        Assertion::Star(members) => add_assertions(found, members.as_slice()),
        Assertion::Cases { test, yes, no } => {
            add_test(found, test)?;
            add_assertion(found, yes)?;
            add_assertion(found, no)
        }
    }
}

#[cycle(assertion)]
fn add_assertions<'a>(
    found: &mut Vec<&'a Occ>,
    assertions: &'a [Assertion],
) -> Result<(), AllocError>
    ensures { OnOk result (Gathers found.old.items found.new.items (in_assertions (assertions_view assertions.now))) }
{
    for assertion in assertions {
        add_assertion(found, assertion)?;
    }
    Ok(())
}

/// Adds the occurrences of variables in a claim, from left to right.
#[cycle(claim)]
pub fn add_claim<'a>(found: &mut Vec<&'a Occ>, claim: &'a Claim) -> Result<(), AllocError>
    ensures { OnOk result (Gathers found.old.items found.new.items (in_claim (claim_of claim.now))) }
{
    match claim {
        Claim::Leaf(assertion) => add_assertion(found, assertion),
        Claim::Not(inner) => add_claim(found, inner),
        Claim::And(members) => add_claims(found, members.as_slice()),
        Claim::Or(members) => add_claims(found, members.as_slice()),
    }
}

#[cycle(claim)]
fn add_claims<'a>(found: &mut Vec<&'a Occ>, claims: &'a [Claim]) -> Result<(), AllocError>
    ensures { OnOk result (Gathers found.old.items found.new.items (in_claims (claims_view claims.now))) }
{
    for claim in claims {
        add_claim(found, claim)?;
    }
    Ok(())
}

/// How many atoms the assertions of a claim have together, as it is reported.
#[cycle(count)]
pub fn count_in_claim(claim: &Claim) -> u32
    ensures { result ≡ reported (claim_atoms (claim_of claim.now)) }
{
    match claim {
        Claim::Leaf(assertion) => count_atoms(assertion),
        Claim::Not(inner) => count_in_claim(inner),
        Claim::And(members) => count_in_claims(members.as_slice()),
        Claim::Or(members) => count_in_claims(members.as_slice()),
    }
}

#[cycle(count)]
fn count_in_claims(claims: &[Claim]) -> u32
    ensures { result ≡ reported (claims_atoms (claims_view claims.now)) }
{
    let mut sum = 0u32;
    for claim in claims {
        sum = sum.saturating_add(count_in_claim(claim));
    }
    sum
}
