// The ground formula of a claim.

ghost use Rattle.std.specs.Prelude.{◌≡◌, IfOk};
ghost use Rattle.gh_ast.specs.Plain.{assertion_of};
ghost use Rattle.gh_grass.specs.Claims.{ground_formula_of, ground_formula_list};
ghost use Rattle.gh_symb.specs.Formulas as formulas;
ghost use Rattle.gh_ast.specs.Questions as questions;
ghost use Rattle.gh_ast.specs.Questions.{claims_view};
ghost use Rattle.gh_entail.specs.Asked.{under_at, meets_over, meets_whole_over, claim_over, claims_over};

use gh_ast::Assertion;
use gh_ast::question::Claim;
use gh_base::atom::Term;
use gh_grass::binding::Binding;
use gh_grass::footprint::{footprint_at, structure_of};
use gh_grass::formula::Formula;
use gh_grass::terms::TermList;
use gh_reduce::statements::allocated;
use std::alloc::{AllocError, Global};

// Some part of the heap meets an assertion.
fn meets(
    alloc: Global,
    assertion: &Assertion,
    binding: &Binding,
    terms: &TermList,
) -> Result<Formula, AllocError>
    ensures { IfOk result (λ f. ground_formula_of f ≡ meets_over terms.now binding.now (assertion_of assertion.now)) }
{
    Ok(structure_of(alloc, assertion, binding, 0, terms)?)
}

// A term is in the footprint of an assertion.
fn within(
    alloc: Global,
    assertion: &Assertion,
    binding: &Binding,
    z: Term,
) -> Result<Formula, AllocError>
    ensures { IfOk result (λ f. ground_formula_of f ≡ formulas.within (under_at binding.now (assertion_of assertion.now)) z) }
{
    Ok(footprint_at(alloc, assertion, binding, 0, z)?)
}

// A term is allocated exactly where it is in the footprint of an assertion.
fn covers(
    alloc: Global,
    assertion: &Assertion,
    binding: &Binding,
    z: Term,
) -> Result<Formula, AllocError>
    ensures { IfOk result (λ f. ground_formula_of f ≡ formulas.covers (under_at binding.now (assertion_of assertion.now)) z) }
{
    let inside = within(alloc, assertion, binding, z)?;
    Ok(allocated(0, z).iff(alloc, inside)?)
}

// The whole heap meets an assertion.
fn meets_whole(
    alloc: Global,
    assertion: &Assertion,
    binding: &Binding,
    terms: &TermList,
) -> Result<Formula, AllocError>
    ensures { IfOk result (λ f. ground_formula_of f ≡ meets_whole_over terms.now binding.now (assertion_of assertion.now)) }
{
    let mut members = Vec::new(alloc);
    members.push(meets(alloc, assertion, binding, terms)?)?;
    for z in 0..terms.count() {
        members.push(covers(alloc, assertion, binding, Term(z))?)?;
    }
    Ok(Formula::And(members))
}

/// The formula of a claim.
#[cycle(claim)]
pub fn formula_of_claim(
    alloc: Global,
    claim: &Claim,
    binding: &Binding,
    terms: &TermList,
) -> Result<Formula, AllocError>
    ensures { IfOk result (λ f. ground_formula_of f ≡ claim_over terms.now binding.now (questions.claim_of claim.now)) }
{
    match claim {
        Claim::Leaf(assertion) => Ok(meets_whole(alloc, assertion, binding, terms)?),
        Claim::Not(inner) => Ok(formula_of_claim(alloc, inner, binding, terms)?.negated(alloc)?),
        Claim::And(members) => Ok(Formula::And(formulas_of_claims(
            alloc,
            members.as_slice(),
            binding,
            terms,
        )?)),
        Claim::Or(members) => Ok(Formula::Or(formulas_of_claims(
            alloc,
            members.as_slice(),
            binding,
            terms,
        )?)),
    }
}

#[cycle(claim)]
fn formulas_of_claims(
    alloc: Global,
    claims: &[Claim],
    binding: &Binding,
    terms: &TermList,
) -> Result<Vec<Formula>, AllocError>
    ensures { IfOk result (λ fs. ground_formula_list fs.items ≡ claims_over terms.now binding.now (claims_view claims.now)) }
{
    let mut formulas = Vec::new(alloc);
    for claim in claims {
        formulas.push(formula_of_claim(alloc, claim, binding, terms)?)?;
    }
    Ok(formulas)
}
