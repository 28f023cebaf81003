//! The terms of a question.

ghost use Rattle.std.specs.Prelude.{IfOk, OnOk};
ghost use Rattle.gh_ast.specs.Questions.{claim_of, claims_view, question_of};
ghost use Rattle.gh_entail.specs.Asked.{AreTermsInLimit};
ghost use Rattle.gh_entail.specs.Terms.{WalksClaim, WalksClaims};

use gh_ast::question::{Claim, Question};
use gh_grass::binding::Binding;
use gh_grass::terms::TermList;
use gh_symb::count::MOST_TERMS;
use gh_symb::kinds::Kinds;
use gh_symb::scope::Scope;
use std::alloc::{AllocError, Global};

/// The terms of a question, and those of its variables.
#[derive(Debug, Drop)]
pub struct QuestionTerms {
    pub terms: TermList,
    pub binding: Binding,
}

// Walks over a claim: after each negative leaf there is one value more.
#[cycle(walk_claim)]
fn walk_claim<'a>(
    scope: &mut Scope<'a>,
    kinds: &mut Kinds,
    claim: &'a Claim,
    negative: bool,
) -> Result<(), AllocError>
    ensures { OnOk result (WalksClaim negative (claim_of claim.now) kinds.old scope.old kinds.new scope.new) }
{
    match claim {
        Claim::Leaf(assertion) => {
            scope.walk(kinds, assertion, 0)?;
            if negative {
                kinds.add_value()?;
            }
            Ok(())
        }
        Claim::Not(inner) => walk_claim(scope, kinds, inner, !negative),
        Claim::And(members) => walk_claims(scope, kinds, members.as_slice(), negative),
        Claim::Or(members) => walk_claims(scope, kinds, members.as_slice(), negative),
    }
}

// Walks over claims in their order.
#[cycle(walk_claim)]
fn walk_claims<'a>(
    scope: &mut Scope<'a>,
    kinds: &mut Kinds,
    claims: &'a [Claim],
    negative: bool,
) -> Result<(), AllocError>
    ensures { OnOk result (WalksClaims negative (claims_view claims.now) kinds.old scope.old kinds.new scope.new) }
{
    for claim in claims {
        walk_claim(scope, kinds, claim, negative)?;
    }
    Ok(())
}

/// The terms of a question, unless there are more than `MOST_TERMS`.
pub fn terms_of(alloc: Global, question: &Question) -> Result<Option<QuestionTerms>, AllocError>
    ensures { IfOk result (AreTermsInLimit (question_of question.now)) }
{
    let mut kinds = Kinds::new(alloc)?;
    let mut scope = Scope::new(alloc);
    walk_claim(&mut scope, &mut kinds, &question.left, false)?;
    walk_claim(&mut scope, &mut kinds, &question.right, true)?;
    if kinds.count() > MOST_TERMS {
        return Ok(None);
    }
    let terms = kinds.encode(alloc)?;
    let binding = scope.binding(alloc)?;
    Ok(Some(QuestionTerms { terms, binding }))
}
