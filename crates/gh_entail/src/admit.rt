//! The type rules of a question, and the limits on it.

ghost use Rattle.std.specs.Prelude.{◌≡◌, IfErr, IfOk, OnOk, MatchOption, length, map};
ghost use Rattle.gh_ast.specs.Limits.{reported};
ghost use Rattle.gh_ast.specs.Questions.{question_of};
ghost use Rattle.gh_types.specs.Faults.{IsFirstOf};
ghost use Rattle.gh_entail.specs.Checks.{IsFirstUndeclared};
ghost use Rattle.gh_entail.specs.Asked.{AreTerms, IsAdmitted, IsAskRefusal};
ghost use Rattle.gh_entail.specs.Limits.{IsLimit, KeepsTextLimits, count_atoms};
ghost use Rattle.gh_entail.specs.Rules.{Broken, DuplicateName, UnknownName};

use crate::occurrences::{add_claim, count_in_claim};
use crate::terms::{QuestionTerms, terms_of};
use gh_ast::Occ;
use gh_ast::question::Question;
use gh_ast::typed::Limit;
use gh_base::place::Span;
use gh_symb::count::MOST_TERMS;
use gh_types::counts::{MOST_ATOMS, MOST_VARIABLES, reported};
use gh_types::fault::{Fault, earlier};
use gh_types::names::{Names, each, names_of, repeated};
use std::alloc::{AllocError, Global};
use thiserror::Error;

/// Why a question isn't admitted.
///
/// The rules by number: 1 an unknown name, 2 a duplicate name. The limits are of kind 2, variables,
/// 3, atoms, and 6, terms.
#[derive(Debug, Drop, Error)]
pub enum AskError {
    #[error("a type rule is broken")]
    TypeError { number: u8, span: Span },
    #[error("a limit is passed")]
    Limit(Limit),
    #[error("out of memory")]
    OutOfMemory,
}

impl From<AllocError> for AskError {
    ghost use Rattle.gh_entail.specs.declared.admit.AskError.TheVariants.{OutOfMemory};

    ghost from_gives = { λ _ e. e ≡ OutOfMemory };

    fn from(_: AllocError) -> Self {
        AskError::OutOfMemory
    }
}

/// A question that keeps the type rules and the limits, with its terms.
#[derive(Debug, Drop)]
pub struct Asked {
    pub(crate) question: Question,
    pub(crate) over: QuestionTerms,
    ghost admitted: { IsAdmitted (question_of question) },
    ghost told: { AreTerms (question_of question) over },
}

impl Asked {
    /// The question.
    pub fn question(&self) -> &Question
        ensures { result.now ≡ self.now.question }
    {
        &self.question
    }
}

// The first occurrence whose name isn't in a table.
fn first_undeclared(names: &Names<'_>, occurrences: &[&Occ]) -> Option<Fault>
    ensures { IsFirstUndeclared names.now.places (map (λ o. o.now) occurrences.now) result }
{
    let mut first = None;
    for occurrence in occurrences {
        let is_known = names.has(occurrence);
        first = earlier(first, Fault::unless(is_known, 1, occurrence.span));
    }
    first
}

// The first occurrence of a variable that isn't declared.
fn unknown_name(alloc: Global, question: &Question) -> Result<Option<Fault>, AllocError>
    ensures { IfOk result (IsFirstOf (λ n s. (n ≡ 1) × UnknownName (question_of question.now) s)) }
{
    let variables = each(alloc, question.variables.as_slice())?;
    let names = names_of(alloc, variables.as_slice())?;
    let mut occurrences = Vec::new(alloc);
    add_claim(&mut occurrences, &question.left)?;
    add_claim(&mut occurrences, &question.right)?;
    Ok(first_undeclared(&names, occurrences.as_slice()))
}

// The first variable that is declared again.
fn duplicate_name(alloc: Global, question: &Question) -> Result<Option<Fault>, AllocError>
    ensures { IfOk result (IsFirstOf (λ n s. (n ≡ 2) × DuplicateName (question_of question.now) s)) }
{
    let variables = each(alloc, question.variables.as_slice())?;
    repeated(alloc, 2, variables.as_slice())
}

// The first broken rule of a question.
fn first_fault(alloc: Global, question: &Question) -> Result<Option<Fault>, AllocError>
    ensures { IfOk result (IsFirstOf (Broken (question_of question.now))) }
{
    let unknown = unknown_name(alloc, question)?;
    let duplicate = duplicate_name(alloc, question)?;
    Ok(earlier(unknown, duplicate))
}

// How many variables are declared, as it is reported.
fn count_variables(question: &Question) -> u32
    ensures { result ≡ reported (length question.now.variables.items) }
{
    reported(question.variables.len())
}

// How many atoms all assertions have together, as it is reported.
fn count_all_atoms(question: &Question) -> u32
    ensures { result ≡ reported (count_atoms (question_of question.now)) }
{
    count_in_claim(&question.left).saturating_add(count_in_claim(&question.right))
}

// The limit on the text of a question that is passed.
fn passed_limit(question: &Question) -> Option<Limit>
    ensures { MatchOption result (KeepsTextLimits (question_of question.now)) (IsLimit (question_of question.now)) }
{
    let variables = count_variables(question);
    if variables > MOST_VARIABLES {
        return Some(Limit {
            kind: 2,
            span: question.span,
            count: variables,
        });
    }
    let atoms = count_all_atoms(question);
    if atoms > MOST_ATOMS {
        return Some(Limit {
            kind: 3,
            span: question.span,
            count: atoms,
        });
    }
    None
}

// The terms of a question that keeps the type rules and the limits.
fn judged(alloc: Global, question: &Question) -> Result<QuestionTerms, AskError>
    ensures told { IfOk result (AreTerms (question_of question.now)) }
    ensures admitted { OnOk result (IsAdmitted (question_of question.now)) }
    ensures refused { IfErr result (IsAskRefusal (question_of question.now)) }
{
    if let Some(fault) = first_fault(alloc, question)? {
        return Err(AskError::TypeError {
            number: fault.number,
            span: fault.span,
        });
    }
    if let Some(limit) = passed_limit(question) {
        return Err(AskError::Limit(limit));
    }
    match terms_of(alloc, question)? {
        Some(terms) => Ok(terms),
        None => Err(AskError::Limit(Limit {
            kind: 6,
            span: question.span,
            count: MOST_TERMS as u32 + 1,
        })),
    }
}

/// Admits a question that keeps the type rules and the limits. It is dropped where it is refused: at
/// its first broken rule, or by the first limit that it passes.
pub fn admit_question(alloc: Global, question: Question) -> Result<Asked, AskError>
    ensures same { IfOk result (λ asked. asked.question ≡ question) }
    ensures admitted { IfOk result (λ asked. IsAdmitted (question_of asked.question)) }
    ensures refused { IfErr result (IsAskRefusal (question_of question)) }
{
    let over = judged(alloc, &question)?;
    Ok(Asked { question, over })
}
