//! Whether some heap meets each contract and each invariant of a program.

ghost use Rattle.std.specs.Prelude.{◌≡◌, map, IfOk};
ghost use Rattle.gh_ast.specs.Plain.{assertion_of, procedure_of, program_of};
ghost use Rattle.gh_ast.specs.Questions.{leaf, either, claim_of, claims_of, question_of};
ghost use Rattle.gh_path.specs.Walking.{loop_of};
ghost use Rattle.gh_lens.specs.Assertions.{is_empty as is_emp_formula, is_bare as is_bare_list, question_on, IsMeeting};
ghost use Rattle.gh_lens.specs.Assertions.{IsRemark, AreRemarks, requires_of, ensures_of, invariant_of, subjects_of};
ghost use Rattle.gh_lens.specs.Assertions.{subjects};
ghost use Rattle.gh_lens.specs.Stated.{subject_of, AddsRemarks};

use crate::copies::{copy_assertion, copy_variables};
use gh_ast::question::{Claim, Question};
use gh_ast::typed::Typed;
use gh_ast::{Assertion, Procedure};
use gh_base::name::Name;
use gh_base::place::Span;
use gh_entail::admit::{AskError, admit_question};
use gh_entail::answer::{Entailment, decide_question};
use gh_path::loops::{While, loops_of};
use std::alloc::{AllocError, Global};
use std::slice::from_ref;

/// Whether an assertion is what a procedure requires, what it ensures, or a loop's invariant.
#[derive(Clone, Copy, Debug, PartialEq, Eq)]
pub enum Kind {
    Requires,
    Ensures,
    Invariant,
}

/// Whether some heap meets an assertion. It isn't known where the question passes a limit.
#[derive(Clone, Copy, Debug, PartialEq, Eq)]
pub enum Meeting {
    Met,
    Unmet,
    Unknown,
}

/// A contract or an invariant by its procedure and its place, whether it is just `emp`, and whether
/// some heap meets it.
#[derive(Debug, Drop)]
pub struct Remark {
    pub kind: Kind,
    pub procedure: Name,
    pub place: Span,
    pub is_bare: bool,
    pub meeting: Meeting,
}

// A contract or an invariant in a text.
#[derive(Clone, Copy)]
pub struct Stated<'t> {
    pub kind: Kind,
    pub procedure: &'t Procedure,
    pub place: Span,
    pub alternatives: &'t [Assertion],
}

// The claim that one of some assertions holds.
fn claim(alloc: Global, assertions: &[Assertion]) -> Result<Claim, AllocError>
    ensures { IfOk result (λ c. claim_of c ≡ either (claims_of (map leaf (map assertion_of assertions.now)))) }
{
    let mut claims = Vec::new(alloc);
    for assertion in assertions {
        let copy = copy_assertion(alloc, assertion)?;
        claims.push(Claim::Leaf(copy))?;
    }
    Ok(Claim::Or(claims))
}

// The question whether one of the alternatives implies what never holds.
fn question(alloc: Global, stated: Stated<'_>) -> Result<Question, AllocError>
    ensures { IfOk result (λ q. question_of q ≡ question_on (subject_of stated.entry)) }
{
    let variables = copy_variables(alloc, stated.procedure)?;
    let left = claim(alloc, stated.alternatives)?;
    let none = Vec::new(alloc);
    Ok(Question {
        variables,
        span: stated.place,
        left,
        right: Claim::Or(none),
    })
}

// Whether some heap meets one of the alternatives.
fn meeting_of(alloc: Global, stated: Stated<'_>) -> Result<Meeting, AllocError>
    ensures { IfOk result (IsMeeting (subject_of stated.entry)) }
{
    let question = question(alloc, stated)?;
    let asked = match admit_question(alloc, question) {
        Ok(asked) => asked,
        Err(AskError::TypeError { .. }) => return Ok(Meeting::Unknown),
        Err(AskError::Limit(_)) => return Ok(Meeting::Unknown),
        Err(AskError::OutOfMemory) => return Err(AllocError),
    };
    match decide_question(alloc, &asked)? {
        Entailment::Yes(_) => Ok(Meeting::Unmet),
        Entailment::No(_) => Ok(Meeting::Met),
    }
}

fn is_emp(assertion: &Assertion) -> bool
    ensures { result ≡ is_emp_formula (assertion_of assertion.now) }
{
    matches!(assertion, Assertion::Emp)
}

// Whether the one alternative is just `emp`.
fn is_bare(alternatives: &[Assertion]) -> bool
    ensures { result ≡ is_bare_list (map assertion_of alternatives.now) }
{
    match alternatives {
        [only] => is_emp(only),
        _ => false,
    }
}

// What is kept of a contract or an invariant.
fn remark_on(alloc: Global, stated: Stated<'_>) -> Result<Remark, AllocError>
    ensures { IfOk result (IsRemark (subject_of stated.entry)) }
{
    Ok(Remark {
        kind: stated.kind,
        procedure: stated.procedure.name.name.copy(alloc)?,
        place: stated.place,
        is_bare: is_bare(stated.alternatives),
        meeting: meeting_of(alloc, stated)?,
    })
}

// The contract of a procedure: what it requires.
fn precondition(procedure: &Procedure) -> Stated<'_>
    ensures { subject_of result ≡ requires_of (procedure_of procedure.now) }
{
    Stated {
        kind: Kind::Requires,
        procedure,
        place: procedure.name.span,
        alternatives: from_ref(&procedure.needs),
    }
}

// The contract of a procedure: what it ensures.
fn postcondition(procedure: &Procedure) -> Stated<'_>
    ensures { subject_of result ≡ ensures_of (procedure_of procedure.now) }
{
    Stated {
        kind: Kind::Ensures,
        procedure,
        place: procedure.name.span,
        alternatives: procedure.gives.as_slice(),
    }
}

// The invariant of a loop of a procedure.
fn invariant<'t>(procedure: &'t Procedure, round: While<'t>) -> Stated<'t>
    ensures { subject_of result ≡ invariant_of (procedure_of procedure.now) (loop_of round.entry) }
{
    Stated {
        kind: Kind::Invariant,
        procedure,
        place: round.at,
        alternatives: from_ref(round.invariant),
    }
}

// The contracts and the invariants of a procedure, in order.
fn all_stated(alloc: Global, procedure: &Procedure) -> Result<Vec<Stated<'_>>, AllocError>
    ensures { IfOk result (λ v. map subject_of v.items ≡ subjects_of (procedure_of procedure.now)) }
{
    let loops = loops_of(alloc, procedure)?;
    let mut all = Vec::new(alloc);
    all.push(precondition(procedure))?;
    all.push(postcondition(procedure))?;
    for round in loops.as_slice() {
        all.push(invariant(procedure, *round))?;
    }
    Ok(all)
}

// Adds what is kept of some contracts and invariants.
fn push_remarks(
    alloc: Global,
    remarks: &mut Vec<Remark>,
    stated: &[Stated<'_>],
) -> Result<(), AllocError>
    ensures { IfOk result (λ _. AddsRemarks remarks.old.items remarks.new.items (map subject_of stated.entry.now)) }
{
    for one in stated {
        let remark = remark_on(alloc, *one)?;
        remarks.push(remark)?;
    }
    Ok(())
}

/// The remarks on all contracts and invariants of a program, in order: of each procedure what it
/// requires, what it ensures, and the invariants of its loops.
pub fn remarks(alloc: Global, typed: &Typed) -> Result<Vec<Remark>, AllocError>
    ensures { IfOk result (λ v. AreRemarks (subjects (program_of typed.now)) v.items) }
{
    let program = typed.program();
    let mut all = Vec::new(alloc);
    for procedure in program.procedures.as_slice() {
        let stated = all_stated(alloc, procedure)?;
        push_remarks(alloc, &mut all, stated.as_slice())?;
    }
    Ok(all)
}
