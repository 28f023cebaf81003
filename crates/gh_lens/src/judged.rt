//! What is found of each condition of a program.

ghost use Rattle.std.specs.Prelude.{◌≡◌, ◌+◌, IfOk};
ghost use Rattle.gh_ast.specs.Plain.{program_of};
ghost use Rattle.gh_path.specs.Admitted.{IsAdmitted};
ghost use Rattle.gh_path.specs.Conditions as plain;
ghost use Rattle.gh_path.specs.Kept.{IsOne};
ghost use Rattle.gh_lens.specs.Judgements.{TellsGroundWork, IsFoundFor, IsJudgedFor, AreJudged};

use crate::progress::Progress;
use gh_ast::typed::Typed;
use gh_base::text::Text;
use gh_decide::decide::{Verdict, decide_with};
use gh_draw::describe::describe;
use gh_path::condition::{CheckKind, Condition};
use gh_path::conditions::Conditions;
use gh_seek::known::Known;
use std::alloc::{AllocError, Global};

/// Whether a condition has a counterexample.
#[derive(Clone, Copy, Debug, PartialEq, Eq)]
pub enum Finding {
    Valid,
    Refuted,
}

/// A condition by its number, with its description, whether it is ground work, on which others rest,
/// and what is found of it.
#[derive(Debug, Drop)]
pub struct Judged {
    pub number: u32,
    pub description: Text,
    pub is_ground_work: bool,
    pub finding: Finding,
}

// Whether what is asked is an entry of a callee or of a loop, or the end of a loop.
fn rests_on(kind: &CheckKind) -> bool
    ensures { TellsGroundWork kind.now result }
{
    match kind {
        CheckKind::Access { .. } => false,
        CheckKind::CalleeEntry { .. } => true,
        CheckKind::LoopEntry { .. } => true,
        CheckKind::Return => false,
        CheckKind::LoopEnd { .. } => true,
    }
}

// What is found of a condition.
fn find_out(
    alloc: Global,
    typed: &Typed,
    condition: &Condition,
    known: &mut Known,
) -> Result<Finding, AllocError>
    requires admitted { IsAdmitted (program_of typed.now) }
    requires one { IsOne (program_of typed.now) condition.now }
    ensures { IfOk result (IsFoundFor (program_of typed.now) condition.now) }
{
    match decide_with(alloc, typed, condition, known)? {
        Verdict::Valid(_) => Ok(Finding::Valid),
        Verdict::Refuted(_) => Ok(Finding::Refuted),
    }
}

// What is kept of the condition of a number.
fn judge(
    alloc: Global,
    typed: &Typed,
    number: u32,
    condition: &Condition,
    known: &mut Known,
) -> Result<Judged, AllocError>
    requires admitted { IsAdmitted (program_of typed.now) }
    requires one { IsOne (program_of typed.now) condition.now }
    ensures { IfOk result (IsJudgedFor (program_of typed.now) number condition.now) }
{
    let description = describe(alloc, typed, condition)?;
    let finding = find_out(alloc, typed, condition, known)?;
    Ok(Judged {
        number,
        description,
        is_ground_work: rests_on(&condition.check.kind),
        finding,
    })
}

/// What is found of each condition of an admitted program, in order.
pub fn verdicts<T: Progress>(
    alloc: Global,
    typed: &Typed,
    conditions: &Conditions,
    progress: &mut T,
) -> Result<Vec<Judged>, AllocError>
    requires same { program_of conditions.now ≡ program_of typed.now }
    requires admitted { IsAdmitted (program_of typed.now) }
    ensures { IfOk result (λ v. AreJudged (program_of typed.now) 1 (plain.conditions (program_of typed.now)) v.items) }
{
    let mut all = Vec::new(alloc);
    let mut known = Known::new();
    let count = conditions.count();
    let mut walk = conditions.walk(alloc);
    for place in 0..count {
        let number = place + 1;
        let more = walk.advance()?;
        if !more {
            unreachable!();
        }
        let judged = judge(alloc, typed, number, walk.condition(), &mut known)?;
        all.push(judged)?;
        // How many are settled: nothing that is found depends on it.
        progress.settled(number, count);
    }
    Ok(all)
}
