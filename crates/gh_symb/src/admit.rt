//! Whether the conditions of a program keep the limits on terms and versions.

ghost use Rattle.std.specs.Prelude.{◌≡◌, ◌∷◌, ◌++◌, [], length, IfOk, OnOk, IfErr};
ghost use Rattle.gh_ast.specs.Plain.{program_of};
ghost use Rattle.gh_path.specs.Admitted.{HasManyTerms, HasManyVersions, NoneHas};
ghost use Rattle.gh_path.specs.Conditions.{conditions};
ghost use Rattle.gh_path.specs.Walks.{IsWalkBefore};
ghost use Rattle.gh_symb.specs.Limits.{IsAdmitRefusal};
ghost use Rattle.gh_symb.specs.Met.{IsOfTerms, earlier};
ghost use Rattle.gh_symb.specs.Numbers.{counts_of};

use crate::count::Count;
use crate::counted::counted;
use crate::limits::{SymbolicError, limit_of};
use gh_ast::typed::{Limit, Typed};
use gh_path::conditions::Conditions;
use gh_path::walk::Walk;
use std::alloc::{AllocError, Global};

/// The limit, if it is one on terms.
fn of_terms(passed: Option<Limit>) -> Option<Limit>
    ensures { IsOfTerms passed result }
{
    match passed {
        Some(limit) => {
            if limit.kind == 6 {
                return Some(limit);
            }
            None
        }
        None => None,
    }
}

/// The first of two limits.
fn earlier(first: Option<Limit>, second: Option<Limit>) -> Option<Limit>
    ensures { result ≡ earlier first second }
{
    match first {
        Some(limit) => Some(limit),
        None => second,
    }
}

/// Adds the counts of a condition.
fn add(counts: &mut Vec<Count>, count: Count) -> Result<(), AllocError>
    ensures { OnOk result (counts.new.items ≡ counts.old.items ++ count ∷ []) }
{
    counts.push(count)?;
    Ok(())
}

/// Adds the counts of each condition that a walk comes to, unless one passes a limit.
fn count_all(
    alloc: Global,
    typed: &Typed,
    number: u32,
    walk: &mut Walk<'_, '_>,
    counts: &mut Vec<Count>,
) -> Result<(), SymbolicError>
    requires before { IsWalkBefore (program_of typed.now) walk.old (conditions (program_of typed.now)) }
    requires number { number ≡ length (conditions (program_of typed.now)) }
    requires none { counts.old.items ≡ [] }
    ensures terms { OnOk result (NoneHas (program_of typed.now) (HasManyTerms (program_of typed.now))) }
    ensures versions { OnOk result (NoneHas (program_of typed.now) (HasManyVersions (program_of typed.now))) }
    ensures counts { OnOk result (counts.new.items ≡ counts_of (program_of typed.now)) }
    ensures refused { IfErr result (IsAdmitRefusal (program_of typed.now)) }
{
    let _program = typed.program();
    let mut late = None;
    for place in 0..number {
        let more = walk.advance()?;
        if !more {
            unreachable!();
        }
        let condition = walk.condition();
        let found = counted(alloc, typed, condition)?;
        let passed = limit_of(typed, condition, found);
        if let Some(limit) = of_terms(passed) {
            return Err(SymbolicError::Limit(limit));
        }
        late = earlier(late, passed);
        add(counts, found.count())?;
    }
    match late {
        Some(limit) => Err(SymbolicError::Limit(limit)),
        None => Ok(()),
    }
}

/// Admits a program as [`admit`] does, and gives how many terms and versions each of its conditions
/// has, in order.
pub fn admit_counted(
    alloc: Global,
    typed: &Typed,
    conditions: &Conditions<'_>,
) -> Result<Vec<Count>, SymbolicError>
    requires { program_of conditions.now ≡ program_of typed.now }
    ensures counts { IfOk result (λ v. v.items ≡ counts_of (program_of typed.now)) }
    ensures terms { OnOk result (NoneHas (program_of typed.now) (HasManyTerms (program_of typed.now))) }
    ensures versions { OnOk result (NoneHas (program_of typed.now) (HasManyVersions (program_of typed.now))) }
    ensures refused { IfErr result (IsAdmitRefusal (program_of typed.now)) }
{
    let mut walk = conditions.walk(alloc);
    let mut counts = Vec::new(alloc);
    count_all(alloc, typed, conditions.count(), &mut walk, &mut counts)?;
    Ok(counts)
}

/// Admits a program whose conditions all keep the limits on terms and versions. Terms are judged
/// over the whole program before versions, and the first procedure is named.
pub fn admit(alloc: Global, typed: &Typed, conditions: &Conditions<'_>) -> Result<(), SymbolicError>
    requires { program_of conditions.now ≡ program_of typed.now }
    ensures terms { OnOk result (NoneHas (program_of typed.now) (HasManyTerms (program_of typed.now))) }
    ensures versions { OnOk result (NoneHas (program_of typed.now) (HasManyVersions (program_of typed.now))) }
    ensures refused { IfErr result (IsAdmitRefusal (program_of typed.now)) }
{
    admit_counted(alloc, typed, conditions)?;
    Ok(())
}
