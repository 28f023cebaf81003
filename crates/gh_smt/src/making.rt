//! The script of a condition.

ghost use Rattle.std.specs.Prelude.{◌≡◌, ◌+◌, ◌*◌, ◌^◌, ◌<◌, ◌≤◌, ◌++◌, map, IfOk, IfErr, OnOk};
ghost use Rattle.gh_symb.specs.Formulas as formulas;
ghost use Rattle.gh_symb.specs.Encoded.{plain_of};
ghost use Rattle.gh_inst.specs.Instances.{instances, clause_of};
ghost use Rattle.gh_smt.specs.Scripts.{IsScript, instance_count, assertion_count, script_of};
ghost use Rattle.gh_smt.specs.Refusals.{IsScriptRefusal};
ghost use Rattle.gh_smt.specs.Laws.{DecidesItsConditions};

use crate::error::ScriptError;
use crate::script::Script;
use gh_base::clause::Clause;
use gh_base::ground::Ground;
use gh_inst::instances::Instances;
use gh_inst::naming::instance;
use gh_symb::over_terms::Symbolic;
use std::alloc::{AllocError, Global};

/// The greatest number of assertions of a script.
pub const MOST: u64 = 2_000_000;

// So many times a number, and some more.
fn times_more(times: u8, number: u64, more: u64) -> u64
    requires number { number < 2 ^ 48 }
    requires more { more < 2 ^ 48 }
    ensures value { result ≡ times * number + more }
    ensures bound { result ≤ 255 * number + more }
{
    u64::from(times) * number + more
}

// How many instances there are over some terms and versions.
pub(crate) fn count_instances(terms: u8, versions: u8) -> u64
    ensures value { result ≡ instance_count terms versions }
    ensures bound { result < 2 ^ 48 }
{
    let third = times_more(terms, 4, 5);
    let second = times_more(terms, third, 5);
    let first = times_more(terms, second, 1);
    let each = times_more(terms, first, 0);
    times_more(versions, each, 0)
}

// Adds the clauses by number.
fn add_clauses(alloc: Global, asserted: &mut Vec<Clause>, ground: &Ground) -> Result<(), AllocError>
    ensures { OnOk result (asserted.new.items ≡ asserted.old.items ++ ground.now.clauses) }
{
    for number in 0..ground.count() {
        let Some(clause) = ground.clause(number) else {
            unreachable!()
        };
        asserted.push(clause.copy(alloc)?)?;
    }
    Ok(())
}

// Adds all instances in order.
fn add_instances(
    alloc: Global,
    asserted: &mut Vec<Clause>,
    terms: u8,
    versions: u8,
) -> Result<(), AllocError>
    ensures { OnOk result (asserted.new.items ≡ asserted.old.items ++ map clause_of (instances terms versions)) }
{
    for name in Instances::new(terms, versions) {
        let Some(clause) = instance(alloc, name, terms, versions) else {
            unreachable!()
        };
        asserted.push(clause)?;
    }
    Ok(())
}

/// The script of a condition over terms, of which these are the clauses: the clauses by number, then
/// all instances of the axioms in order. The number of assertions is tried before any is made.
pub fn script(alloc: Global, symbolic: &Symbolic, ground: &Ground) -> Result<Script, ScriptError>
    requires { ground.now ≡ formulas.problem (plain_of symbolic.now) }
    ensures short { IfOk result (λ s. assertion_count ground.now ≤ 2000000) }
    ensures is { IfOk result (λ s. s ≡ script_of ground.now) }
    ensures written { IfOk result (λ s. IsScript s) }
    ensures refused { IfErr result (λ e. IsScriptRefusal ground.now e) }
    ensures decides { IfOk result (DecidesItsConditions ground.now) }
{
    let sizes = ground.sizes();
    let terms = symbolic.terms().count();
    let versions = symbolic.versions();
    let count = u64::from(ground.count()) + count_instances(terms, versions);
    if count > MOST {
        return Err(ScriptError::TooLong { count });
    }
    let mut asserted = Vec::with_capacity(alloc, count as usize)?;
    add_clauses(alloc, &mut asserted, ground)?;
    add_instances(alloc, &mut asserted, terms, versions)?;
    Ok(Script::new(sizes, asserted))
}
