//! Unit propagation by the lists of the clauses in which each literal stands.

ghost use Rattle.std.specs.Prelude.{◌≡◌, ◌*◌, ◌<◌, ◌≤◌, IsTrue, IfSome, IfNone, length};
ghost use Rattle.gh_base.specs.Atoms.{count_of};
ghost use Rattle.gh_sat.specs.Status.{IsFalseClause, HasNoBad, PutsLast, PutsLastFirst, PutsUnit};
ghost use Rattle.gh_sat.specs.Watch.{AreListed, AreGuarded};
ghost use Rattle.gh_sat.specs.Propagation.{IsReady, Propagates, GuardsFurther, GuardsMore};
ghost use Rattle.gh_sat.specs.Propagation.{IsFalseOrGuarded, VisitsAll};

use crate::occurrences::Occurrences;
use crate::status::{Status, status_of};
use crate::trail::{Step, Trail};
use gh_base::clause::Clause;

/// The clause database: the clauses, and the lists of those in which each literal stands.
#[derive(Drop)]
pub struct Database<'a> {
    pub clauses: &'a [Clause],
    pub occurrences: &'a Occurrences,
}

// Looks at a clause, and puts its literal on the trail if it is unit. Answers whether it is false.
fn look(database: &Database, trail: &mut Trail, k: u32, level: u32) -> bool
    requires ready { IsReady database.now trail.old }
    requires within { k < length database.now.clauses.now }
    ensures propagates { Propagates database.now level trail.old trail.new }
    ensures if_false { IsTrue result → IsFalseClause database.now.clauses.now trail.new.steps k }
    ensures guarded { IsFalseOrGuarded database.now trail.new.steps k result }
    ensures unit { PutsUnit database.now.clauses.now level trail.old.steps trail.new.steps k }
{
    match status_of(trail, database.clauses[k as usize].lits()) {
        Status::False => true,
        Status::Unit(lit) => {
            trail.put(Step {
                lit,
                level,
                reason: Some(k),
            });
            false
        }
        Status::Open => false,
    }
}

// Looks at the clause that was added last, if there is one.
fn look_at_last(database: &Database, trail: &mut Trail, level: u32) -> Option<u32>
    requires ready { IsReady database.now trail.old }
    requires count { length database.now.clauses.now ≤ 4294967294 }
    ensures propagates { Propagates database.now level trail.old trail.new }
    ensures conflict { IfSome result (λ k. IsFalseClause database.now.clauses.now trail.new.steps k) }
    ensures last { PutsLast database.now.clauses.now level trail.old.steps trail.new.steps }
{
    let count = database.clauses.len() as u32;
    if count > 0 && look(database, trail, count - 1, level) {
        return Some(count - 1);
    }
    None
}

// Looks at the clauses from `looked` on, up to one that is false.
fn look_at_new(database: &Database, trail: &mut Trail, looked: &mut u32, level: u32) -> Option<u32>
    requires ready { IsReady database.now trail.old }
    requires count { length database.now.clauses.now ≤ 4294967294 }
    requires looked { looked.old ≤ length database.now.clauses.now }
    ensures propagates { Propagates database.now level trail.old trail.new }
    ensures looked { looked.new ≤ length database.now.clauses.now }
    ensures guarded { GuardsMore database.now trail.old trail.new looked.old looked.new }
    ensures conflict { IfSome result (λ k. IsFalseClause database.now.clauses.now trail.new.steps k) }
    ensures all { IfNone result (looked.new ≡ length database.now.clauses.now) }
{
    while (*looked as usize) < database.clauses.len() {
        if look(database, trail, *looked, level) {
            return Some(*looked);
        }
        *looked += 1;
    }
    None
}

// Looks at the clauses of a list, up to one that is false. A number that is no clause's is left out.
fn visit(database: &Database, trail: &mut Trail, list: &[u32], level: u32) -> Option<u32>
    requires ready { IsReady database.now trail.old }
    ensures propagates { Propagates database.now level trail.old trail.new }
    ensures conflict { IfSome result (λ k. IsFalseClause database.now.clauses.now trail.new.steps k) }
    ensures visited { IfNone result (VisitsAll database.now trail.old trail.new list.now) }
{
    let clauses = database.clauses;
    for j in 0..list.len() {
        let k = list[j];
        if (k as usize) < clauses.len() && look(database, trail, k, level) {
            return Some(k);
        }
    }
    None
}

// Propagates the literals from `head` on, up to a clause that is false.
fn propagate_from(database: &Database, trail: &mut Trail, head: &mut u32, level: u32) -> Option<u32>
    requires ready { IsReady database.now trail.old }
    requires head { head.old ≤ length trail.old.steps }
    requires lists { length database.now.occurrences.now ≡ 2 * count_of trail.old.sizes }
    requires listed { AreListed trail.old.sizes database.now.clauses.now database.now.occurrences.now }
    ensures propagates { Propagates database.now level trail.old trail.new }
    ensures head { head.new ≤ length trail.new.steps }
    ensures guarded { GuardsFurther database.now trail.old trail.new head.old head.new }
    ensures conflict { IfSome result (λ k. IsFalseClause database.now.clauses.now trail.new.steps k) }
    ensures all { IfNone result (head.new ≡ length trail.new.steps) }
{
    while trail.steps().len() > *head as usize {
        let lit = trail.steps()[*head as usize].lit.negated();
        let list = database.occurrences.of(trail.sizes(), lit);
        let conflict = visit(database, trail, list, level);
        if conflict.is_some() {
            return conflict;
        }
        *head += 1;
    }
    None
}

/// Looks at the clause that was added last, then at those that weren't looked at yet, and propagates the literals from
/// `head` on, up to a clause that is false.
pub fn propagate(
    database: &Database,
    trail: &mut Trail,
    looked: &mut u32,
    head: &mut u32,
    level: u32,
) -> Option<u32>
    requires ready { IsReady database.now trail.old }
    requires count { length database.now.clauses.now ≤ 4294967294 }
    requires looked { looked.old ≤ length database.now.clauses.now }
    requires head { head.old ≤ length trail.old.steps }
    requires lists { length database.now.occurrences.now ≡ 2 * count_of trail.old.sizes }
    requires listed { AreListed trail.old.sizes database.now.clauses.now database.now.occurrences.now }
    requires guarded { AreGuarded database.now.clauses.now trail.old.steps head.old looked.old }
    ensures propagates { Propagates database.now level trail.old trail.new }
    ensures looked { looked.new ≤ length database.now.clauses.now }
    ensures head { head.new ≤ length trail.new.steps }
    ensures guarded { AreGuarded database.now.clauses.now trail.new.steps head.new looked.new }
    ensures conflict { IfSome result (λ k. IsFalseClause database.now.clauses.now trail.new.steps k) }
    ensures settled { IfNone result (HasNoBad database.now.clauses.now trail.new.steps) }
    ensures last { PutsLastFirst database.now.clauses.now level trail.old.steps trail.new.steps }
{
    let conflict = look_at_last(database, trail, level);
    if conflict.is_some() {
        return conflict;
    }
    let conflict = look_at_new(database, trail, looked, level);
    if conflict.is_some() {
        return conflict;
    }
    propagate_from(database, trail, head, level)
}
