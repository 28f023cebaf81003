//! A search over clauses beside a theory.

ghost use Rattle.std.specs.Prelude.{◌≡◌, ◌≤◌, ◌<◌, [], length, IfOk, OnOk, OnErr, IfSome, IfNone, option_copied};
ghost use Rattle.std.specs.Prelude.{slice_get};
ghost use Rattle.gh_base.specs.Atoms.{IsInRange, AreInRange, negative};
ghost use Rattle.gh_sat.specs.Trail.{SearchState, IsAssignmentOf, IsSound, IsFree, cut, AllHaveTruth, OpensLevel};
ghost use Rattle.gh_sat.specs.Trail.{search_over, most_clauses};
ghost use Rattle.gh_sat.specs.Status.{IsSettled, AreSatisfied, OccursIn};
ghost use Rattle.gh_sat.specs.Learn.{IsConflictAt, IsLearnt, AreReasons, add_clause};
ghost use Rattle.gh_sat.specs.Whole.{GivesLast, AddsClause};
ghost use Rattle.gh_sat.specs.Theory.{lits_of, IsAsserted, IsConsistentWith, WereConsistent, PropagatesBeside};
ghost use Rattle.gh_sat.specs.Theory.{AddsValid};

use crate::clause_search::{ClauseSearch, Learnt};
use crate::theory::Theory;
use crate::trail::Step;
use gh_base::assignment::Assignment;
use gh_base::atom::{Atom, Lit};
use gh_base::clause::Clause;
use gh_base::ground::Ground;
use std::alloc::{AllocError, Global};
use std::marker::Model;

/// Clauses, a trail with its levels, and a theory that knows a front of the trail.
#[derive(Drop)]
pub struct Search<T: Theory> {
    search: ClauseSearch,
    theory: T,
}

impl<T: Theory> Model for Search<T> {
    ghost use Rattle.gh_sat.specs.Trail.{SearchState};
    ghost use Rattle.gh_sat.specs.Theory.{IsBeside};

    ghost Value = { SearchState };

    ghost view = { λ s. s.search };

    ghost invariant = { λ s. IsBeside T.valid (T.asserted s.theory) (T.sizes s.theory) s.search };
}

// Asserts what the theory doesn't know yet of the trail.
fn tell<T: Theory>(search: &ClauseSearch, theory: &mut T)
    requires told { IsAsserted (T.asserted theory.old) search.now.trail }
    requires sizes { T.sizes theory.old ≡ search.now.sizes }
    ensures told { T.asserted theory.new ≡ lits_of search.now.trail }
    ensures sizes { T.sizes theory.new ≡ search.now.sizes }
    ensures sound { IsSound search.now }
{
    let steps = search.steps();
    let mut place = theory.mark() as usize;
    while place < steps.len() {
        theory.assert(steps[place].lit);
        place += 1;
    }
}

// Adds a conflict of the theory as a clause, if there is one, and answers its number.
fn refute<T: Theory>(
    alloc: Global,
    search: &mut ClauseSearch,
    theory: &T,
) -> Result<Option<u32>, AllocError>
    requires told { T.asserted theory.now ≡ lits_of search.old.trail }
    requires sizes { T.sizes theory.now ≡ search.old.sizes }
    requires sound { IsSound search.old }
    requires consistent { WereConsistent (T.valid search.old.sizes) search.old.trail search.old.starts }
    ensures number { IfOk result (λ o. IfSome o (λ k. k ≡ length search.old.clauses)) }
    ensures added { IfOk result (λ o. IfSome o (λ _. AddsValid (T.valid search.old.sizes) search.old search.new)) }
    ensures conflict { IfOk result (λ o. IfSome o (λ k. IsConflictAt search.new k)) }
    ensures none { IfOk result (λ o. IfNone o (IsConsistentWith T.valid search.old)) }
    ensures known { IfOk result (λ o. IfNone o (T.known search.old.sizes (lits_of search.old.trail))) }
    ensures same { IfOk result (λ o. IfNone o (search.new ≡ search.old)) }
    ensures sound { OnOk result (IsSound search.new) }
    ensures few { OnOk result (length search.new.clauses ≤ most_clauses) }
    ensures err { OnErr result (search.new ≡ search.old) }
{
    let number = search.count();
    match theory.conflict(alloc)? {
        None => Ok(None),
        Some(clause) => {
            search.insert(clause)?;
            Ok(Some(number))
        }
    }
}

impl<T: Theory> Search<T> {
    /// A search over the clauses of a ground problem, with nothing on its trail. There are at most `MOST_CLAUSES`: more
    /// are answered as where memory runs out.
    pub fn new(alloc: Global, ground: &Ground, theory: T) -> Result<Search<T>, AllocError>
        requires none { T.asserted theory ≡ [] }
        requires sizes { T.sizes theory ≡ ground.now.sizes }
        ensures over { IfOk result (λ s. s ≡ search_over ground.now.sizes ground.now.clauses) }
        ensures few { OnOk result (length ground.now.clauses ≤ most_clauses) }
    {
        let search = ClauseSearch::new(alloc, ground)?;
        Ok(Search { search, theory })
    }

    /// The present level.
    pub fn level(&self) -> u32
        ensures { result ≡ length self.now.starts }
    {
        self.search.level()
    }

    /// The truth of each literal.
    pub fn assignment(&self) -> &Assignment
        ensures { IsAssignmentOf result.now (record { sizes = self.now.sizes; steps = self.now.trail }) }
    {
        self.search.assignment()
    }

    /// The trail.
    pub fn steps(&self) -> &[Step]
        ensures steps { result.now ≡ self.now.trail }
        ensures sound { IsSound self.now }
    {
        self.search.steps()
    }

    /// How many clauses there are.
    pub fn count(&self) -> u32
        ensures count { result ≡ length self.now.clauses }
        ensures few { result ≤ most_clauses }
    {
        self.search.count()
    }

    /// The clause of a number: those of the ground problem first, then the added ones in their order.
    pub fn clause(&self, k: u32) -> Option<&Clause>
        ensures { option_copied result ≡ slice_get self.now.clauses k }
    {
        self.search.clause(k)
    }

    /// Adds what follows by units to the trail, up to a clause that is false; where there is none, asks the theory,
    /// whose conflict is added last, with no cut. Answers the number of the false clause. An error leaves the
    /// search as it was. There are at most `MOST_CLAUSES`: where there are as many, none is added, as where memory runs
    /// out.
    pub fn propagate(&mut self, alloc: Global) -> Result<Option<u32>, AllocError>
        ensures moves { IfOk result (λ o. PropagatesBeside (T.valid self.old.sizes) self.old self.new o) }
        ensures last { OnOk result (GivesLast self.old self.new.trail) }
        ensures conflict { IfOk result (λ o. IfSome o (λ k. IsConflictAt self.new k)) }
        ensures settled { IfOk result (λ o. IfNone o (IsSettled self.new)) }
        ensures consistent { IfOk result (λ o. IfNone o (IsConsistentWith T.valid self.new)) }
        ensures known { IfOk result (λ o. IfNone o (T.known self.new.sizes (lits_of self.new.trail))) }
        ensures sound { OnOk result (IsSound self.new) }
        ensures few { OnOk result (length self.new.clauses ≤ most_clauses) }
        ensures err { OnErr result (self.new ≡ self.old) }
    {
        let before = self.search.steps().len();
        let conflict = self.search.propagate();
        if conflict.is_some() {
            return Ok(conflict);
        }
        tell(&self.search, &mut self.theory);
        match refute(alloc, &mut self.search, &self.theory) {
            Ok(answer) => Ok(answer),
            Err(error) => {
                self.search.retract(before);
                self.theory.undo_to(before as u32);
                Err(error)
            }
        }
    }

    // Opens a level with an atom that has no truth, made false.
    fn open(&mut self, atom: Atom) -> Lit
        requires settled { IsSettled self.old }
        requires consistent { IsConsistentWith T.valid self.old }
        requires range { IsInRange self.old.sizes atom }
        requires free { IsFree self.old.trail atom }
        ensures lit { result ≡ negative atom }
        ensures opens { OpensLevel self.old result self.new }
    {
        let lit = Lit {
            atom,
            positive: false,
        };
        self.search.assume(lit);
        lit
    }

    /// Opens a level with the first atom by its number that has no truth, made false, if there is one.
    pub fn decide(&mut self) -> Option<Lit>
        requires settled { IsSettled self.old }
        requires consistent { IsConsistentWith T.valid self.old }
        ensures none { IfNone result ((self.new ≡ self.old) × AllHaveTruth self.old.sizes self.old.trail) }
        ensures some { IfSome result (λ lit. OpensLevel self.old lit self.new) }
    {
        let atom = self.search.next_free()?;
        Some(self.open(atom))
    }

    /// Opens a level with an atom, made false, that has no truth, of the first clause that has one and no true literal,
    /// if there is such a clause.
    pub fn decide_needed(&mut self) -> Option<Lit>
        requires settled { IsSettled self.old }
        requires consistent { IsConsistentWith T.valid self.old }
        ensures none { IfNone result ((self.new ≡ self.old) × AreSatisfied self.old) }
        ensures some { IfSome result (λ lit. OpensLevel self.old lit self.new) }
        ensures occurs { IfSome result (λ lit. OccursIn self.old.clauses lit.atom) }
    {
        let atom = self.search.next_needed()?;
        Some(self.open(atom))
    }

    /// Adds the clause of the first unique implication point of a false clause last, with no cut. There are at
    /// most `MOST_CLAUSES`: where there are as many, none is added, as where memory runs out.
    pub fn learn(&mut self, alloc: Global, k: u32) -> Result<Learnt, AllocError>
        requires conflict { IsConflictAt self.old k }
        requires level { 0 < length self.old.starts }
        ensures learnt { IfOk result (λ l. IsLearnt self.old k l.clause l.level l.unit) }
        ensures added { IfOk result (λ l. self.new ≡ add_clause self.old l.clause) }
        ensures few { OnOk result (length self.new.clauses ≤ most_clauses) }
        ensures reasons { IfOk result (λ l. AreReasons self.old.clauses l.reasons.items l.clause) }
        ensures err { OnErr result (self.new ≡ self.old) }
    {
        self.search.learn(alloc, k)
    }

    /// Where a clause is false at level 0, numbers of clauses that, taken as hints in this order, show the empty
    /// clause.
    pub fn refutation(&mut self, alloc: Global, k: u32) -> Result<Vec<u32>, AllocError>
        requires conflict { IsConflictAt self.old k }
        requires level { self.old.starts ≡ [] }
        ensures reasons { IfOk result (λ v. AreReasons self.old.clauses v.items []) }
        ensures same { self.new ≡ self.old }
    {
        self.search.refutation(alloc, k)
    }

    /// Cuts the trail to a level.
    pub fn backjump(&mut self, level: u32)
        requires { level ≤ length self.old.starts }
        ensures { self.new ≡ cut self.old level }
    {
        self.search.backjump(level);
        let length = self.search.steps().len() as u32;
        if self.theory.mark() > length {
            self.theory.undo_to(length);
        }
    }

    /// Adds a clause last. Where it is false under the trail, that is cut to the greatest level of its literals. There
    /// are at most `MOST_CLAUSES`: where there are as many, none is added, as where memory runs out.
    pub fn add(&mut self, clause: Clause) -> Result<(), AllocError>
        requires { AreInRange self.old.sizes clause }
        ensures ok { OnOk result (AddsClause self.old clause self.new) }
        ensures few { OnOk result (length self.new.clauses ≤ most_clauses) }
        ensures err { OnErr result (self.new ≡ self.old) }
    {
        self.search.add(clause)?;
        let length = self.search.steps().len() as u32;
        if self.theory.mark() > length {
            self.theory.undo_to(length);
        }
        Ok(())
    }
}
