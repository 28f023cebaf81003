//! A search over clauses alone.

ghost use Rattle.std.specs.Prelude.{◌≡◌, ◌⊎◌, ℕ, ◌+◌, ◌*◌, ◌-◌, ◌<◌, ◌≤◌, [], ◌∷◌, ◌++◌, length, take, IfOk, OnOk};
ghost use Rattle.std.specs.Prelude.{OnErr, IfSome, IfNone, Some, None, false, slice_get, vec_capacity, option_copied};
ghost use Rattle.gh_base.specs.declared.atom.Lit.{Lit};
ghost use Rattle.gh_base.specs.Atoms.{IsInRange, AreInRange, count_of};
ghost use Rattle.gh_sat.specs.declared.trail.Step.{Step};
ghost use Rattle.gh_sat.specs.Trail.{IsFalseIn, AreSteps, AllHaveTruth, OpensLevel, search_over, most_clauses};
ghost use Rattle.gh_sat.specs.Learn.{IsTop, marked_reasons};

use crate::marks::{Marks, begin, no_marks, resolve};
use crate::needed::first_needed;
use crate::occurrences::Occurrences;
use crate::propagation::{Database, propagate};
use crate::reasons::{all_reasons, reasons_from};
use crate::trail::{Step, Trail};
use gh_base::assignment::Assignment;
use gh_base::atom::{Atom, Lit};
use gh_base::clause::Clause;
use gh_base::ground::Ground;
use gh_base::sizes::Sizes;
use std::alloc::{AllocError, Global};
use std::marker::Model;

/// The most clauses of a search: 32 bits then number a line for each, a last line, and the place after it.
pub const MOST_CLAUSES: usize = 4_294_967_293;

/// What was learnt: a clause, the level to cut to, the literal that is then its one unassigned one, and numbers of
/// earlier clauses that, taken as hints in this order, show the clause.
#[derive(Debug, Drop)]
pub struct Learnt {
    pub clause: Clause,
    pub level: u32,
    pub unit: Lit,
    pub reasons: Vec<u32>,
}

/// The clauses, the trail with its levels, and what propagation and conflict analysis keep.
#[derive(Drop)]
pub struct ClauseSearch {
    clauses: Vec<Clause>,
    trail: Trail,
    // The place at which level 1, 2, .. begins, and how many clauses had been looked at when it was opened.
    starts: Vec<u32>,
    counts: Vec<u32>,
    // So many clauses were looked at, and the trail is propagated up to this place.
    looked: u32,
    head: u32,
    occurrences: Occurrences,
    marks: Marks,
    alloc: Global,
}

impl Model for ClauseSearch {
    ghost use Rattle.gh_sat.specs.Trail.{SearchState};

    ghost Value = { SearchState };

    ghost use Rattle.gh_sat.specs.Fields.{search_of, HoldsSearch};

    ghost view = { search_of };

    ghost invariant = { HoldsSearch };
}

// The greatest level of a clause's literals, if each of them is false.
fn top_of(trail: &Trail, clause: &[Lit]) -> Option<u32>
    requires range { AreInRange trail.now.sizes clause.now }
    requires valid { AreSteps trail.now }
    ensures is_false { IfSome result (λ top. IsFalseIn trail.now.steps clause.now) }
    ensures top { IfSome result (λ top. IsTop trail.now.steps clause.now top) }
    ensures none { IfNone result (IsFalseIn trail.now.steps clause.now → ⊥) }
{
    let mut top: u32 = 0;
    for lit in clause {
        match trail.value(*lit) {
            None => return None,
            Some(true) => return None,
            Some(false) => {}
        }
        let place = trail.place(lit.atom) as usize;
        top = top.max(trail.steps()[place].level);
    }
    Some(top)
}

// Where a level began, and how many clauses there were.
#[derive(Clone, Copy)]
struct Opening {
    start: u32,
    count: u32,
}

// Cuts a trail to a level below the present one.
fn cut_to(trail: &mut Trail, starts: &mut Vec<u32>, counts: &mut Vec<u32>, level: u32) -> Opening
    requires low { level < length starts.old.items }
    requires counted { length counts.old.items ≡ length starts.old.items }
    ensures start { slice_get starts.old.items level ≡ Some result.start }
    ensures count { slice_get counts.old.items level ≡ Some result.count }
    ensures sizes { trail.new.sizes ≡ trail.old.sizes }
    ensures steps { trail.new.steps ≡ take result.start trail.old.steps }
    ensures starts { starts.new.items ≡ take level starts.old.items }
    ensures counts { counts.new.items ≡ take level counts.old.items }
    ensures starts_room { vec_capacity starts.new ≡ vec_capacity starts.old }
    ensures counts_room { vec_capacity counts.new ≡ vec_capacity counts.old }
{
    let start = starts[level as usize];
    let count = counts[level as usize];
    trail.erase(start as usize);
    starts.truncate(level as usize);
    counts.truncate(level as usize);
    Opening { start, count }
}

// How many clauses need no look when the trail is cut to a place at which a level is opened: those that were looked at,
// where all of the trail is known by then.
fn settled_count(looked: u32, head: u32, length: usize) -> u32
    ensures { (result ≡ 0) ⊎ ((result ≡ looked) × (head ≡ length)) }
{
    if head as usize == length { looked } else { 0 }
}

// What is learnt where resolving ends at a place, whose literal negated is the unit, once that is with the others.
fn learnt_of(
    alloc: Global,
    marks: &Marks,
    trail: &Trail,
    place: usize,
    conflict: u32,
    unit: Lit,
) -> Result<Learnt, AllocError>
    requires within { place < length trail.now.steps }
    requires long { length trail.now.steps ≤ length marks.now.stamps.items }
    ensures clause { IfOk result (λ l. l.clause ≡ marks.now.lower.items) }
    ensures level { IfOk result (λ l. l.level ≡ marks.now.level) }
    ensures unit { IfOk result (λ l. l.unit ≡ unit) }
    ensures reasons { IfOk result (λ l.
        l.reasons.items ≡ marked_reasons marks.now trail.now.steps (place + 1) ++ conflict ∷ []) }
{
    let reasons = reasons_from(alloc, marks, trail, place + 1, conflict)?;
    let clause = Clause::from_lits(alloc, marks.lower.as_slice())?;
    Ok(Learnt {
        clause,
        level: marks.level,
        unit,
        reasons,
    })
}

// Room for the starts and the counts of so many levels.
fn level_room(alloc: Global, atoms: usize) -> Result<(Vec<u32>, Vec<u32>), AllocError>
    ensures starts { IfOk result (λ p. p.0.items ≡ []) }
    ensures counts { IfOk result (λ p. p.1.items ≡ []) }
    ensures starts_room { IfOk result (λ p. atoms ≤ vec_capacity p.0) }
    ensures counts_room { IfOk result (λ p. atoms ≤ vec_capacity p.1) }
{
    let starts = Vec::with_capacity(alloc, atoms)?;
    let counts = Vec::with_capacity(alloc, atoms)?;
    Ok((starts, counts))
}

impl ClauseSearch {
    ghost use Rattle.gh_sat.specs.Trail.{SearchState, IsFree, IsAssignmentOf, IsSound, cut, open_level};
    ghost use Rattle.gh_sat.specs.Status.{IsSettled, AreSatisfied, OccursIn};
    ghost use Rattle.gh_sat.specs.Watch.{WasOpen};
    ghost use Rattle.gh_sat.specs.Learn.{IsConflictAt, IsLearnt, AreReasons, add_clause};
    ghost use Rattle.gh_sat.specs.Whole.{PropagatesTo, GivesLast, AddsClause};

    /// A search with no clause.
    pub fn empty(alloc: Global, sizes: Sizes) -> Result<ClauseSearch, AllocError>
        ensures { IfOk result (λ s. s ≡ record { sizes = sizes; clauses = []; trail = []; starts = [] }) }
    {
        let trail = Trail::new(alloc, sizes)?;
        let atoms = trail.sizes().count();
        let marks = no_marks(alloc, atoms)?;
        let occurrences = Occurrences::new(alloc, atoms)?;
        let (starts, counts) = level_room(alloc, atoms)?;
        Ok(ClauseSearch {
            clauses: Vec::new(alloc),
            trail,
            starts,
            counts,
            looked: 0,
            head: 0,
            occurrences,
            marks,
            alloc,
        })
    }

    /// A search over some clauses, with nothing on its trail. There are at most `MOST_CLAUSES`: more are answered as
    /// where memory runs out.
    pub fn new(alloc: Global, ground: &Ground) -> Result<ClauseSearch, AllocError>
        ensures over { IfOk result (λ s. s ≡ search_over ground.now.sizes ground.now.clauses) }
        ensures few { OnOk result (length ground.now.clauses ≤ most_clauses) }
    {
        let mut search = ClauseSearch::empty(alloc, ground.sizes())?;
        search.insert_all(alloc, ground)?;
        Ok(search)
    }

    // Adds the clauses of a problem to a search that has nothing yet.
    fn insert_all(&mut self, alloc: Global, ground: &Ground) -> Result<(), AllocError>
        requires { self.old ≡ search_over ground.now.sizes [] }
        ensures over { OnOk result (self.new ≡ search_over ground.now.sizes ground.now.clauses) }
        ensures few { OnOk result (length ground.now.clauses ≤ most_clauses) }
    {
        let mut number = 0;
        while let Some(clause) = ground.clause(number) {
            self.insert(clause.copy(alloc)?)?;
            number += 1;
        }
        Ok(())
    }

    /// Adds a clause last that wasn't false when a level was opened. There are at most `MOST_CLAUSES`: where there are
    /// as many, none is added, as where memory runs out.
    pub fn insert(&mut self, clause: Clause) -> Result<(), AllocError>
        requires range { AreInRange self.old.sizes clause }
        requires was_open { WasOpen self.old.trail self.old.starts clause }
        ensures ok { OnOk result (self.new ≡ add_clause self.old clause) }
        ensures few { OnOk result (length self.new.clauses ≤ most_clauses) }
        ensures err { OnErr result (self.new ≡ self.old) }
    {
        let level = self.level();
        self.insert_under(clause, level)
    }

    /// Adds a clause last. Where it is false under the trail, that is cut to the greatest level of its literals. There
    /// are at most `MOST_CLAUSES`: where there are as many, none is added, as where memory runs out.
    pub fn add(&mut self, clause: Clause) -> Result<(), AllocError>
        requires { AreInRange self.old.sizes clause }
        ensures ok { OnOk result (AddsClause self.old clause self.new) }
        ensures few { OnOk result (length self.new.clauses ≤ most_clauses) }
        ensures err { OnErr result (self.new ≡ self.old) }
    {
        match top_of(&self.trail, clause.lits()) {
            None => self.insert(clause),
            Some(top) => self.insert_under(clause, top),
        }
    }

    // Cuts the trail to a level and adds a clause last, which wasn't false when that or a lower one was opened.
    fn insert_under(&mut self, clause: Clause, level: u32) -> Result<(), AllocError>
        requires range { AreInRange self.old.sizes clause }
        requires was_open { WasOpen (cut self.old level).trail (cut self.old level).starts clause }
        ensures ok { OnOk result (self.new ≡ add_clause (cut self.old level) clause) }
        ensures few { OnOk result (length self.new.clauses ≤ most_clauses) }
        ensures err { OnErr result (self.new ≡ self.old) }
    {
        if self.clauses.len() >= MOST_CLAUSES {
            return Err(AllocError);
        }
        let number = self.clauses.len() as u32;
        let sizes = self.trail.sizes();
        self.occurrences.note(sizes, clause.lits(), number)?;
        self.clauses.push(clause)?;
        if level as usize >= self.starts.len() {
            return Ok(());
        }
        let (starts, counts) = (&mut self.starts, &mut self.counts);
        let point = cut_to(&mut self.trail, starts, counts, level);
        self.head = point.start;
        self.looked = point.count;
        Ok(())
    }

    /// The present level.
    pub fn level(&self) -> u32
        ensures { result ≡ length self.now.starts }
    {
        self.starts.len() as u32
    }

    /// How many clauses there are.
    pub fn count(&self) -> u32
        ensures count { result ≡ length self.now.clauses }
        ensures few { result ≤ most_clauses }
    {
        self.clauses.len() as u32
    }

    /// Takes the steps from a place on, which stands in the present level, off the trail.
    pub fn retract(&mut self, place: usize)
        requires within { place ≤ length self.old.trail }
        requires present { (level start : ℕ) → slice_get self.old.starts level ≡ Some start → start < place }
        requires levels { length self.old.starts ≤ place }
        ensures { self.new ≡ record self.old { trail = take place self.old.trail } }
    {
        self.trail.erase(place);
        self.looked = 0;
        self.head = place as u32;
    }

    /// The trail.
    pub fn steps(&self) -> &[Step]
        ensures steps { result.now ≡ self.now.trail }
        ensures sound { IsSound self.now }
    {
        self.trail.steps()
    }

    /// The numbers of terms, versions and definitions.
    pub fn sizes(&self) -> Sizes
        ensures { result ≡ self.now.sizes }
    {
        self.trail.sizes()
    }

    /// The truth of each literal.
    pub fn assignment(&self) -> &Assignment
        ensures { IsAssignmentOf result.now (record { sizes = self.now.sizes; steps = self.now.trail }) }
    {
        self.trail.assignment()
    }

    /// The clause of a number.
    pub fn clause(&self, k: u32) -> Option<&Clause>
        ensures { option_copied result ≡ slice_get self.now.clauses k }
    {
        self.clauses.get(k as usize)
    }

    /// Adds what follows by units to the trail, up to a clause that is false. Answers the number of that clause.
    pub fn propagate(&mut self) -> Option<u32>
        ensures moves { PropagatesTo self.old self.new }
        ensures last { GivesLast self.old self.new.trail }
        ensures conflict { IfSome result (λ k. IsConflictAt self.new k) }
        ensures settled { IfNone result (IsSettled self.new) }
        ensures sound { IsSound self.new }
        ensures few { length self.new.clauses ≤ most_clauses }
    {
        let level = self.starts.len() as u32;
        let database = Database {
            clauses: self.clauses.as_slice(),
            occurrences: &self.occurrences,
        };
        propagate(
            &database,
            &mut self.trail,
            &mut self.looked,
            &mut self.head,
            level,
        )
    }

    /// Opens a level with a literal that has no truth.
    pub fn assume(&mut self, lit: Lit)
        requires settled { IsSettled self.old }
        requires range { IsInRange self.old.sizes lit.atom }
        requires free { IsFree self.old.trail lit.atom }
        ensures opens { self.new ≡ open_level self.old lit }
        ensures sound { IsSound self.new }
    {
        let start = self.trail.steps().len() as u32;
        let count = settled_count(self.looked, self.head, start as usize);
        let level = self.starts.len() as u32 + 1;
        self.trail.put(Step {
            lit,
            level,
            reason: None,
        });
        self.starts.push_reserved(start);
        self.counts.push_reserved(count);
    }

    /// The first atom by its number that has no truth, if there is one.
    pub fn next_free(&self) -> Option<Atom>
        ensures some { IfSome result (λ a. IsInRange self.now.sizes a × IsFree self.now.trail a) }
        ensures none { IfNone result (AllHaveTruth self.now.sizes self.now.trail) }
        ensures sound { IsSound self.now }
    {
        self.trail.next_free()
    }

    /// An atom with no truth of the first clause that has one and no true literal, if there is such a clause.
    pub fn next_needed(&self) -> Option<Atom>
        requires { IsSettled self.now }
        ensures some { IfSome result (λ a. IsInRange self.now.sizes a × IsFree self.now.trail a) }
        ensures none { IfNone result (AreSatisfied self.now) }
        ensures occurs { IfSome result (OccursIn self.now.clauses) }
        ensures sound { IsSound self.now }
    {
        first_needed(&self.trail, self.clauses.as_slice())
    }

    /// Opens a level with an atom that has no truth, made false, if there is one.
    pub fn decide(&mut self) -> Option<Lit>
        requires { IsSettled self.old }
        ensures none { IfNone result ((self.new ≡ self.old) × AllHaveTruth self.old.sizes self.old.trail) }
        ensures some { IfSome result (λ lit. OpensLevel self.old lit self.new) }
        ensures negated { IfSome result (λ lit. lit.positive ≡ false) }
        ensures sound { IsSound self.new }
    {
        let atom = self.next_free()?;
        let lit = Lit {
            atom,
            positive: false,
        };
        self.assume(lit);
        Some(lit)
    }

    /// Cuts the trail to a level.
    pub fn backjump(&mut self, level: u32)
        requires { level ≤ length self.old.starts }
        ensures { self.new ≡ cut self.old level }
    {
        if (level as usize) < self.starts.len() {
            let (starts, counts) = (&mut self.starts, &mut self.counts);
            let point = cut_to(&mut self.trail, starts, counts, level);
            self.head = point.start;
            self.looked = point.count;
        }
    }

    /// Adds the clause of the first unique implication point of a false clause, as [`ClauseSearch::insert`] does.
    pub fn learn(&mut self, alloc: Global, conflict: u32) -> Result<Learnt, AllocError>
        requires conflict { IsConflictAt self.old conflict }
        requires level { 0 < length self.old.starts }
        ensures learnt { IfOk result (λ l. IsLearnt self.old conflict l.clause l.level l.unit) }
        ensures added { IfOk result (λ l. self.new ≡ add_clause self.old l.clause) }
        ensures few { OnOk result (length self.new.clauses ≤ most_clauses) }
        ensures reasons { IfOk result (λ l. AreReasons self.old.clauses l.reasons.items l.clause) }
        ensures err { OnErr result (self.new ≡ self.old) }
    {
        let start = self.starts[self.starts.len() - 1] as usize;
        begin(&mut self.marks, start, self.trail.steps().len());
        let place = resolve(
            &mut self.marks,
            &self.trail,
            self.clauses.as_slice(),
            self.clauses[conflict as usize].lits(),
        )?;
        let unit = self.trail.steps()[place].lit.negated();
        self.marks.lower.push(unit)?;
        let learnt = learnt_of(alloc, &self.marks, &self.trail, place, conflict, unit)?;
        self.keep(alloc, learnt)
    }

    // Adds a copy of what was learnt, which is answered.
    fn keep(&mut self, alloc: Global, learnt: Learnt) -> Result<Learnt, AllocError>
        requires range { AreInRange self.old.sizes learnt.clause }
        requires was_open { WasOpen self.old.trail self.old.starts learnt.clause }
        ensures same { IfOk result (λ l. l ≡ learnt) }
        ensures added { IfOk result (λ l. self.new ≡ add_clause self.old l.clause) }
        ensures few { OnOk result (length self.new.clauses ≤ most_clauses) }
        ensures err { OnErr result (self.new ≡ self.old) }
    {
        let added = learnt.clause.copy(alloc)?;
        self.insert(added)?;
        Ok(learnt)
    }

    /// Where a clause is false at level 0, numbers of clauses that, taken as hints in this order, show the empty
    /// clause.
    pub fn refutation(&mut self, alloc: Global, conflict: u32) -> Result<Vec<u32>, AllocError>
        requires conflict { IsConflictAt self.old conflict }
        requires level { self.old.starts ≡ [] }
        ensures reasons { IfOk result (λ v. AreReasons self.old.clauses v.items []) }
        ensures same { self.new ≡ self.old }
    {
        let clauses = self.clauses.as_slice();
        let reasons = all_reasons(alloc, &mut self.marks, &self.trail, clauses, conflict)?;
        Ok(reasons)
    }
}
