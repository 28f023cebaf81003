//! A search whose clauses are the lines of a section.

ghost use Rattle.std.specs.Prelude.{◌≡◌, ◌<◌, ◌≤◌, ◌+◌, All, Contains, IfNone, IfOk, IfSome, OnOk, Some, None};
ghost use Rattle.std.specs.Prelude.{[], length, map, slice_get};
ghost use Rattle.gh_cc.specs.Fields.{most_filed};
ghost use Rattle.gh_base.specs.Atoms.{count_of};
ghost use Rattle.gh_base.specs.Grounds.{Problem};
ghost use Rattle.gh_base.specs.Meaning.{IsClauseTrue, IsCongruence};
ghost use Rattle.gh_base.specs.Structures.{interpretation_of};
ghost use Rattle.gh_inst.specs.Instances.{IsInstance};
ghost use Rattle.gh_log.specs.Lines.{Axiom};
ghost use Rattle.gh_log.specs.Sections.{line_clause, AreOfKind};
ghost use Rattle.gh_log.specs.Spelled.{IsOfVersion};
ghost use Rattle.gh_ground.specs.Kept.{HasLineEach, KeepsLines, Propagates, IsAnswered, IsUndecided};
ghost use Rattle.gh_ground.specs.Kept.{IsFalseAtLevelZero, IsEnded, IfAnswered, IfEnded, IsModelOfEach, AddsInstance};
ghost use Rattle.gh_ground.specs.Kept.{IsOutcome, Refutes};
ghost use Rattle.gh_sat.specs.Learn.{IsConflictAt};
ghost use Rattle.gh_sat.specs.Measure.{LeavesLess};
ghost use Rattle.gh_sat.specs.Theory.{lits_of};
ghost use Rattle.gh_sat.specs.Trail.{IsSound};
ghost use Rattle.gh_sat.specs.Whole.{GivesLast};

use crate::congruence::Congruence;
use crate::structures::structure_of;
use gh_base::atom::Lit;
use gh_base::clause::Clause;
use gh_base::ground::Ground;
use gh_base::structure::Structure;
use gh_inst::collecting::false_instances;
use gh_inst::naming::{InstanceName, instance};
use gh_log::lines::{Lines, LogLine, Section};
use gh_sat::search::Search;
use gh_sat::trail::Step;
use std::alloc::{AllocError, Global};
use std::mem;

/// A search over ground clauses beside equality and congruence, and a line for each of its clauses.
#[derive(Drop)]
pub(crate) struct Solver {
    search: Search<Congruence>,
    lines: Lines,
}

/// What a search comes to.
#[derive(Drop)]
pub(crate) enum Outcome {
    /// All clauses and all axiom instances are true in a structure.
    Model(Structure),
    /// The clause of a number is false at level 0.
    Conflict(u32),
}

// What a turn of the search comes to.
#[derive(Clone, Copy)]
enum Turn {
    // The search is over.
    Ended,
    // An answer of propagation, from which the search goes on.
    Answered(Option<u32>),
}

// A line for each clause of a ground problem.
fn ground_lines(alloc: Global, ground: &Ground) -> Result<Lines, AllocError>
    ensures clauses { IfOk result (λ ls. map (line_clause ground.now) ls ≡ map Some ground.now.clauses) }
    ensures of_kind { IfOk result (λ ls. AreOfKind ground.now ls) }
    ensures version { IfOk result (λ ls. All (IsOfVersion 2) ls) }
{
    let mut lines = Lines::new(alloc);
    for number in 0..ground.count() {
        lines.push(LogLine::Clause { number })?;
    }
    Ok(lines)
}

// The clause of a number, if it is there.
fn clause_at(
    alloc: Global,
    search: &Search<Congruence>,
    number: u32,
) -> Result<Option<Clause>, AllocError>
    ensures { IfOk result (λ o. o ≡ slice_get search.now.clauses number) }
{
    match search.clause(number) {
        None => Ok(None),
        Some(clause) => Ok(Some(clause.copy(alloc)?)),
    }
}

// The positions of the lines of some clauses. Those count from 1, and a clause's line stands at its number.
fn positions(alloc: Global, numbers: &[u32]) -> Result<Vec<u32>, AllocError>
    requires { All (λ k. k < 4294967295) numbers.now }
    ensures { IfOk result (λ v. v.items ≡ map (λ k. k + 1) numbers.now) }
{
    let mut positions = Vec::with_capacity(alloc, numbers.len())?;
    for number in numbers {
        positions.push(number + 1)?;
    }
    Ok(positions)
}

// The literals of a trail.
fn trail_lits(alloc: Global, steps: &[Step]) -> Result<Vec<Lit>, AllocError>
    ensures { IfOk result (λ v. v.items ≡ lits_of steps.now) }
{
    let mut lits = Vec::with_capacity(alloc, steps.len())?;
    for step in steps {
        lits.push(step.lit)?;
    }
    Ok(lits)
}

impl Solver {
    /// Nothing is decided yet.
    pub(crate) fn new(alloc: Global, ground: &Ground) -> Result<Solver, AllocError>
        ensures lines { IfOk result (λ s. HasLineEach ground.now s.search s.lines) }
        ensures few { OnOk result (count_of ground.now.sizes ≤ most_filed) }
    {
        let lines = ground_lines(alloc, ground)?;
        let sizes = ground.sizes();
        let theory = Congruence::new(alloc, sizes.terms, sizes.versions, sizes.defs)?;
        let search = Search::new(alloc, ground, theory)?;
        Ok(Solver { search, lines })
    }

    // Propagates, and notes the lemma of a conflict of equality and congruence.
    fn propagate(&mut self, alloc: Global) -> Result<Option<u32>, AllocError>
        ensures moves { IfOk result (Propagates self.old.search self.new.search) }
        ensures last { OnOk result (GivesLast self.old.search self.new.search.trail) }
        ensures answered { IfOk result (λ o. IsAnswered self.new.search o) }
        ensures keeps { OnOk result (KeepsLines self.old.search self.old.lines self.new.search self.new.lines) }
    {
        let before = self.search.count();
        let answer = self.search.propagate(alloc)?;
        match clause_at(alloc, &self.search, before)? {
            None => Ok(answer),
            Some(lemma) => {
                self.lines.push(LogLine::Lemma(lemma.lits()))?;
                Ok(answer)
            }
        }
    }

    // Decides an atom of a clause that has no true literal, if there is one, and propagates.
    fn decide(&mut self, alloc: Global) -> Result<Turn, AllocError>
        requires { IsAnswered self.old.search None }
        ensures less { IfOk result (λ t. IfAnswered t (λ _. LeavesLess self.old.search self.new.search)) }
        ensures answered { IfOk result (λ t. IfAnswered t (IsAnswered self.new.search)) }
        ensures open { IfOk result (λ t. IfEnded t (IsUndecided self.new.search)) }
        ensures keeps { OnOk result (KeepsLines self.old.search self.old.lines self.new.search self.new.lines) }
    {
        match self.search.decide_needed() {
            None => Ok(Turn::Ended),
            Some(_lit) => Ok(Turn::Answered(self.propagate(alloc)?)),
        }
    }

    // Learns from a false clause, jumps back and propagates.
    fn learn(&mut self, alloc: Global, conflict: u32) -> Result<Option<u32>, AllocError>
        requires sound { IsSound self.old.search }
        requires conflict { IsConflictAt self.old.search conflict }
        requires level { 0 < length self.old.search.starts }
        ensures less { OnOk result (LeavesLess self.old.search self.new.search) }
        ensures answered { IfOk result (IsAnswered self.new.search) }
        ensures keeps { OnOk result (KeepsLines self.old.search self.old.lines self.new.search self.new.lines) }
    {
        let learnt = self.search.learn(alloc, conflict)?;
        self.search.backjump(learnt.level);
        let hints = positions(alloc, learnt.reasons.as_slice())?;
        self.lines.push(LogLine::Hinted {
            clause: learnt.clause.lits(),
            hints: hints.as_slice(),
        })?;
        let next = self.propagate(alloc)?;
        Ok(next)
    }

    // A decision, or a lesson, and then the next answer of `propagate`. The search is over where each clause has a true
    // literal, and where the conflict stands at level 0.
    fn turn(&mut self, alloc: Global, answer: Option<u32>) -> Result<Turn, AllocError>
        requires { IsAnswered self.old.search answer }
        ensures less { IfOk result (λ t. IfAnswered t (λ _. LeavesLess self.old.search self.new.search)) }
        ensures answered { IfOk result (λ t. IfAnswered t (IsAnswered self.new.search)) }
        ensures ended { IfOk result (λ t. IfEnded t (IsEnded self.new.search answer)) }
        ensures keeps { OnOk result (KeepsLines self.old.search self.old.lines self.new.search self.new.lines) }
    {
        match answer {
            None => {
                let next = self.decide(alloc)?;
                Ok(next)
            }
            Some(conflict) => {
                if self.search.level() == 0 {
                    return Ok(Turn::Ended);
                }
                let next = self.learn(alloc, conflict)?;
                Ok(Turn::Answered(next))
            }
        }
    }

    // Searches on until each clause has a true literal, or one is false at level 0, whose number is answered.
    fn conflict(&mut self, alloc: Global) -> Result<Option<u32>, AllocError>
        ensures ended { IfOk result (IsEnded self.new.search) }
        ensures keeps { OnOk result (KeepsLines self.old.search self.old.lines self.new.search self.new.lines) }
    {
        let mut found = self.propagate(alloc)?;
        while let Turn::Answered(next) = self.turn(alloc, found)? {
            found = next;
        }
        Ok(found)
    }

    // The structure of what the trail asserts.
    fn structure(&self, alloc: Global) -> Result<Structure, AllocError>
        requires open { IsUndecided self.now.search }
        requires kept { (p : Problem) × HasLineEach p self.now.search self.now.lines }
        ensures sizes { IfOk result (λ s. s.sizes ≡ self.now.search.sizes) }
        ensures clauses { IfOk result (λ s. All (IsClauseTrue (interpretation_of s)) self.now.search.clauses) }
        ensures congruence { IfOk result (λ s. IsCongruence self.now.search.sizes (interpretation_of s)) }
    {
        let sizes = self.search.assignment().sizes();
        let lits = trail_lits(alloc, self.search.steps())?;
        let structure = structure_of(alloc, sizes, lits.as_slice())?;
        Ok(structure)
    }

    // Adds an instance of an axiom row.
    fn add_instance(&mut self, alloc: Global, name: InstanceName) -> Result<(), AllocError>
        requires { IsInstance self.old.search.sizes.terms self.old.search.sizes.versions name }
        ensures sizes { OnOk result (self.new.search.sizes ≡ self.old.search.sizes) }
        ensures added { OnOk result (Contains self.new.lines (Axiom name)) }
        ensures keeps { OnOk result (KeepsLines self.old.search self.old.lines self.new.search self.new.lines) }
    {
        let sizes = self.search.assignment().sizes();
        let Some(clause) = instance(alloc, name, sizes.terms, sizes.versions) else {
            return Ok(());
        };
        self.lines.push(LogLine::Axiom(name))?;
        self.search.add(clause)?;
        Ok(())
    }

    // Adds instances of axiom rows.
    fn add_instances(&mut self, alloc: Global, names: &[InstanceName]) -> Result<(), AllocError>
        requires { All (IsInstance self.old.search.sizes.terms self.old.search.sizes.versions) names.now }
        ensures added { OnOk result (All (λ name. Contains self.new.lines (Axiom name)) names.now) }
        ensures keeps { OnOk result (KeepsLines self.old.search self.old.lines self.new.search self.new.lines) }
    {
        for name in names {
            self.add_instance(alloc, *name)?;
        }
        Ok(())
    }

    // The structure of what the trail asserts, if all axiom instances are true in it; else false ones are added.
    fn model(&mut self, alloc: Global) -> Result<Option<Structure>, AllocError>
        requires open { IsUndecided self.old.search }
        requires kept { (p : Problem) × HasLineEach p self.old.search self.old.lines }
        ensures model { IfOk result (λ o. IfSome o (IsModelOfEach self.old.search self.old.lines)) }
        ensures added { IfOk result (λ o. IfNone o (AddsInstance self.old.search self.old.lines self.new.lines)) }
        ensures keeps { OnOk result (KeepsLines self.old.search self.old.lines self.new.search self.new.lines) }
    {
        let structure = self.structure(alloc)?;
        let names = false_instances(alloc, &structure)?;
        if names.is_empty() {
            return Ok(Some(structure));
        }
        self.add_instances(alloc, names.as_slice())?;
        Ok(None)
    }

    /// Searches on, and adds instances where a structure makes them false, until none is false or a clause is false at
    /// level 0.
    pub(crate) fn outcome(&mut self, alloc: Global) -> Result<Outcome, AllocError>
        requires { (p : Problem) × HasLineEach p self.old.search self.old.lines }
        ensures outcome { IfOk result (IsOutcome self.old.search self.old.lines self.new.search) }
        ensures keeps { OnOk result (KeepsLines self.old.search self.old.lines self.new.search self.new.lines) }
    {
        loop {
            if let Some(conflict) = self.conflict(alloc)? {
                return Ok(Outcome::Conflict(conflict));
            }
            if let Some(structure) = self.model(alloc)? {
                return Ok(Outcome::Model(structure));
            }
        }
    }

    /// Ends the lines with the empty clause: a clause is false at level 0.
    pub(crate) fn refute(&mut self, alloc: Global, conflict: u32) -> Result<(), AllocError>
        requires { IsFalseAtLevelZero self.old.search conflict }
        ensures { OnOk result (Refutes self.old.search self.old.lines self.new.lines) }
    {
        let _count = self.search.count();
        let reasons = self.search.refutation(alloc, conflict)?;
        let hints = positions(alloc, reasons.as_slice())?;
        let last = LogLine::Hinted {
            clause: &[],
            hints: hints.as_slice(),
        };
        self.lines.push(last)?;
        Ok(())
    }

    /// The section of the lines, which are given away.
    pub(crate) fn take_section(&mut self, alloc: Global) -> Section
        ensures first { result.first ≡ 1 }
        ensures lines { result.lines ≡ self.old.lines }
    {
        Section {
            first: 1,
            lines: mem::replace(&mut self.lines, Lines::new(alloc)),
        }
    }
}
