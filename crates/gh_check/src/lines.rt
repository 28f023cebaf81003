//! Lines, each after those before it.

ghost use Rattle.std.specs.Prelude.{◌≡◌, ◌↔◌, List, IfOk, OnOk, IsTrue};
ghost use Rattle.gh_base.specs.Atoms.{AreInRange};
ghost use Rattle.gh_log.specs.Lines.{LogLine as Line};
ghost use Rattle.gh_log.specs.Lines as line_kind;
ghost use Rattle.gh_log.specs.Tables.{line_of};
ghost use Rattle.gh_base.specs.Grounds.{Problem};
ghost use Rattle.gh_base.specs.Meaning.{IsEqualityClause};
ghost use Rattle.gh_base.specs.Propagation.{FollowsByUnits};
ghost use Rattle.gh_check.specs.Kept.{AreWithin, present};
ghost use Rattle.gh_check.specs.Lines.{IsChecked, Answers, Leaves, FitsSizes, AnswersOver};
ghost use Rattle.gh_check.specs.Assuming.{IsBehind};
ghost use Rattle.gh_check.specs.RootUnits.{AreRootUnitsOf};

use crate::fault::FaultKind;
use crate::hints::Truths;
use crate::positions::Positions;
use crate::root_units::{RootUnits, judgement};
use crate::units::Units;
use gh_base::atom::Lit;
use gh_base::clause::Clause;
use gh_base::ground::Ground;
use gh_base::sizes::Sizes;
use gh_cc::lemma::is_lemma;
use gh_inst::naming::{InstanceName, instance};
use gh_log::lines::LogLine;
use std::alloc::{AllocError, Global};

/// What the check of a line answers: its fault, or that it is of its kind.
#[derive(Drop)]
pub enum Outcome {
    Faulty(FaultKind),
    Holds,
}

/// What the check of a section keeps: the lines before, and what clauses are shown by.
#[derive(Drop)]
pub struct Earlier<'s> {
    pub kept: Positions<'s>,
    pub root_units: Option<RootUnits>,
    pub units: Units,
    pub truths: Truths,
}

/// Whether each atom is in range.
pub fn are_in_range(sizes: Sizes, lits: &[Lit]) -> bool
    ensures { IsTrue result ↔ AreInRange sizes lits.now }
{
    lits.iter().all(|lit| sizes.has(lit.atom))
}

// Checks the name of an instance.
fn check_axiom(alloc: Global, ground: &Ground, name: InstanceName) -> Outcome
    ensures { (earlier : List Line) → IsChecked ground.now earlier (line_kind.Axiom name) result }
{
    match instance(alloc, name, ground.terms(), ground.versions()) {
        None => Outcome::Faulty(FaultKind::NotInstance),
        Some(_clause) => Outcome::Holds,
    }
}

// Checks the number of a ground clause.
fn check_clause(ground: &Ground, number: u32) -> Outcome
    ensures { (earlier : List Line) → IsChecked ground.now earlier (line_kind.Clause number) result }
{
    match ground.clause(number) {
        None => Outcome::Faulty(FaultKind::NotClause),
        Some(_clause) => Outcome::Holds,
    }
}

// Whether a clause follows from equality and congruence alone.
fn follows_alone(alloc: Global, sizes: Sizes, lits: &[Lit]) -> Result<bool, AllocError>
    ensures { IfOk result (λ b. IsTrue b ↔ IsEqualityClause sizes lits.now) }
{
    let clause = Clause::from_lits(alloc, lits)?;
    let follows = is_lemma(alloc, &clause, sizes.terms, sizes.versions, sizes.defs)?;
    Ok(follows)
}

// Checks that a clause follows from equality and congruence alone.
fn check_lemma(alloc: Global, ground: &Ground, lits: &[Lit]) -> Result<Outcome, AllocError>
    ensures { IfOk result (λ o. (earlier : List Line) → IsChecked ground.now earlier (line_kind.Lemma lits.now) o) }
{
    if !follows_alone(alloc, ground.sizes(), lits)? {
        return Ok(Outcome::Faulty(FaultKind::NotLemma));
    }
    Ok(Outcome::Holds)
}

// Whether unit propagation shows a clause from all lines before: as what stands tells, or else by all their clauses.
fn is_implied(
    alloc: Global,
    sizes: Sizes,
    kept: &Positions<'_>,
    root_units: &mut Option<RootUnits>,
    units: &mut Units,
    lits: &[Lit],
) -> Result<bool, AllocError>
    requires root_units { AreRootUnitsOf sizes kept.now.clauses root_units.old }
    requires behind { IsBehind sizes kept.now.clauses units.old }
    requires range { AreInRange sizes lits.now }
    requires within { AreWithin sizes kept.now.clauses }
    ensures exact { IfOk result (λ b. IsTrue b ↔ FollowsByUnits (present kept.now.clauses) lits.now) }
    ensures root_units { OnOk result (AreRootUnitsOf sizes kept.now.clauses root_units.new) }
    ensures behind { OnOk result (IsBehind sizes kept.now.clauses units.new) }
{
    match judgement(alloc, root_units, sizes, kept, lits)? {
        Some(implied) => Ok(implied),
        None => {
            let implied = units.are_implied(alloc, sizes, kept, lits)?;
            Ok(implied)
        }
    }
}

// Checks that the atoms of a clause are in range and unit propagation shows it from all lines before.
fn check_learnt(
    alloc: Global,
    sizes: Sizes,
    kept: &Positions<'_>,
    root_units: &mut Option<RootUnits>,
    units: &mut Units,
    lits: &[Lit],
) -> Result<Outcome, AllocError>
    requires root_units { AreRootUnitsOf sizes kept.now.clauses root_units.old }
    requires behind { IsBehind sizes kept.now.clauses units.old }
    requires within { AreWithin sizes kept.now.clauses }
    ensures checked { IfOk result (AnswersOver sizes kept.now (line_kind.Learnt lits.now)) }
    ensures root_units { OnOk result (AreRootUnitsOf sizes kept.now.clauses root_units.new) }
    ensures behind { OnOk result (IsBehind sizes kept.now.clauses units.new) }
{
    if !are_in_range(sizes, lits) {
        return Ok(Outcome::Faulty(FaultKind::NotImplied));
    }
    if !is_implied(alloc, sizes, kept, root_units, units, lits)? {
        return Ok(Outcome::Faulty(FaultKind::NotImplied));
    }
    Ok(Outcome::Holds)
}

// Checks that the atoms of a clause are in range, and that its hints all stand and show it.
fn check_hinted(
    ground: &Ground,
    kept: &Positions<'_>,
    truths: &mut Truths,
    lits: &[Lit],
    hints: &[u32],
) -> Result<Outcome, AllocError>
    requires sizes { truths.old.sizes ≡ ground.now.sizes }
    requires within { AreWithin ground.now.sizes kept.now.clauses }
    ensures checked { IfOk result (Answers ground.now kept.now (line_kind.Hinted lits.now hints.now)) }
    ensures sizes { OnOk result (truths.new.sizes ≡ ground.now.sizes) }
{
    if !kept.all_stand(hints) {
        return Ok(Outcome::Faulty(FaultKind::NoSuchLine));
    }
    if !are_in_range(ground.sizes(), lits) {
        return Ok(Outcome::Faulty(FaultKind::NotImplied));
    }
    if !truths.are_shown(kept, lits, hints)? {
        return Ok(Outcome::Faulty(FaultKind::NotImplied));
    }
    Ok(Outcome::Holds)
}

// Checks that positions stand and are distinct, and deletes them.
fn check_deletion(kept: &mut Positions<'_>, positions: &[u32]) -> Outcome
    ensures problem { kept.new.problem ≡ kept.old.problem }
    ensures lines { kept.new.lines ≡ kept.old.lines }
    ensures clauses { kept.new.clauses ≡ kept.old.clauses }
    ensures checked { (p : Problem) → Answers p kept.old (line_kind.Delete positions.now) result }
    ensures deleted { (p : Problem) → Leaves p kept.old (line_kind.Delete positions.now) result kept.new }
{
    if kept.delete(positions) {
        Outcome::Holds
    } else {
        Outcome::Faulty(FaultKind::NoSuchLine)
    }
}

/// Checks a line after those that are kept. Where the answer is `Holds`, the line is to be kept too.
pub fn check_line(
    alloc: Global,
    ground: &Ground,
    before: &mut Earlier<'_>,
    line: LogLine<'_>,
) -> Result<Outcome, AllocError>
    requires { FitsSizes ground.now.sizes before.old }
    ensures checked { IfOk result (Answers ground.now before.old.kept (line_of line.entry)) }
    ensures kept { IfOk result (λ o. Leaves ground.now before.old.kept (line_of line.entry) o before.new.kept) }
    ensures problem { OnOk result (before.new.kept.problem ≡ before.old.kept.problem) }
    ensures lines { OnOk result (before.new.kept.lines ≡ before.old.kept.lines) }
    ensures ready { OnOk result (FitsSizes ground.now.sizes before.new) }
{
    match line {
        LogLine::Axiom(name) => Ok(check_axiom(alloc, ground, name)),
        LogLine::Clause { number } => Ok(check_clause(ground, number)),
        LogLine::Lemma(lits) => Ok(check_lemma(alloc, ground, lits)?),
        LogLine::Learnt(lits) => {
            let (root_units, units) = (&mut before.root_units, &mut before.units);
            Ok(check_learnt(alloc, ground.sizes(), &before.kept, root_units, units, lits)?)
        }
        LogLine::Hinted { clause, hints } => {
            Ok(check_hinted(ground, &before.kept, &mut before.truths, clause, hints)?)
        }
        LogLine::Delete { positions } => Ok(check_deletion(&mut before.kept, positions)),
    }
}
