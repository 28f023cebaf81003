//! The trail: the literals that are true, in the order in which they became so.

ghost use Rattle.std.specs.Prelude.{◌≡◌, ◌<◌, ◌≤◌, IfOk, IfSome, IfNone, [], length, take, vec_capacity};
ghost use Rattle.gh_base.specs.Atoms.{IsInRange, count_of};
ghost use Rattle.gh_sat.specs.Trail.{AllHaveTruth, IsFreeAt, IsPassed, StandsOnlyAt};

use gh_base::assignment::Assignment;
use gh_base::atom::{Atom, Lit};
use gh_base::sizes::Sizes;
use std::alloc::{AllocError, Global};
use std::marker::Model;

/// A literal of the trail, with its level and, where it was propagated, the number of the clause that made it true.
#[derive(Clone, Copy, Debug, PartialEq, Eq)]
pub struct Step {
    pub lit: Lit,
    pub level: u32,
    pub reason: Option<u32>,
}

/// The steps, and tables by the numbers of atoms that tell each literal's truth and place. Room for all atoms is
/// taken when it is made.
#[derive(Drop)]
pub(crate) struct Trail {
    values: Assignment,
    places: Vec<u32>,
    steps: Vec<Step>,
}

impl Model for Trail {
    ghost use Rattle.std.specs.Prelude.{vec_capacity};
    ghost use Rattle.gh_sat.specs.Trail.{Line, AreTrailTables};

    ghost Value = { Line };

    ghost view = { λ t. record { sizes = t.values.sizes; steps = t.steps.items } };

    ghost invariant = { λ t. AreTrailTables t.values t.places.items t.steps.items (vec_capacity t.steps) };
}

// The first number whose atom has no truth, if there is one.
fn first_free_number(values: &Assignment) -> Option<usize>
    ensures range { IfSome result (λ number. number < count_of values.now.sizes) }
    ensures free { IfSome result (λ number. IsFreeAt values.now number) }
    ensures none { IfNone result (IsPassed values.now (count_of values.now.sizes)) }
{
    for number in 0..values.sizes().count() {
        if values.values()[number].is_none() {
            return Some(number);
        }
    }
    None
}

// A place for each of so many atoms, and room for their steps.
fn step_room(alloc: Global, count: usize) -> Result<(Vec<u32>, Vec<Step>), AllocError>
    ensures places { IfOk result (λ p. length p.0.items ≡ count) }
    ensures steps { IfOk result (λ p. p.1.items ≡ []) }
    ensures room { IfOk result (λ p. count ≤ vec_capacity p.1) }
{
    let places = vec![in alloc; 0; count]?;
    let steps = Vec::with_capacity(alloc, count)?;
    Ok((places, steps))
}

impl Trail {
    ghost use Rattle.gh_sat.specs.declared.trail.Step.{Step};
    ghost use Rattle.gh_base.specs.declared.atom.Lit.{Lit};
    ghost use Rattle.gh_sat.specs.Trail.{Line, IsFree, IsTrueIn, IsTruth, AreSteps, IsAssignmentOf, push};

    /// A trail with no step.
    pub fn new(alloc: Global, sizes: Sizes) -> Result<Trail, AllocError>
        ensures { IfOk result (λ t. t ≡ record { sizes = sizes; steps = [] }) }
    {
        let values = Assignment::new(alloc, sizes.terms, sizes.versions, sizes.defs)?;
        let count = values.sizes().count();
        let (places, steps) = step_room(alloc, count)?;
        Ok(Trail {
            values,
            places,
            steps,
        })
    }

    /// The numbers of terms, versions and definitions.
    pub fn sizes(&self) -> Sizes
        ensures sizes { result ≡ self.now.sizes }
        ensures valid { AreSteps self.now }
    {
        self.values.sizes()
    }

    /// The steps.
    pub fn steps(&self) -> &[Step]
        ensures steps { result.now ≡ self.now.steps }
        ensures valid { AreSteps self.now }
    {
        self.steps.as_slice()
    }

    /// The truth of each literal.
    pub fn assignment(&self) -> &Assignment
        ensures { IsAssignmentOf result.now self.now }
    {
        &self.values
    }

    /// The truth of a literal.
    pub fn value(&self, lit: Lit) -> Option<bool>
        requires { IsInRange self.now.sizes lit.atom }
        ensures value { IsTruth self.now.steps lit result }
        ensures valid { AreSteps self.now }
    {
        self.values.value(lit)
    }

    /// The place at which an atom stands. Where the atom has no truth, nothing is said of the answer.
    pub fn place(&self, atom: Atom) -> u32
        requires { IsInRange self.now.sizes atom }
        ensures { StandsOnlyAt self.now.steps atom result }
    {
        self.places[self.values.sizes().number(atom)]
    }

    /// Makes a literal true.
    pub fn put(&mut self, step: Step)
        requires range { IsInRange self.old.sizes step.lit.atom }
        requires free { IsFree self.old.steps step.lit.atom }
        ensures put { self.new ≡ push self.old step }
        ensures valid { AreSteps self.new }
    {
        let number = self.values.sizes().number(step.lit.atom);
        self.places[number] = self.steps.len() as u32;
        self.steps.push_reserved(step);
        self.values.set(step.lit);
    }

    // Takes the last step off.
    fn pop(&mut self)
        requires { 0 < length self.old.steps }
        ensures { (x : Step) × (self.old ≡ push self.new x) }
    {
        let Some(step) = self.steps.pop() else {
            return;
        };
        self.values.clear(step.lit.atom);
    }

    /// Leaves the steps before a place.
    pub fn erase(&mut self, start: usize)
        ensures sizes { self.new.sizes ≡ self.old.sizes }
        ensures steps { self.new.steps ≡ take start self.old.steps }
        ensures valid { AreSteps self.new }
    {
        while self.steps.len() > start {
            self.pop();
        }
    }

    /// The first atom by its number that has no truth, if there is one.
    pub fn next_free(&self) -> Option<Atom>
        ensures some { IfSome result (λ a. IsInRange self.now.sizes a × IsFree self.now.steps a) }
        ensures none { IfNone result (AllHaveTruth self.now.sizes self.now.steps) }
    {
        let number = first_free_number(&self.values)?;
        Some(self.values.sizes().atom(number))
    }
}
