//! Random grounds, beside all structures where there are few, and beside themselves with all instances written out.

ghost use Rattle.std.specs.Prelude.{◌<◌, ◌≤◌};

use super::plain::written_out;
use super::{Verdict, Way, decided, decided_by, push};
use gh_base::atom::{Atom, Lit, Term};
use gh_base::clause::Clause;
use gh_base::ground::Ground;
use gh_base::sizes::Sizes;
use gh_inst::instances::Instances;
use gh_inst::naming::instance;
use std::alloc::{AllocError, Global};

// Numbers in no order that one sees.
#[derive(Drop)]
struct Random {
    state: u64,
}

impl Random {
    fn below(&mut self, limit: usize) -> usize
        requires { 0 < limit }
        ensures { result < limit }
    {
        self.state = self
            .state
            .wrapping_mul(6364136223846793005)
            .wrapping_add(1442695040888963407);
        (self.state >> 33) as usize % limit
    }

    fn lit(&mut self, sizes: Sizes) -> Lit {
        let count = sizes.count();
        if count == 0 {
            return Lit::default();
        }
        Lit {
            atom: sizes.atom(self.below(count)),
            positive: self.below(2) == 0,
        }
    }
}

// One to three literals.
fn random_clause(alloc: Global, random: &mut Random, sizes: Sizes) -> Result<Clause, AllocError> {
    let mut clause = Clause::new(alloc);
    for _number in 0..=random.below(3) {
        clause.push(random.lit(sizes))?;
    }
    Ok(clause)
}

// The sizes of a table of grounds.
#[derive(Clone, Copy)]
struct Row {
    terms: u8,
    versions: u8,
    clauses: usize,
}

fn blank(alloc: Global, row: Row) -> Ground
    requires terms { 1 ≤ row.terms }
    requires versions { 1 ≤ row.versions }
{
    let mut ground = Ground::new(alloc, row.terms, row.versions);
    ground.define();
    ground.define();
    ground
}

fn random_ground(alloc: Global, random: &mut Random, row: Row) -> Result<Ground, AllocError>
    requires terms { 1 ≤ row.terms }
    requires versions { 1 ≤ row.versions }
{
    let mut ground = blank(alloc, row);
    let sizes = ground.sizes();
    for _number in 0..row.clauses {
        push(&mut ground, random_clause(alloc, random, sizes)?)?;
    }
    Ok(ground)
}

// A structure is a number here: the bit of an atom's number is its truth.
fn holds(sizes: Sizes, bits: u32, atom: Atom) -> bool {
    if !sizes.has(atom) {
        return false;
    }
    let number = sizes.number(atom);
    number < 32 && bits >> number & 1 == 1
}

fn is_clause_true(sizes: Sizes, bits: u32, clause: &Clause) -> bool {
    let mut lits = clause.lits().iter();
    lits.any(|lit| holds(sizes, bits, lit.atom) == lit.positive)
}

// The atom with the first term in place of each.
fn at_first(atom: Atom) -> Atom {
    let x = Term(0);
    let (y, z, v) = (x, x, x);
    match atom {
        Atom::Eq { .. } => Atom::Eq { a: x, b: y },
        Atom::Btwn { version, .. } => Atom::Btwn { version, x, y, z },
        Atom::Hop { version, .. } => Atom::Hop { version, x, v },
        Atom::Alloc { version, .. } => Atom::Alloc { version, x },
        Atom::Def { number } => Atom::Def { number },
    }
}

fn is_reflexive(atom: Atom) -> bool {
    matches!(atom, Atom::Eq { a, b } if a == b)
}

// Whether equality is a congruence, over two terms at most.
fn is_congruence(sizes: Sizes, bits: u32) -> bool {
    let (a, b) = (Term(0), Term(1));
    let is_one = holds(sizes, bits, Atom::Eq { a, b });
    for number in 0..sizes.count() {
        let atom = sizes.atom(number);
        let truth = holds(sizes, bits, atom);
        if is_reflexive(atom) && !truth {
            return false;
        }
        if is_one && holds(sizes, bits, at_first(atom)) != truth {
            return false;
        }
    }
    true
}

fn are_instances_true(alloc: Global, sizes: Sizes, bits: u32) -> bool {
    for name in Instances::new(sizes.terms, sizes.versions) {
        match instance(alloc, name, sizes.terms, sizes.versions) {
            Some(clause) if is_clause_true(sizes, bits, &clause) => {}
            _ => return false,
        }
    }
    true
}

// All structures in which equality is a congruence and each instance is true, where there are few atoms. The bits of
// two definitions come last, and each truth of them is there.
fn all_structures(alloc: Global, terms: u8, versions: u8) -> Result<Vec<u32>, AllocError> {
    let mut all = Vec::new(alloc);
    let sizes = Sizes {
        terms,
        versions,
        defs: 0,
    };
    let count = sizes.count().min(24);
    for bits in 0..1u32 << count {
        if is_congruence(sizes, bits) && are_instances_true(alloc, sizes, bits) {
            for defs in 0..4 {
                all.push(bits | defs << count)?;
            }
        }
    }
    Ok(all)
}

fn is_model(ground: &Ground, bits: u32) -> bool {
    let sizes = ground.sizes();
    for number in 0..ground.count() {
        match ground.clause(number) {
            Some(clause) if is_clause_true(sizes, bits, clause) => {}
            _ => return false,
        }
    }
    true
}

// Whether a model was found. None where the answer is wrong.
fn has_model(verdict: Verdict) -> Option<bool> {
    match verdict {
        Verdict::Model => Some(true),
        Verdict::Refuted { .. } => Some(false),
        Verdict::Wrong => None,
    }
}

// How many grounds of a row have a model, if each answer is that of all structures.
fn count_by_structures(alloc: Global, row: Row, way: Way) -> Result<Option<usize>, AllocError>
    requires terms { 1 ≤ row.terms }
    requires versions { 1 ≤ row.versions }
{
    let structures = all_structures(alloc, row.terms, row.versions)?;
    let mut random = Random { state: 1 };
    let mut models: usize = 0;
    for _number in 0..100 {
        let ground = random_ground(alloc, &mut random, row)?;
        let wanted = structures.iter().any(|bits| is_model(&ground, *bits));
        if has_model(decided_by(alloc, &ground, way)?) != Some(wanted) {
            return Ok(None);
        }
        models = models.saturating_add(usize::from(wanted));
    }
    Ok(Some(models))
}

const BESIDE_STRUCTURES: &[Row] = &[
    Row {
        terms: 1,
        versions: 1,
        clauses: 3,
    },
    Row {
        terms: 1,
        versions: 3,
        clauses: 6,
    },
    Row {
        terms: 2,
        versions: 1,
        clauses: 6,
    },
];

// Whether some grounds of a row have a model and others don't, and each answer is that of all structures.
fn are_as_structures(alloc: Global, row: Row, way: Way) -> Result<bool, AllocError> {
    if row.terms == 0 || row.versions == 0 {
        return Ok(false);
    }
    Ok(matches!(count_by_structures(alloc, row, way)?, Some(1..100)))
}

#[test]
fn beside_all_structures(rt: HostRuntime) -> Result<(), AllocError> {
    for row in BESIDE_STRUCTURES {
        assert!(rt; are_as_structures(rt.alloc(), *row, Way::Sought)?);
    }
    Ok(())
}

#[test]
fn alone_beside_all_structures(rt: HostRuntime) -> Result<(), AllocError> {
    for row in BESIDE_STRUCTURES {
        assert!(rt; are_as_structures(rt.alloc(), *row, Way::Alone)?);
    }
    Ok(())
}

// How many grounds of a row have a model, if each answer is the one with all instances written out.
fn count_written_out(alloc: Global, row: Row) -> Result<Option<usize>, AllocError>
    requires terms { 1 ≤ row.terms }
    requires versions { 1 ≤ row.versions }
{
    let mut random = Random { state: 2 };
    let mut models: usize = 0;
    for _number in 0..20 {
        let ground = random_ground(alloc, &mut random, row)?;
        let wanted = has_model(decided(alloc, &written_out(alloc, &ground)?)?);
        if wanted.is_none() || has_model(decided(alloc, &ground)?) != wanted {
            return Ok(None);
        }
        models = models.saturating_add(usize::from(wanted == Some(true)));
    }
    Ok(Some(models))
}

#[test]
fn beside_written_out(rt: HostRuntime) -> Result<(), AllocError> {
    let rows = [(2, 2, 12), (3, 1, 12), (3, 2, 20), (4, 1, 20)];
    for (terms, versions, clauses) in rows {
        let row = Row {
            terms,
            versions,
            clauses,
        };
        let models = count_written_out(rt.alloc(), row)?;
        assert!(rt; matches!(models, Some(1..20)));
    }
    Ok(())
}
