//! Whether a clause follows from equality and congruence alone.

ghost use Rattle.std.specs.Prelude.{◌≡◌, ◌<◌, ◌↔◌, [], IfOk, IsTrue};
ghost use Rattle.gh_base.specs.Atoms.{IsInRange, AreInRange};
ghost use Rattle.gh_cc.specs.Lemma.{Tells, IsKeyed, IsDerived, HasDerived, AreNegatedClasses, IsLemmaOver, TellsJoin};

use crate::filing::equal_terms;
use crate::keys::{Keyed, is_opposed, with_keys};
use crate::partition::Partition;
use gh_base::atom::{Atom, Lit, Term};
use gh_base::clause::Clause;
use gh_base::sizes::Sizes;
use std::alloc::{AllocError, Global};

// Whether each atom is in range.
fn are_in_range(sizes: Sizes, lits: &[Lit]) -> bool
    ensures { IsTrue result ↔ AreInRange sizes lits.now }
{
    lits.iter().all(|l| sizes.has(l.atom))
}

// Merges the classes of two terms, if they aren't one, and says whether it did.
fn join(partition: &mut Partition, a: Term, b: Term) -> bool
    requires a { a.0 < partition.old.terms }
    requires b { b.0 < partition.old.terms }
    ensures { TellsJoin partition.old partition.new a b result }
{
    if partition.rep(a).0 == partition.rep(b).0 {
        return false;
    }
    partition.merge(a, b);
    true
}

// Merges the terms of each negated equality.
fn join_negated(sizes: Sizes, lits: &[Lit], partition: &mut Partition)
    requires in_range { AreInRange sizes lits.now }
    requires terms { partition.old.terms ≡ sizes.terms }
    requires none { partition.old.links ≡ [] }
    ensures terms { partition.new.terms ≡ sizes.terms }
    ensures classes { AreNegatedClasses lits.now lits.now partition.new }
{
    for l in lits {
        if let Some((a, b)) = equal_terms(l.negated()) {
            let _ = join(partition, a, b);
        }
    }
}

// Whether a literal is true where the negations of the others are.
fn is_derived(sizes: Sizes, keyed: &Keyed, partition: &Partition, lit: Lit) -> bool
    requires keyed { IsKeyed sizes partition.now.links keyed.now }
    requires lit { IsInRange sizes lit.atom }
    requires terms { partition.now.terms ≡ sizes.terms }
    ensures { Tells result (IsDerived sizes partition.now.links keyed.now.lits.now lit) }
{
    match equal_terms(lit) {
        Some((a, b)) => partition.rep(a).0 == partition.rep(b).0,
        None => match lit.atom {
            Atom::Eq { .. } => false,
            _ => is_opposed(sizes, keyed, partition, lit),
        },
    }
}

// Whether some literal is true where the negations of the others are.
fn any_derived(sizes: Sizes, keyed: &Keyed, partition: &Partition) -> bool
    requires keyed { IsKeyed sizes partition.now.links keyed.now }
    requires in_range { AreInRange sizes keyed.now.lits.now }
    requires terms { partition.now.terms ≡ sizes.terms }
    ensures { Tells result (HasDerived sizes partition.now.links keyed.now.lits.now) }
{
    for l in keyed.lits {
        if is_derived(sizes, keyed, partition, *l) {
            return true;
        }
    }
    false
}

/// Whether all atoms of a clause are in range and the clause follows from equality and congruence alone. It
/// takes memory for the terms and for a key of each literal, and the time of sorting these.
pub fn is_lemma(
    alloc: Global,
    clause: &Clause,
    terms: u8,
    versions: u8,
    defs: u32,
) -> Result<bool, AllocError>
    ensures { IfOk result (λ answer. IsTrue answer ↔ IsLemmaOver terms versions defs clause.now) }
{
    let sizes = Sizes {
        terms,
        versions,
        defs,
    };
    let lits = clause.lits();
    if !are_in_range(sizes, lits) {
        return Ok(false);
    }
    let mut partition = Partition::new(alloc, terms)?;
    join_negated(sizes, lits, &mut partition);
    let keyed = with_keys(alloc, sizes, lits, &partition)?;
    Ok(any_derived(sizes, &keyed, &partition))
}
