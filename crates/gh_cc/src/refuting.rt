//! Clauses that follow from equality and congruence, and that asserted literals make false.

ghost use Rattle.std.specs.Prelude.{◌≡◌, ◌≢◌, ◌<◌, false, Contains, IfOk, OnOk};
ghost use Rattle.gh_base.specs.declared.atom.Lit.{Lit};
ghost use Rattle.gh_base.specs.declared.atom.Atom.TheVariants.{Eq as Equal};
ghost use Rattle.gh_base.specs.Atoms.{IsInRange};
ghost use Rattle.gh_cc.specs.Asserted.{IsConflict};
ghost use Rattle.gh_cc.specs.Kept.{AreLinked, IsClash, IsRelation, ExplainsAtoms, normal, reps};

use crate::clash::Clash;
use crate::partition::Partition;
use gh_base::atom::{Atom, Lit, Term};
use gh_base::clause::Clause;
use gh_base::sizes::Sizes;
use std::alloc::{AllocError, Global};

// Explains why two atoms over terms of the same classes have one truth.
fn explain_atoms(
    sizes: Sizes,
    partition: &Partition,
    clause: &mut Clause,
    a: Atom,
    b: Atom,
) -> Result<(), AllocError>
    requires a { IsInRange sizes a }
    requires b { IsInRange sizes b }
    requires terms { partition.now.terms ≡ sizes.terms }
    requires relation { IsRelation a }
    requires same { normal (reps partition.now.links) a ≡ normal (reps partition.now.links) b }
    ensures { OnOk result (ExplainsAtoms sizes partition.now.links a b clause.old clause.new) }
{
    match a {
        Atom::Eq { .. } | Atom::Def { .. } => Ok(()),
        Atom::Btwn { x, y, z, .. } => match b {
            Atom::Btwn {
                x: p,
                y: q,
                z: r,
                ..
            } => {
                partition.explain(clause, x, p)?;
                partition.explain(clause, y, q)?;
                partition.explain(clause, z, r)
            }
            _ => Ok(()),
        },
        Atom::Hop { x, v, .. } => match b {
            Atom::Hop { x: p, v: q, .. } => {
                partition.explain(clause, x, p)?;
                partition.explain(clause, v, q)
            }
            _ => Ok(()),
        },
        Atom::Alloc { x, .. } => match b {
            Atom::Alloc { x: p, .. } => partition.explain(clause, x, p),
            _ => Ok(()),
        },
    }
}

// The clause against a negated equality of terms of one class.
fn refute_unequal(
    alloc: Global,
    sizes: Sizes,
    lits: &[Lit],
    partition: &Partition,
    a: Term,
    b: Term,
) -> Result<Clause, AllocError>
    requires linked { AreLinked sizes lits.now partition.now }
    requires there { Contains lits.now (record { atom = Equal a b; positive = false }) }
    requires same { reps partition.now.links a.0 ≡ reps partition.now.links b.0 }
    ensures { IfOk result (λ clause. IsConflict (record { sizes = sizes; lits = lits.now }) clause) }
{
    let mut clause = Clause::new(alloc);
    clause.push(Lit {
        atom: Atom::Eq { a, b },
        positive: true,
    })?;
    partition.explain(&mut clause, a, b)?;
    Ok(clause)
}

// The clause against two literals of opposite signs over terms of the same classes.
fn refute_opposite(
    alloc: Global,
    sizes: Sizes,
    lits: &[Lit],
    partition: &Partition,
    one: Lit,
    other: Lit,
) -> Result<Clause, AllocError>
    requires linked { AreLinked sizes lits.now partition.now }
    requires one { Contains lits.now one }
    requires other { Contains lits.now other }
    requires relation { IsRelation one.atom }
    requires same { normal (reps partition.now.links) one.atom ≡ normal (reps partition.now.links) other.atom }
    requires signs { one.positive ≢ other.positive }
    ensures { IfOk result (λ clause. IsConflict (record { sizes = sizes; lits = lits.now }) clause) }
{
    let mut clause = Clause::new(alloc);
    clause.push(one.negated())?;
    clause.push(other.negated())?;
    explain_atoms(sizes, partition, &mut clause, one.atom, other.atom)?;
    Ok(clause)
}

/// The clause against a clash: it follows from equality and congruence, and each of its literals negates an
/// asserted one.
pub(crate) fn refutation(
    alloc: Global,
    sizes: Sizes,
    lits: &[Lit],
    partition: &Partition,
    clash: Clash,
) -> Result<Clause, AllocError>
    requires linked { AreLinked sizes lits.now partition.now }
    requires clash { IsClash (reps partition.now.links) lits.now clash }
    ensures { IfOk result (λ clause. IsConflict (record { sizes = sizes; lits = lits.now }) clause) }
{
    match clash {
        Clash::Unequal { place } => {
            let Atom::Eq { a, b } = lits[place as usize].atom else {
                unreachable!();
            };
            refute_unequal(alloc, sizes, lits, partition, a, b)
        }
        Clash::Opposite { first, second } => {
            refute_opposite(
                alloc,
                sizes,
                lits,
                partition,
                lits[first as usize],
                lits[second as usize],
            )
        }
    }
}
