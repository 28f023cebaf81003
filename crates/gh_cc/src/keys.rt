//! The literals of a clause with their keys, so that one of the key and the opposite sign of another is found by
//! halving.

ghost use Rattle.std.specs.Prelude.{◌≡◌, Contains, IfOk};
ghost use Rattle.std.specs.List.Sorted.{IsNonDecreasing};
ghost use Rattle.gh_base.specs.Atoms.{IsInRange, AreInRange};
ghost use Rattle.gh_cc.specs.Lemma.{Tells, AreKeys, IsKeyed, IsOpposed};

use crate::filing::key;
use crate::partition::Partition;
use gh_base::atom::Lit;
use gh_base::sizes::Sizes;
use std::alloc::{AllocError, Global};

/// Literals, and the keys of the positive and of the negated ones in ascending order.
#[derive(Drop)]
pub(crate) struct Keyed<'a> {
    pub lits: &'a [Lit],
    pub positive: Vec<usize>,
    pub negated: Vec<usize>,
}

// The keys of the literals of a sign, in ascending order.
fn sorted(
    alloc: Global,
    sizes: Sizes,
    lits: &[Lit],
    partition: &Partition,
    positive: bool,
) -> Result<Vec<usize>, AllocError>
    requires in_range { AreInRange sizes lits.now }
    requires terms { partition.now.terms ≡ sizes.terms }
    ensures { IfOk result (λ v. AreKeys sizes partition.now.links lits.now positive v.items) }
{
    let mut keys = Vec::with_capacity(alloc, lits.len())?;
    for lit in lits {
        if lit.positive != positive {
            continue;
        }
        keys.push(key(sizes, partition, lit.atom))?;
    }
    keys.sort_unstable();
    Ok(keys)
}

// Whether a number is among numbers in ascending order.
fn is_among(numbers: &[usize], number: usize) -> bool
    requires { IsNonDecreasing numbers.now }
    ensures { Tells result (Contains numbers.now number) }
{
    numbers.binary_search(&number).is_ok()
}

/// Literals with their keys.
pub(crate) fn with_keys<'a>(
    alloc: Global,
    sizes: Sizes,
    lits: &'a [Lit],
    partition: &Partition,
) -> Result<Keyed<'a>, AllocError>
    requires in_range { AreInRange sizes lits.now }
    requires terms { partition.now.terms ≡ sizes.terms }
    ensures keyed { IfOk result (IsKeyed sizes partition.now.links) }
    ensures lits { IfOk result (λ k. k.lits.now ≡ lits.now) }
{
    Ok(Keyed {
        lits,
        positive: sorted(alloc, sizes, lits, partition, true)?,
        negated: sorted(alloc, sizes, lits, partition, false)?,
    })
}

/// Whether some of the literals has the key and the opposite sign of a literal.
pub(crate) fn is_opposed(sizes: Sizes, keyed: &Keyed, partition: &Partition, lit: Lit) -> bool
    requires keyed { IsKeyed sizes partition.now.links keyed.now }
    requires lit { IsInRange sizes lit.atom }
    requires terms { partition.now.terms ≡ sizes.terms }
    ensures { Tells result (IsOpposed sizes partition.now.links keyed.now.lits.now lit) }
{
    let number = key(sizes, partition, lit.atom);
    if lit.positive {
        return is_among(keyed.negated.as_slice(), number);
    }
    is_among(keyed.positive.as_slice(), number)
}
