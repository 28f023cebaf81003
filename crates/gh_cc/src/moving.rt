//! Two classes are merged by moving the one that fewer literals mention, and these literals alone are filed anew.

ghost use Rattle.std.specs.Prelude.{◌≡◌, ◌≢◌, ◌<◌, ◌≤◌, ◌+◌, ◌^◌, ◌++◌, IfSome, IfNone, length};
ghost use Rattle.gh_base.specs.Atoms.{IsInRange};
ghost use Rattle.gh_cc.specs.Kept.{AreTied, Grows, IsClash, reps, AreFiledMoved, AreFiledOf};
ghost use Rattle.gh_cc.specs.Partitions.{rep_of};
ghost use Rattle.gh_cc.specs.Uses.{all_mentions, class_times, JoinsLighter, terms_in};

use crate::clash::Clash;
use crate::filing::file;
use crate::partition::Partition;
use crate::signatures::SignatureTable;
use crate::uses::Uses;
use gh_base::atom::{Atom, Lit, Term};
use gh_base::sizes::Sizes;

// The literals that stand asserted, with an index of those that mention a term.
#[derive(Drop)]
pub(crate) struct IndexedLits<'a> {
    pub sizes: Sizes,
    pub lits: &'a [Lit],
    pub uses: &'a Uses,
}

// The terms of an atom.
fn terms_of(atom: Atom) -> [Option<Term>; 3]
    ensures { result ≡ terms_in atom }
{
    match atom {
        Atom::Eq { a, b } => [Some(a), Some(b), None],
        Atom::Btwn { x, y, z, .. } => [Some(x), Some(y), Some(z)],
        Atom::Hop { x, v, .. } => [Some(x), Some(v), None],
        Atom::Alloc { x, .. } => [Some(x), None, None],
        Atom::Def { .. } => [None, None, None],
    }
}

// Adds the terms of an atom to the mentions.
pub(crate) fn mention(sizes: Sizes, uses: &mut Uses, atom: Atom)
    requires range { IsInRange sizes atom }
    requires terms { uses.old.terms ≡ sizes.terms }
    requires room { length uses.old.list + 3 ≤ uses.old.room }
    requires small { length uses.old.list + 3 < 2 ^ 32 }
    ensures { uses.new ≡ record uses.old { list = uses.old.list ++ terms_in atom } }
{
    let [first, second, third] = terms_of(atom);
    uses.push(first);
    uses.push(second);
    uses.push(third);
}

// How often the terms of a class are mentioned.
fn class_times(sizes: Sizes, partition: &Partition, uses: &Uses, class: Term) -> usize
    requires terms { partition.now.terms ≡ sizes.terms }
    requires mentioned { uses.now.terms ≡ sizes.terms }
    requires few { length uses.now.list < 2 ^ 34 }
    ensures { result ≡ class_times uses.now.list (rep_of partition.now) class.0 sizes.terms }
{
    let mut sum = 0;
    for t in 0..sizes.terms {
        if partition.rep(Term(t)).0 == class.0 {
            sum += uses.times(Term(t)) as usize;
        }
    }
    sum
}

// Merges the classes of two terms, the one that is mentioned less into the other.
pub(crate) fn merge_lighter(sizes: Sizes, partition: &mut Partition, uses: &Uses, a: Term, b: Term)
    requires a { a.0 < sizes.terms }
    requires b { b.0 < sizes.terms }
    requires apart { rep_of partition.old a.0 ≢ rep_of partition.old b.0 }
    requires terms { partition.old.terms ≡ sizes.terms }
    requires mentioned { uses.now.terms ≡ sizes.terms }
    requires few { length uses.now.list < 2 ^ 34 }
    ensures { JoinsLighter uses.now.list partition.old partition.new a b }
{
    let first = class_times(sizes, partition, uses, partition.rep(a));
    let second = class_times(sizes, partition, uses, partition.rep(b));
    if first <= second {
        partition.merge(a, b);
    } else {
        partition.merge(b, a);
    }
}

// Files each literal that mentions a term, up to the first clash.
fn refile_term(
    indexed: &IndexedLits,
    partition: &Partition,
    signatures: &mut SignatureTable,
    term: Term,
) -> Option<Clash>
    requires tied { AreTied indexed.now.sizes indexed.now.lits.now partition.now signatures.old }
    requires uses { indexed.now.uses.now.list ≡ all_mentions indexed.now.lits.now }
    requires term { term.0 < indexed.now.uses.now.terms }
    ensures tied { AreTied indexed.now.sizes indexed.now.lits.now partition.now signatures.new }
    ensures grows { Grows signatures.old signatures.new }
    ensures filed { IfNone result (AreFiledOf indexed.now partition.now.links signatures.new.entries term) }
    ensures clash { IfSome result (λ c. IsClash (reps partition.now.links) indexed.now.lits.now c) }
{
    let mut next = indexed.uses.last(term);
    while next > 0 {
        let place = next - 1;
        if let Some(clash) = file(
            indexed.sizes,
            indexed.lits,
            partition,
            signatures,
            place / 3,
        ) {
            return Some(clash);
        }
        next = indexed.uses.before(place, term);
    }
    None
}

// Files each literal that mentions a term which the last merge moved, up to the first clash.
pub(crate) fn refile_moved(
    indexed: &IndexedLits,
    partition: &Partition,
    signatures: &mut SignatureTable,
) -> Option<Clash>
    requires tied { AreTied indexed.now.sizes indexed.now.lits.now partition.now signatures.old }
    requires uses { indexed.now.uses.now.list ≡ all_mentions indexed.now.lits.now }
    requires terms { indexed.now.uses.now.terms ≡ indexed.now.sizes.terms }
    requires merged { 0 < length partition.now.links }
    ensures tied { AreTied indexed.now.sizes indexed.now.lits.now partition.now signatures.new }
    ensures grows { Grows signatures.old signatures.new }
    ensures filed { IfNone result (AreFiledMoved indexed.now partition.now.links signatures.new.entries) }
    ensures clash { IfSome result (λ c. IsClash (reps partition.now.links) indexed.now.lits.now c) }
{
    for t in 0..indexed.sizes.terms {
        if partition.is_moved(Term(t)) {
            if let Some(clash) = refile_term(indexed, partition, signatures, Term(t)) {
                return Some(clash);
            }
        }
    }
    None
}
