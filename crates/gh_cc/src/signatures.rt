//! Which literal gave an atom its truth, by the atom's number, with the entries in their order.

ghost use Rattle.std.specs.Prelude.{◌≡◌, ◌<◌, ◌^◌, [], None, IfOk, All, length, take, vec_capacity};
ghost use Rattle.gh_cc.specs.Signatures.{AreSignatures, free_places, find_lit, with_entry};

use std::alloc::{AllocError, Global};
use std::marker::Model;

/// An atom's number, and the place of the literal that gave the atom its truth.
#[derive(Clone, Copy, Debug, PartialEq, Eq)]
pub struct SignatureEntry {
    pub number: u32,
    pub lit: u32,
}

/// A table of literals by the numbers of atoms, which remembers the order of its entries.
#[derive(Debug, Drop)]
pub struct SignatureTable {
    table: Vec<Option<u32>>,
    entries: Vec<SignatureEntry>,
}

impl Model for SignatureTable {
    ghost use Rattle.std.specs.Prelude.{length, vec_capacity};
    ghost use Rattle.gh_cc.specs.Signatures.{Filed, AreSignatures};

    ghost Value = { Filed };

    ghost view = { λ s. record { count = length s.table.items; entries = s.entries.items } };

    ghost invariant = { λ s. AreSignatures s.table.items s.entries.items (vec_capacity s.entries) };
}

// A table with nothing for each number.
#[tactic(auto, using(crate::proofs::SignatureLemmas::free_push))]
fn empty_table(alloc: Global, count: usize) -> Result<Vec<Option<u32>>, AllocError>
    ensures long { IfOk result (λ v. length v.items ≡ count) }
    ensures free { IfOk result (λ v. free_places v.items ≡ count) }
    ensures none { IfOk result (λ v. All (λ x. x ≡ None) v.items) }
{
    let mut table = Vec::with_capacity(alloc, count)?;
    for _number in 0..count {
        table.push(None)?;
    }
    Ok(table)
}

// Takes the entries from a place on off, the last one first.
fn erase(table: &mut Vec<Option<u32>>, entries: &mut Vec<SignatureEntry>, len: usize)
    requires { AreSignatures table.old.items entries.old.items (vec_capacity entries.old) }
    ensures signatures { AreSignatures table.new.items entries.new.items (vec_capacity entries.new) }
    ensures entries { entries.new.items ≡ take len entries.old.items }
    ensures long { length table.new.items ≡ length table.old.items }
{
    while entries.len() > len {
        let Some(entry) = entries.pop() else {
            break;
        };
        table[entry.number as usize] = None;
    }
}

impl SignatureTable {
    /// No entry. Room for one of each number is taken here.
    pub fn new(alloc: Global, count: usize) -> Result<SignatureTable, AllocError>
        requires { count < 2 ^ 32 }
        ensures { IfOk result (λ s. s ≡ record { count = count; entries = [] }) }
    {
        Ok(SignatureTable {
            table: empty_table(alloc, count)?,
            entries: Vec::with_capacity(alloc, count)?,
        })
    }

    /// The place of the literal of a number's entry, if there is one.
    pub fn get(&self, number: usize) -> Option<u32>
        requires { number < self.now.count }
        ensures { result ≡ find_lit self.now.entries number }
    {
        self.table[number]
    }

    /// Adds an entry last.
    pub fn put(&mut self, number: usize, lit: u32)
        requires number { number < self.old.count }
        requires free { find_lit self.old.entries number ≡ None }
        ensures { self.new ≡ with_entry self.old number lit }
    {
        self.entries.push_reserved(SignatureEntry {
            number: number as u32,
            lit,
        });
        self.table[number] = Some(lit);
    }

    /// How many entries there are.
    pub fn len(&self) -> usize
        ensures len { result ≡ length self.now.entries }
        ensures bound { result < 2 ^ 32 }
    {
        self.entries.len()
    }

    /// Leaves the first entries.
    pub fn cut(&mut self, len: usize)
        ensures { self.new ≡ record self.old { entries = take len self.old.entries } }
    {
        erase(&mut self.table, &mut self.entries, len);
    }
}
