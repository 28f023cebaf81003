//! Rows of codes that differ, in a tree by their bits: a row is found in the time of its own codes. No contract speaks
//! of the tree: a row that isn't found is taken in again.

use std::alloc::{AllocError, Global};

// Rows that have the same bits before this one: one of them, and the links to those with either value of the bit. A
// link is a row's number twice, or a fork's number twice and one more.
#[derive(Clone, Copy)]
struct Fork {
    bit: u32,
    row: u32,
    zero: u32,
    one: u32,
}

// The link before the first.
const ROOT: u32 = 0;

// No more forks, and no longer clauses than this are told apart.
const MOST: usize = 100000000;

// A code, and past the last one the number that is none.
fn word_at(codes: &[u32], index: usize) -> u32 {
    match codes.get(index) {
        None => u32::MAX,
        Some(code) => *code,
    }
}

// A bit of the codes, from the highest one of the first code on.
fn bit_at(codes: &[u32], bit: u32) -> bool {
    let word = word_at(codes, bit as usize / 32);
    word.wrapping_shl(bit % 32) >> 31 == 1
}

/// The first bit in which codes differ, if they do.
pub(crate) fn difference(one: &[u32], other: &[u32]) -> Option<u32> {
    for index in 0..=one.len() {
        if index > MOST {
            return None;
        }
        let bits = word_at(one, index) ^ word_at(other, index);
        if bits != 0 {
            let first = 32 * index as u32;
            return Some(first.saturating_add(bits.leading_zeros()));
        }
    }
    None
}

impl Fork {
    // The link to the rows on the side of some codes.
    fn side(self, codes: &[u32]) -> u32 {
        if bit_at(codes, self.bit) {
            self.one
        } else {
            self.zero
        }
    }
}

/// Numbers of rows, each with other codes.
#[derive(Drop)]
pub(crate) struct Distinct {
    root: Option<u32>,
    forks: Vec<Fork>,
}

impl Distinct {
    /// No row.
    pub(crate) fn new(alloc: Global) -> Distinct {
        Distinct {
            root: None,
            forks: Vec::new(alloc),
        }
    }

    // The fork of a link, if it isn't that of a row.
    fn fork(&self, link: u32) -> Option<Fork> {
        if link % 2 == 0 {
            return None;
        }
        match self.forks.get(link as usize / 2) {
            None => None,
            Some(fork) => Some(*fork),
        }
    }

    /// The row that has these codes, if there is one; else one that has as many bits in common with them as any.
    pub(crate) fn nearest(&self, codes: &[u32]) -> Option<u32> {
        let mut link = self.root?;
        for _ in 0..=self.forks.len() {
            let Some(fork) = self.fork(link) else {
                return Some(link / 2);
            };
            if fork.bit as usize / 32 > codes.len() {
                return Some(fork.row);
            }
            link = fork.side(codes);
        }
        None
    }

    // The link before which codes belong that differ from all others first at a bit, or later, and the link to it.
    fn place(&self, codes: &[u32], bit: u32, root: u32) -> (u32, u32) {
        let mut before = ROOT;
        let mut link = root;
        for _ in 0..=self.forks.len() {
            match self.fork(link) {
                Some(fork) if fork.bit < bit => {
                    before = link;
                    link = fork.side(codes);
                }
                _ => return (before, link),
            }
        }
        (before, link)
    }

    // Changes the link of a fork on the side of some codes, or the first one.
    fn relink(&mut self, before: u32, codes: &[u32], link: u32) {
        let Some(fork) = self.fork(before) else {
            self.root = Some(link);
            return;
        };
        let index = before as usize / 2;
        if index < self.forks.len() {
            if bit_at(codes, fork.bit) {
                self.forks[index].one = link;
            } else {
                self.forks[index].zero = link;
            }
        }
    }

    /// Adds a row with these codes, which differ from those of the nearest row first at a bit.
    pub(crate) fn insert(&mut self, codes: &[u32], row: u32, bit: u32) -> Result<(), AllocError> {
        let own = row.wrapping_mul(2);
        let Some(root) = self.root else {
            self.root = Some(own);
            return Ok(());
        };
        let forks = self.forks.len();
        if forks > MOST {
            return Ok(());
        }
        let (before, other) = self.place(codes, bit, root);
        let (zero, one) = if bit_at(codes, bit) {
            (other, own)
        } else {
            (own, other)
        };
        let link = 2 * forks as u32 + 1;
        self.forks.push(Fork {
            bit,
            row,
            zero,
            one,
        })?;
        self.relink(before, codes, link);
        Ok(())
    }
}
