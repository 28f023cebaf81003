//! Betweenness and hops of one version in words, a bit for each last term, and the next terms that words leave open.

ghost use Rattle.std.specs.Prelude.{◌≡◌, ◌≢◌, ◌<◌, ◌≤◌, ℕ, All, IfSome, None, length, take};
ghost use Rattle.std.specs.Int.{bit_at};
ghost use Rattle.gh_inst.specs.declared.schema.Shape.TheVariants.{Btwn as OnTerms, Hop as OnCell};
ghost use Rattle.gh_inst.specs.Search.{IsAmong};
ghost use Rattle.gh_inst.specs.Words.{bit_of, atom_in, AreThere, AreTruthsAt, AreWordsOf, IsHopWordAt, IsLitOpenIn};
ghost use Rattle.gh_inst.specs.Words.{IsOpenByWords, IsOpenIn, IsPairWordAt, IsReachWordAt, IsWordOf, IsWorded};
ghost use Rattle.gh_inst.specs.Words.{TellsFalse, TellsOpen};

use crate::schema::{Pattern, Shape};
use gh_base::atom::{Atom, Term};
use gh_base::structure::Structure;

// A version of a structure, with its words.
#[derive(Drop)]
pub(crate) struct Worded<'a> {
    pub structure: &'a Structure,
    pub version: u8,
    pub words: &'a [u32],
}

// A word in which one more bit is set, if it is to be.
fn with_bit(word: u32, place: u8, truth: bool) -> u32
    requires { place < 32 }
    ensures here { bit_at word place ≡ 0 → bit_at result place ≡ bit_of truth }
    ensures others { (i : ℕ) → i ≢ place → bit_at result i ≡ bit_at word i }
{
    if truth {
        return word | 1 << place;
    }
    word
}

// What a word is of: its bits are the truths of atoms that have one more term.
#[derive(Clone, Copy)]
enum WordOf {
    // Which terms are reached from one by way of another.
    Pair { x: Term, y: Term },
    // Which terms are reached from one.
    Reach { x: Term },
    // To which terms the cell of one leads.
    Cell { x: Term },
}

impl WordOf {
    // The atom of a bit.
    fn atom(self, version: u8, z: Term) -> Atom
        ensures { result ≡ atom_in version self z.0 }
    {
        match self {
            WordOf::Pair { x, y } => Atom::Btwn { version, x, y, z },
            WordOf::Reach { x } => Atom::Btwn {
                version,
                x,
                y: z,
                z,
            },
            WordOf::Cell { x } => Atom::Hop { version, x, v: z },
        }
    }
}

// The word of one term or two.
fn word_of(structure: &Structure, version: u8, of: WordOf) -> u32
    requires version { version < structure.now.sizes.versions }
    requires few { structure.now.sizes.terms ≤ 32 }
    requires there { AreThere structure.now.sizes.terms of }
    ensures { IsWordOf structure.now version of result }
{
    let mut word = 0;
    for z in 0..structure.terms() {
        let truth = structure.holds(of.atom(version, Term(z)));
        word = with_bit(word, z, truth);
    }
    word
}

// The word at a place: first those of two terms, then those of one.
fn word_at(structure: &Structure, version: u8, place: usize) -> u32
    requires version { version < structure.now.sizes.versions }
    requires few { structure.now.sizes.terms ≤ 32 }
    requires place { place < 1088 }
    ensures pair { IsPairWordAt structure.now version place result }
    ensures reach { IsReachWordAt structure.now version place result }
    ensures hops { IsHopWordAt structure.now version place result }
{
    let x = (place / 32) as u8;
    let y = (place % 32) as u8;
    if y >= structure.terms() {
        return 0;
    }
    if place >= 1056 {
        return word_of(structure, version, WordOf::Cell { x: Term(y) });
    }
    if place >= 1024 {
        return word_of(structure, version, WordOf::Reach { x: Term(y) });
    }
    if x >= structure.terms() {
        return 0;
    }
    let pair = WordOf::Pair {
        x: Term(x),
        y: Term(y),
    };
    word_of(structure, version, pair)
}

/// The words of all pairs of terms, then those of each term.
pub(crate) fn words_of(structure: &Structure, version: u8) -> [u32; 1088]
    requires version { version < structure.now.sizes.versions }
    requires few { structure.now.sizes.terms ≤ 32 }
    ensures { AreWordsOf structure.now version result }
{
    let mut words = [0; 1088];
    for place in 0..1088 {
        words[place] = word_at(structure, version, place);
    }
    words
}

impl Pattern {
    // The place of the word of a literal on betweenness, if its first two terms are known, or only the first one, where
    // the other two are the same.
    fn between_at(&self, tuple: &[Term; 4], first: usize) -> Option<usize>
        requires shape { self.now.shape ≡ OnTerms }
        requires first { first ≤ 4 }
        requires terms { All (λ t. t.0 < 32) (take first tuple.now) }
        ensures some { IfSome result (λ at. AreTruthsAt at self.now tuple.now first) }
        ensures below { IfSome result (λ at. at < 1088) }
        ensures none { result ≡ None → ¬ IsAmong first self.now }
    {
        let x = self.places[0] as usize;
        let y = self.places[1] as usize;
        if x >= first {
            return None;
        }
        if y == self.places[2] as usize {
            return Some(1024 + tuple[x].0 as usize);
        }
        if y >= first {
            return None;
        }
        Some(tuple[x].0 as usize * 32 + tuple[y].0 as usize)
    }

    // The terms at which it is false, by those at which its atom is true, as bits.
    fn false_terms(&self, word: u32) -> u32
        ensures { TellsFalse self.now word result }
    {
        if self.positive {
            return !word;
        }
        word
    }

    // The next terms at which it may be false, by the terms at a place at which its atom is true, as bits.
    fn next_by(&self, word: u32, place: usize, tuple: &[Term; 4], first: usize) -> u32
        requires place { place < 3 }
        requires first { first ≤ 4 }
        requires terms { All (λ t. t.0 < 32) (take first tuple.now) }
        ensures { TellsOpen self.now tuple.now first place word result }
    {
        let left = self.false_terms(word);
        let z = self.places[place] as usize;
        if z < first {
            if left >> tuple[z].0 & 1 == 0 {
                return 0;
            }
            return u32::MAX;
        }
        if z == first {
            return left;
        }
        if left == 0 {
            return 0;
        }
        u32::MAX
    }

    // The next terms at which a literal on betweenness may be false, as bits.
    fn next_between(&self, words: &[u32], tuple: &[Term; 4], first: usize) -> u32
        requires shape { self.now.shape ≡ OnTerms }
        requires first { first ≤ 4 }
        requires terms { All (λ t. t.0 < 32) (take first tuple.now) }
        requires full { length words.now ≡ 1088 }
        ensures { IsOpenByWords words.now self.now tuple.now first result }
    {
        match self.between_at(tuple, first) {
            Some(at) => self.next_by(words[at], 2, tuple, first),
            None => u32::MAX,
        }
    }

    // The next terms at which a literal on a cell may be false, as bits.
    fn next_hop(&self, words: &[u32], tuple: &[Term; 4], first: usize) -> u32
        requires shape { self.now.shape ≡ OnCell }
        requires first { first ≤ 4 }
        requires terms { All (λ t. t.0 < 32) (take first tuple.now) }
        requires full { length words.now ≡ 1088 }
        ensures { IsOpenByWords words.now self.now tuple.now first result }
    {
        let x = self.places[0] as usize;
        if x >= first {
            return u32::MAX;
        }
        let word = words[1056 + tuple[x].0 as usize];
        self.next_by(word, 1, tuple, first)
    }

    // The next terms at which it may be false, as bits.
    fn next_terms(&self, worded: &Worded, tuple: &[Term; 4], first: usize) -> u32
        requires worded { IsWorded worded.now }
        requires first { first ≤ 4 }
        requires terms { All (λ t. t.0 < worded.now.structure.now.sizes.terms) (take first tuple.now) }
        ensures { IsLitOpenIn worded.now.structure.now worded.now.version self.now tuple.now first result }
    {
        match self.shape {
            Shape::Btwn => return self.next_between(worded.words, tuple, first),
            Shape::Hop => return self.next_hop(worded.words, tuple, first),
            Shape::Equal | Shape::Alloc => {}
        }
        if self.is_always_true(worded.structure, worded.version, tuple, first) {
            return 0;
        }
        u32::MAX
    }
}

/// The next terms at which a row may be false, as bits.
pub(crate) fn open_terms(lits: &[Pattern], worded: &Worded, tuple: &[Term; 4], first: usize) -> u32
    requires worded { IsWorded worded.now }
    requires first { first ≤ 4 }
    requires terms { All (λ t. t.0 < worded.now.structure.now.sizes.terms) (take first tuple.now) }
    ensures { IsOpenIn worded.now.structure.now worded.now.version lits.now tuple.now first result }
{
    let mut terms = u32::MAX;
    for pattern in lits {
        terms &= pattern.next_terms(worded, tuple, first);
        if terms == 0 {
            return 0;
        }
    }
    terms
}
