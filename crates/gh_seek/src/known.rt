//! What a search found ahead, carried over to the next one. Conditions of one procedure begin alike, so what one of
//! them needs of its first versions serves the others: a clause that was found is added with what shows it, where the
//! ground clauses that this rests on stand in the next problem too, and nothing is searched for again.

use crate::search::Searcher;
use crate::section::{moved, needed_for};
use gh_base::ground::Ground;
use gh_trail::clauses::{Clauses, Hint, Origin};
use gh_trail::propagator::{Propagator, has};
use gh_trail::shape::{Code, Kind, Shape, spread};
use gh_trail::table::{at, put, small};
use std::alloc::{AllocError, Global};
use std::mem::swap;

/// What earlier searches found. Nothing is promised of it: it serves a search whose answer is checked. Where memory runs
/// out in such a search, more may be known than before, or less.
#[derive(Debug, Drop)]
pub struct Known {
    past: Option<Past>,
}

/// The lemmas that a search found, what made literals true at level 0, and the clauses that show these.
#[derive(Debug, Drop)]
struct Past {
    shape: Shape,
    clauses: Clauses,
    shown: Vec<u32>,
    units: Vec<u32>,
}

/// Numbers in lists by words.
#[derive(Debug, Drop)]
struct Lists {
    // By a word's place: one more than the first number of its list, or 0.
    heads: Vec<u32>,
    // By number: one more than the number after it, or 0.
    others: Vec<u32>,
}

impl Lists {
    // No number of so many is in a list.
    fn new(alloc: Global, count: usize) -> Result<Lists, AllocError> {
        Ok(Lists {
            heads: vec![in alloc; 0; count.wrapping_mul(2).wrapping_add(1)]?,
            others: vec![in alloc; 0; count]?,
        })
    }

    // Where the list of a word begins.
    fn place(&self, word: u64) -> usize {
        let count = self.heads.len() as u64;
        if count == 0 {
            0
        } else {
            (word % count) as usize
        }
    }

    // Puts a number at the front of a word's list.
    fn enter(&mut self, word: u64, number: usize) {
        let place = self.place(word);
        let before = at(self.heads.as_slice(), place, 0);
        put(self.others.as_mut_slice(), number, before);
        put(
            self.heads.as_mut_slice(),
            place,
            small(number).wrapping_add(1),
        );
    }

    // One more than the first number of the list that a word has, or 0.
    fn first(&self, word: u64) -> u32 {
        at(self.heads.as_slice(), self.place(word), 0)
    }

    // One more than the number after one, or 0.
    fn after(&self, number: u32) -> u32 {
        at(self.others.as_slice(), number as usize, 0)
    }

    // Takes a number out of a word's list: `before` is one more than the number before it, or 0.
    fn remove(&mut self, word: u64, before: u32, number: u32) {
        let next = self.after(number);
        if before == 0 {
            let place = self.place(word);
            put(self.heads.as_mut_slice(), place, next);
        } else {
            put(
                self.others.as_mut_slice(),
                before.wrapping_sub(1) as usize,
                next,
            );
        }
    }
}

// A word for some literals that no order of them changes.
fn word_of(codes: &[Code]) -> u64 {
    let mut sum: u64 = 0;
    for code in codes {
        sum = sum.wrapping_add(spread(code.0 as u64));
    }
    sum
}

// Whether two clauses have the same literals, each once.
fn are_same(some: &[Code], others: &[Code]) -> bool {
    some.len() == others.len() && some.iter().all(|code| has(others, *code))
}

// The ground clauses in lists by the words of their literals.
fn ground_lists(alloc: Global, clauses: &Clauses) -> Result<Lists, AllocError> {
    let mut lists = Lists::new(alloc, clauses.count())?;
    for number in 0..clauses.count() {
        if clauses.is_ground(small(number)) {
            lists.enter(word_of(clauses.codes(small(number))), number);
        }
    }
    Ok(lists)
}

// One more than the number of a ground clause with some literals, or 0.
fn find_ground(lists: &Lists, clauses: &Clauses, codes: &[Code]) -> u32 {
    let mut next = lists.first(word_of(codes));
    for _ in 0..clauses.count() {
        if next == 0 || are_same(clauses.codes(next.wrapping_sub(1)), codes) {
            break;
        }
        next = lists.after(next.wrapping_sub(1));
    }
    next
}

// The definitions in lists by their keys, each list from its least number on.
fn key_lists(alloc: Global, shape: &Shape) -> Result<Lists, AllocError> {
    let count = shape.count.wrapping_sub(shape.defs);
    let mut lists = Lists::new(alloc, count)?;
    for back in 0..count {
        let number = count - 1 - back;
        lists.enter(shape.key(shape.defs.wrapping_add(number)), number);
    }
    Ok(lists)
}

// Takes the first definition with a key out of its list. Answers one more than its number, or 0.
fn take_definition(lists: &mut Lists, shape: &Shape, key: u64) -> u32 {
    let mut before = 0;
    let mut next = lists.first(key);
    for _ in 0..lists.others.len() {
        let number = next.wrapping_sub(1);
        if next == 0 || shape.key(shape.defs.wrapping_add(number as usize)) == key {
            break;
        }
        before = next;
        next = lists.after(number);
    }
    if next != 0 {
        lists.remove(key, before, next.wrapping_sub(1));
    }
    next
}

// For each definition of a past shape one more than the number of the one of a new shape that has its key, or 0; where
// several have the same key, they are paired in order.
fn definitions(alloc: Global, from: &Shape, to: &Shape) -> Result<Vec<u32>, AllocError> {
    let mut lists = key_lists(alloc, to)?;
    let mut found = Vec::new(alloc);
    for atom in from.defs..from.count {
        found.push(take_definition(&mut lists, to, from.key(atom)))?;
    }
    Ok(found)
}

/// What is carried from a past search to a new one.
#[derive(Debug, Drop)]
struct Carrier {
    grounds: Lists,
    // By past definition: one more than the number of the new one, or 0.
    definitions: Vec<u32>,
    // By number of a past clause: one more than its number in the new search, or 0.
    numbers: Vec<u32>,
    // The literals of a clause, over the new numbers.
    codes: Vec<Code>,
}

impl Carrier {
    // Nothing is carried yet.
    fn new(alloc: Global, state: &Propagator, past: &Past) -> Result<Carrier, AllocError> {
        Ok(Carrier {
            grounds: ground_lists(alloc, &state.clauses)?,
            definitions: definitions(alloc, &past.shape, &state.shape)?,
            numbers: vec![in alloc; 0; past.clauses.count()]?,
            codes: Vec::new(alloc),
        })
    }

    // The new literal that a past one becomes, if its atom is there.
    fn code(&self, to: &Shape, from: &Shape, code: Code) -> Option<Code> {
        let parts = from.parts(code.atom());
        let atom = match parts.kind {
            Kind::Def => {
                let number = code.atom().wrapping_sub(from.defs);
                let found = at(self.definitions.as_slice(), number, 0);
                to.defs.wrapping_add(found as usize).wrapping_sub(1)
            }
            Kind::Eq => to.number(parts),
            _ if (parts.version as usize) < to.versions => to.number(parts),
            _ => to.count,
        };
        let is_def = atom >= to.defs;
        if atom < to.count && is_def == (parts.kind == Kind::Def) {
            Some(Code::new(atom, code.is_positive()))
        } else {
            None
        }
    }

    // Finds the new literals of a past clause. Answers whether there are all.
    fn find_codes(
        &mut self,
        state: &Propagator,
        past: &Past,
        number: u32,
    ) -> Result<bool, AllocError> {
        self.codes.clear();
        for code in past.clauses.codes(number) {
            match self.code(&state.shape, &past.shape, *code) {
                Some(code) => self.codes.push(code)?,
                None => return Ok(false),
            }
        }
        Ok(true)
    }

    // Whether the past clauses of some hints became clauses of the new search.
    fn has_all(&self, hints: &[Hint]) -> bool {
        for hint in hints {
            if at(self.numbers.as_slice(), hint.clause() as usize, 0) == 0 {
                return false;
            }
        }
        true
    }

    // Where a past clause comes from in the new search. Of a learnt one nothing, where what shows it isn't there.
    fn origin_of(&self, past: &Past, number: u32) -> Option<Origin> {
        let origin = past.clauses.origin(number)?;
        let Origin::Learnt { from, to } = origin else {
            return Some(origin);
        };
        if self.has_all(past.clauses.hints(from, to)) {
            Some(Origin::Carried { from, to })
        } else {
            None
        }
    }

    // Adds a past clause, if what shows it is there. Answers one more than its number, or 0.
    fn add(&mut self, state: &mut Propagator, past: &Past, number: u32) -> Result<u32, AllocError> {
        if !self.find_codes(state, past, number)? {
            return Ok(0);
        }
        let Some(origin) = self.origin_of(past, number) else {
            return Ok(0);
        };
        let codes = self.codes.as_slice();
        if let Origin::Ground(_) = origin {
            return Ok(find_ground(&self.grounds, &state.clauses, codes));
        }
        let added = state.clauses.push(codes, origin)?;
        state.keep(added)?;
        Ok(added.wrapping_add(1))
    }

    // Adds all past clauses, in their order.
    fn add_all(&mut self, state: &mut Propagator, past: &Past) -> Result<(), AllocError> {
        for number in 0..past.clauses.count() {
            let added = self.add(state, past, small(number))?;
            put(self.numbers.as_mut_slice(), number, added);
        }
        Ok(())
    }
}

impl Known {
    /// Nothing.
    pub fn new() -> Known {
        Known { past: None }
    }

    /// Whether it may serve a search for what decides ground clauses: it is over as many terms.
    pub(crate) fn serves(&self, ground: &Ground) -> bool {
        self.is_over(ground.sizes().terms as usize)
    }

    // Whether something is known, and it is over so many terms.
    fn is_over(&self, terms: usize) -> bool {
        match &self.past {
            Some(past) => past.shape.terms == terms,
            None => false,
        }
    }

    /// Lends what is known to a search at level 0. It is forgotten where none of its lemmas can be added. Answers a clause
    /// that is false then, if there is one.
    pub(crate) fn lend(&mut self, searcher: &mut Searcher) -> Result<Option<u32>, AllocError> {
        if !self.is_over(searcher.state.shape.terms) {
            return Ok(None);
        }
        let conflict = match &mut self.past {
            Some(past) => past.tell(searcher)?,
            None => None,
        };
        if searcher.shown.is_empty() {
            self.past = None;
        }
        Ok(conflict)
    }

    /// Takes back what was lent to a search, which needs it no more.
    pub(crate) fn take_back(&mut self, searcher: &mut Searcher) {
        if let Some(past) = &mut self.past {
            searcher.state.clauses.give_hints(&mut past.clauses);
        }
    }

    /// Hands what is known over to a search at level 0, and forgets it: where the search ends, `keep` has it. Answers a
    /// clause that is false then, if there is one.
    pub(crate) fn hand_over(&mut self, searcher: &mut Searcher) -> Result<Option<u32>, AllocError> {
        let is_lent = self.is_over(searcher.state.shape.terms);
        let conflict = self.lend(searcher)?;
        if is_lent {
            self.past = None;
        }
        Ok(conflict)
    }

    /// Keeps what a search has that ended, if it found lemmas, or they were handed over to it. The search has no clauses
    /// and no atoms after that.
    pub(crate) fn keep(&mut self, searcher: &mut Searcher) -> Result<(), AllocError> {
        if searcher.shown.is_empty() {
            return Ok(());
        }
        let alloc = searcher.state.alloc;
        let mut past = Past::new(alloc);
        past.take(searcher)?;
        past.trim(alloc)?;
        self.past = Some(past);
        Ok(())
    }
}

// Some numbers below a count, each once.
fn each_once(alloc: Global, count: usize, numbers: &[u32]) -> Result<Vec<u32>, AllocError> {
    let mut is_found = vec![in alloc; false; count]?;
    let mut found = Vec::new(alloc);
    for number in numbers {
        if !at(is_found.as_slice(), *number as usize, false) {
            put(is_found.as_mut_slice(), *number as usize, true);
            found.push(*number)?;
        }
    }
    Ok(found)
}

// The clauses of a search that show some lemmas and what made literals true at level 0.
fn roots_of(alloc: Global, shown: &[u32], units: &[u32]) -> Result<Vec<u32>, AllocError> {
    let mut roots = Vec::with_capacity(alloc, shown.len().wrapping_add(units.len()))?;
    roots.extend_from_slice(shown)?;
    roots.extend_from_slice(units)?;
    Ok(roots)
}

impl Past {
    // Nothing, over no atoms.
    fn new(alloc: Global) -> Past {
        Past {
            shape: Shape::empty(alloc),
            clauses: Clauses::new(alloc),
            shown: Vec::new(alloc),
            units: Vec::new(alloc),
        }
    }

    // Takes all clauses of a search, which has none after that.
    fn take(&mut self, searcher: &mut Searcher) -> Result<(), AllocError> {
        self.units = searcher.state.reasons()?;
        swap(&mut self.shown, &mut searcher.shown);
        swap(&mut self.clauses, &mut searcher.state.clauses);
        swap(&mut self.shape, &mut searcher.state.shape);
        Ok(())
    }

    // Drops the clauses that neither the lemmas need nor what made literals true at level 0.
    fn trim(&mut self, alloc: Global) -> Result<(), AllocError> {
        let roots = roots_of(alloc, self.shown.as_slice(), self.units.as_slice())?;
        let needed = needed_for(alloc, &self.clauses, roots.as_slice())?;
        let numbers = self.clauses.retain(alloc, needed.as_slice())?;
        let shown = moved(alloc, numbers.as_slice(), self.shown.as_slice())?;
        self.shown = each_once(alloc, self.clauses.count(), shown.as_slice())?;
        self.units = moved(alloc, numbers.as_slice(), self.units.as_slice())?;
        Ok(())
    }

    // Adds to a search what was found, with what shows it, and lends it the hints.
    fn tell(&mut self, searcher: &mut Searcher) -> Result<Option<u32>, AllocError> {
        let numbers = self.carried(&mut searcher.state)?;
        push_shown(
            &mut searcher.shown,
            numbers.as_slice(),
            self.shown.as_slice(),
        )?;
        let conflict = self.watch(&mut searcher.state, numbers.as_slice())?;
        searcher
            .state
            .clauses
            .take_hints(&mut self.clauses, numbers);
        Ok(conflict)
    }

    // Adds the clauses to a search. Answers for each one more than its number there, or 0.
    fn carried(&self, state: &mut Propagator) -> Result<Vec<u32>, AllocError> {
        let mut carrier = Carrier::new(state.alloc, state, self)?;
        carrier.add_all(state, self)?;
        Ok(carrier.numbers)
    }

    // Has the lemmas watched, and what made literals true at level 0, where these became clauses of a search. Answers
    // one that is false, if there is one.
    fn watch(&self, state: &mut Propagator, numbers: &[u32]) -> Result<Option<u32>, AllocError> {
        let roots = roots_of(state.alloc, self.shown.as_slice(), self.units.as_slice())?;
        let roots = each_once(state.alloc, self.clauses.count(), roots.as_slice())?;
        watch_all(state, numbers, roots.as_slice())
    }
}

// Adds the numbers that some lemmas have in a search, of those that are there.
fn push_shown(found: &mut Vec<u32>, numbers: &[u32], shown: &[u32]) -> Result<(), AllocError> {
    for number in shown {
        let added = at(numbers, *number as usize, 0);
        if added != 0 {
            found.push(added.wrapping_sub(1))?;
        }
    }
    Ok(())
}

// Has the clauses watched that some past ones became. Answers one that is false, if there is one.
fn watch_all(
    state: &mut Propagator,
    numbers: &[u32],
    roots: &[u32],
) -> Result<Option<u32>, AllocError> {
    for root in roots {
        let added = at(numbers, *root as usize, 0);
        if added != 0 && !state.clauses.is_ground(added.wrapping_sub(1)) {
            let watched = state.watch_kept(added.wrapping_sub(1))?;
            if watched.is_false {
                return Ok(Some(watched.number));
            }
        }
    }
    Ok(None)
}
