//! A search for hints: the lines along which unit propagation comes to a contradiction, by two watched literals in
//! each clause. No contract speaks of it: what it finds is looked at again, and where that shows nothing, the literals
//! that propagation gave are tested.

use crate::distinct::{Distinct, difference};
use crate::positions::Positions;
use gh_base::atom::Lit;
use gh_base::sizes::Sizes;
use gh_log::lines::{Lines, LogLine};
use std::alloc::{AllocError, Global};

// The end of a list.
const NONE: u32 = 0;

// With more atoms, rows or literals than this nothing is searched.
const MOST: usize = 1000000000;

// A watched literal, by its place among all codes, and the node after its own in its literal's list.
#[derive(Clone, Copy)]
struct Watch {
    place: u32,
    next: u32,
}

// A clause: its codes by their places, the position of its line, how many literals that has, and whether it was shown
// by the lines before it. Row k has the nodes 2k + 2 and 2k + 3, for its two watches.
#[derive(Clone, Copy)]
struct Row {
    start: u32,
    end: u32,
    position: u32,
    length: u32,
    is_late: bool,
    first: Watch,
    second: Watch,
}

// The code of a literal: the number of its atom twice, and one more where it is positive.
fn code_of(sizes: Sizes, lit: Lit) -> u32 {
    if !sizes.has(lit.atom) {
        return 0;
    }
    let number = sizes.number(lit.atom);
    if number > MOST {
        return 0;
    }
    2 * number as u32 + u32::from(lit.positive)
}

// Whether a code stands beside that of its literal's opposite, where they are in order.
fn has_opposites(codes: &[u32]) -> bool {
    codes.windows(2).any(|pair| pair[0] ^ 1 == pair[1])
}

/// The clauses of lines with their watched literals, and a trail.
#[derive(Drop)]
pub(crate) struct Search {
    // One more than the place on the trail of each literal that is true, by its code, else 0.
    places: Vec<u32>,
    trail: Vec<u32>,
    // So many literals of the trail are true by the clauses alone, and with the opposites of a line's literals so many.
    fixed: usize,
    assumed: usize,
    // The trail is propagated up to these places, by the early rows and by the late ones.
    early: usize,
    late: usize,
    // The first nodes of the lists of the early rows, by code, and then those of the late rows.
    heads: Vec<u32>,
    rows: Vec<Row>,
    codes: Vec<u32>,
    // The rows by their codes, no two of which have the same.
    distinct: Distinct,
    // The codes of the last clause that was looked at, of its literals that aren't false, in order.
    open: Vec<u32>,
    // Which ground clauses were taken in, by number.
    grounds: Vec<bool>,
    // The positions before this one were taken in, or passed over, and that of the line that was searched last.
    taken: usize,
    searched: usize,
    // The position of a clause that is false by the clauses alone.
    broken: Option<u32>,
    hints: Vec<u32>,
    alloc: Global,
}

impl Search {
    /// No clause.
    pub(crate) fn new(alloc: Global) -> Search {
        Search {
            places: Vec::new(alloc),
            trail: Vec::new(alloc),
            fixed: 0,
            assumed: 0,
            early: 0,
            late: 0,
            heads: Vec::new(alloc),
            rows: Vec::new(alloc),
            codes: Vec::new(alloc),
            distinct: Distinct::new(alloc),
            open: Vec::new(alloc),
            grounds: Vec::new(alloc),
            taken: 0,
            searched: 0,
            broken: None,
            hints: Vec::new(alloc),
            alloc,
        }
    }

    /// The positions that were found, in the order in which their clauses force literals. The last one's may be false.
    pub(crate) fn hints(&self) -> &[u32] {
        self.hints.as_slice()
    }

    // Makes the tables at the first search.
    fn prepare(&mut self, sizes: Sizes) -> Result<(), AllocError> {
        let atoms = sizes.count();
        if self.places.is_empty() && atoms < MOST {
            self.places = vec![in self.alloc; 0; 2 * atoms]?;
            self.heads = vec![in self.alloc; NONE; 4 * atoms]?;
        }
        Ok(())
    }

    fn is_true(&self, code: u32) -> bool {
        self.place(code) > 0
    }

    fn is_false(&self, code: u32) -> bool {
        self.place(code ^ 1) > 0
    }

    // One more than the place of a literal on the trail, or 0.
    fn place(&self, code: u32) -> u32 {
        match self.places.get(code as usize) {
            None => 0,
            Some(place) => *place,
        }
    }

    // Makes a literal true.
    fn put(&mut self, code: u32) -> Result<(), AllocError> {
        self.trail.push(code)?;
        let place = self.trail.len();
        if (code as usize) < self.places.len() && place <= MOST {
            self.places[code as usize] = place as u32;
        }
        Ok(())
    }

    // Cuts the trail to a length.
    fn cut(&mut self, length: usize) {
        for index in length..self.trail.len() {
            if let Some(code) = self.trail.get(index) {
                let code = *code as usize;
                if code < self.places.len() {
                    self.places[code] = 0;
                }
            }
        }
        self.trail.truncate(length);
        self.early = self.early.min(length);
        self.late = self.late.min(length);
    }

    // The row of a node.
    fn row(&self, node: u32) -> Option<Row> {
        match self.rows.get((node as usize / 2).wrapping_sub(1)) {
            None => None,
            Some(row) => Some(*row),
        }
    }

    // The watch of a node.
    fn watch(&self, node: u32) -> Watch {
        match self.row(node) {
            None => Watch {
                place: 0,
                next: NONE,
            },
            Some(row) if node % 2 == 0 => row.first,
            Some(row) => row.second,
        }
    }

    // Changes the watch of a node.
    fn set_watch(&mut self, node: u32, watch: Watch) {
        let index = (node as usize / 2).wrapping_sub(1);
        if index < self.rows.len() {
            if node % 2 == 0 {
                self.rows[index].first = watch;
            } else {
                self.rows[index].second = watch;
            }
        }
    }

    fn code_at(&self, place: u32) -> u32 {
        match self.codes.get(place as usize) {
            None => 0,
            Some(code) => *code,
        }
    }

    // The first node of a list.
    fn head(&self, list: usize) -> u32 {
        match self.heads.get(list) {
            None => NONE,
            Some(node) => *node,
        }
    }

    // The list of a literal for early rows, or for late ones.
    fn list(&self, code: u32, is_late: bool) -> usize {
        if is_late {
            (code as usize).saturating_add(self.places.len())
        } else {
            code as usize
        }
    }

    // Puts a node first in the list of the literal at a place.
    fn link(&mut self, node: u32, place: u32, is_late: bool) {
        let list = self.list(self.code_at(place), is_late);
        let next = self.head(list);
        self.set_watch(node, Watch { place, next });
        if list < self.heads.len() {
            self.heads[list] = node;
        }
    }

    // Lets a node, or the end, come after another in a list, or be the first.
    fn set_next(&mut self, list: usize, before: u32, next: u32) {
        if before != NONE {
            let place = self.watch(before).place;
            self.set_watch(before, Watch { place, next });
        } else if list < self.heads.len() {
            self.heads[list] = next;
        }
    }

    // The first place of some, but this one, whose literal isn't false.
    fn open_place(&self, from: u32, to: u32, other: u32) -> Option<u32> {
        for place in from..to {
            if place != other && !self.is_false(self.code_at(place)) {
                return Some(place);
            }
        }
        None
    }

    // Watches another literal that isn't false for a node, if there is one: the next one in a circle.
    fn moves(&mut self, node: u32) -> bool {
        let Some(row) = self.row(node) else {
            return false;
        };
        let (own, other) = (self.watch(node).place, self.watch(node ^ 1).place);
        let after = self.open_place(own.saturating_add(1), row.end, other);
        let found = match after {
            None => self.open_place(row.start, own, other),
            Some(place) => Some(place),
        };
        match found {
            None => false,
            Some(place) => {
                self.link(node, place, row.is_late);
                true
            }
        }
    }

    // Makes the other watched literal of a node true, unless it has a truth. Answers whether it is false.
    fn forces(&mut self, node: u32) -> Result<bool, AllocError> {
        let Some(row) = self.row(node) else {
            return Ok(false);
        };
        let code = self.code_at(self.watch(node ^ 1).place);
        if self.is_true(code) {
            return Ok(false);
        }
        if self.is_false(code) {
            self.end_at(row)?;
            return Ok(true);
        }
        self.hints.push(row.position)?;
        self.put(code)?;
        Ok(false)
    }

    // Ends a search at a clause that is false. Where the line's literals and what stands make it so, no other hint is
    // needed, and the line's clause will tell nothing new.
    fn end_at(&mut self, row: Row) -> Result<(), AllocError> {
        let assumed = self.assumed;
        let mut is_known = true;
        for place in row.start..row.end {
            if self.place(self.code_at(place) ^ 1) as usize > assumed {
                is_known = false;
            }
        }
        if is_known {
            self.hints.clear();
            self.pass();
        }
        self.hints.push(row.position)?;
        Ok(())
    }

    // Passes over the line that is being searched.
    fn pass(&mut self) {
        self.taken = self.searched.saturating_add(1);
    }

    // Visits the clauses of a list, up to one that is false.
    fn visit(&mut self, list: usize) -> Result<bool, AllocError> {
        let mut before = NONE;
        let mut node = self.head(list);
        for _ in 0..self.rows.len().saturating_mul(2) {
            if node == NONE {
                return Ok(false);
            }
            let next = self.watch(node).next;
            if self.moves(node) {
                self.set_next(list, before, next);
            } else if self.forces(node)? {
                return Ok(true);
            } else {
                before = node;
            }
            node = next;
        }
        Ok(false)
    }

    // The list to visit next, if there is one: that of a literal that has become false, of early rows before late ones.
    fn next_list(&mut self) -> Option<usize> {
        if let Some(code) = self.trail.get(self.early) {
            let list = self.list(*code ^ 1, false);
            self.early = self.early.saturating_add(1);
            return Some(list);
        }
        if let Some(code) = self.trail.get(self.late) {
            let list = self.list(*code ^ 1, true);
            self.late = self.late.saturating_add(1);
            return Some(list);
        }
        None
    }

    // Propagates up to a clause that is false.
    fn propagate(&mut self) -> Result<bool, AllocError> {
        for _ in 0..=self.heads.len() {
            let Some(list) = self.next_list() else {
                return Ok(false);
            };
            if self.visit(list)? {
                return Ok(true);
            }
        }
        Ok(false)
    }

    // Copies the codes of the literals that aren't false, each once, in order. Answers whether no literal is true and
    // none has its opposite beside it; else only some may be copied.
    fn copy_open(&mut self, sizes: Sizes, clause: &[Lit]) -> Result<bool, AllocError> {
        self.open.clear();
        for lit in clause {
            let code = code_of(sizes, *lit);
            if self.is_true(code) {
                return Ok(false);
            }
            if !self.is_false(code) {
                self.open.push(code)?;
            }
        }
        self.open.sort_unstable();
        self.open.dedup();
        Ok(!has_opposites(self.open.as_slice()))
    }

    // Takes in a clause while only what stands is on the trail. One that stands, or is there, is left out.
    fn take(&mut self, sizes: Sizes, clause: &[Lit], position: u32) -> Result<(), AllocError> {
        if !self.copy_open(sizes, clause)? {
            return Ok(());
        }
        if self.open.len() > 1 {
            return self.enter(position, clause.len());
        }
        match self.open.pop() {
            None => self.broken = Some(position),
            Some(code) => {
                self.hints.push(position)?;
                self.put(code)?;
            }
        }
        Ok(())
    }

    // The codes of a row.
    fn codes_of(&self, number: u32) -> &[u32] {
        let Some(row) = self.rows.get(number as usize) else {
            return &[];
        };
        match self
            .codes
            .as_slice()
            .get(row.start as usize..row.end as usize)
        {
            None => &[],
            Some(codes) => codes,
        }
    }

    // The number of the row that has the open codes, if there is one.
    fn row_of_open(&self) -> Option<u32> {
        let number = self.distinct.nearest(self.open.as_slice())?;
        if difference(self.open.as_slice(), self.codes_of(number)).is_some() {
            return None;
        }
        Some(number)
    }

    // Lets the line that is searched, which has so many literals, stand for a row with the same codes if it is shorter.
    // Answers the position that stood for it.
    fn shorten(&mut self, number: u32, length: usize) -> Option<u32> {
        let number = number as usize;
        let row = *self.rows.get(number)?;
        let searched = self.searched.min(MOST) as u32;
        let length = length.min(MOST) as u32;
        if length < row.length && number < self.rows.len() {
            self.rows[number].position = searched;
            self.rows[number].length = length;
        }
        Some(row.position)
    }

    // The first bit in which the open codes differ from those of the nearest row, unless that has them.
    fn new_bit(&self) -> Option<u32> {
        match self.distinct.nearest(self.open.as_slice()) {
            None => Some(0),
            Some(near) => difference(self.open.as_slice(), self.codes_of(near)),
        }
    }

    // Adds a row for the open codes of a line with so many literals, unless there is one.
    fn enter(&mut self, position: u32, length: usize) -> Result<(), AllocError> {
        let number = self.rows.len();
        if number >= MOST || self.codes.len().saturating_add(self.open.len()) > MOST {
            return Ok(());
        }
        let Some(bit) = self.new_bit() else {
            return Ok(());
        };
        self.distinct
            .insert(self.open.as_slice(), number as u32, bit)?;
        self.add_row(position, length.min(MOST) as u32)
    }

    // Adds a row for the open codes, and watches the first two.
    fn add_row(&mut self, position: u32, length: u32) -> Result<(), AllocError> {
        let start = self.codes.len().min(MOST) as u32;
        self.codes.extend_from_slice(self.open.as_slice())?;
        let end = self.codes.len().min(MOST) as u32;
        let watch = Watch {
            place: start,
            next: NONE,
        };
        let is_late = position as usize == self.searched;
        let node = 2 * self.rows.len().min(MOST) as u32 + 2;
        self.rows.push(Row {
            start,
            end,
            position,
            length,
            is_late,
            first: watch,
            second: watch,
        })?;
        self.link(node, start, is_late);
        self.link(node + 1, start + 1, is_late);
        Ok(())
    }

    // Whether the line at a position names a ground clause that was taken in. It counts as taken in then.
    fn was_taken(&mut self, lines: &Lines, position: usize) -> Result<bool, AllocError> {
        if position == 0 || position > lines.len() {
            return Ok(false);
        }
        let LogLine::Clause { number } = lines.line(position - 1) else {
            return Ok(false);
        };
        let number = number as usize;
        if number >= self.grounds.len() {
            self.grounds.resize(number + 1, false)?;
        }
        let was_taken = self.grounds[number];
        self.grounds[number] = true;
        Ok(was_taken)
    }

    /// Takes in the lines that weren't taken in, and finds hints for what follows from the clauses alone.
    pub(crate) fn settle(&mut self, sizes: Sizes, kept: &Positions<'_>) -> Result<(), AllocError> {
        self.prepare(sizes)?;
        self.hints.clear();
        for position in self.taken..kept.count().min(MOST) {
            if kept.has_clause(position) && !self.was_taken(kept.lines(), position)? {
                let clause = kept.clause(position);
                self.take(sizes, clause.lits(), position as u32)?;
            }
        }
        self.taken = kept.count();
        self.searched = kept.count();
        self.assumed = 0;
        if self.propagate()? {
            self.broken = self.hints.pop();
        }
        self.fixed = self.trail.len();
        Ok(())
    }

    // Makes literals false, up to one that is true. Answers whether there is one.
    fn assume(&mut self, sizes: Sizes, lits: &[Lit]) -> Result<bool, AllocError> {
        for lit in lits {
            let code = code_of(sizes, *lit);
            if self.is_true(code) {
                self.pass();
                return Ok(true);
            }
            if !self.is_false(code) {
                self.put(code ^ 1)?;
            }
        }
        self.assumed = self.trail.len();
        Ok(false)
    }

    // The position of a line whose clause is false wherever this one is, if that is known without propagation.
    fn known(&mut self, sizes: Sizes, lits: &[Lit]) -> Result<Option<u32>, AllocError> {
        if self.broken.is_some() {
            return Ok(self.broken);
        }
        if !self.copy_open(sizes, lits)? {
            return Ok(None);
        }
        match self.row_of_open() {
            None => Ok(None),
            Some(number) => Ok(self.shorten(number, lits.len())),
        }
    }

    /// Finds hints that show a clause, or else all that propagation gives.
    pub(crate) fn find(&mut self, sizes: Sizes, lits: &[Lit]) -> Result<(), AllocError> {
        self.hints.clear();
        if let Some(position) = self.known(sizes, lits)? {
            self.pass();
            self.hints.push(position)?;
            return Ok(());
        }
        if !self.assume(sizes, lits)? {
            self.propagate()?;
        }
        self.cut(self.fixed);
        Ok(())
    }
}
