//! The axiom rows as patterns, and how a row is read when one of its literals becomes false.

use gh_base::atom::{Atom, Lit, Term};
use gh_inst::naming::{InstanceName, instance};
use gh_trail::propagator::has;
use gh_trail::shape::{Code, Kind, Parts, Shape};
use gh_trail::table::{at, byte};
use gh_trail::words::{Layout, Reading};
use std::alloc::{AllocError, Global};

/// A literal of a row: the places have numbers of the row's variables.
#[derive(Clone, Copy, Debug)]
pub(crate) struct Pattern {
    pub kind: Kind,
    pub positive: bool,
    pub places: [u8; 3],
}

impl Pattern {
    // The pattern of a literal of the row at terms that are the numbers of its variables.
    fn of(lit: Lit) -> Pattern {
        let (kind, places) = match lit.atom {
            Atom::Eq { a, b } => (Kind::Eq, [a.0, b.0, 0]),
            Atom::Btwn { x, y, z, .. } => (Kind::Btwn, [x.0, y.0, z.0]),
            Atom::Hop { x, v, .. } => (Kind::Hop, [x.0, v.0, 0]),
            Atom::Alloc { x, .. } => (Kind::Alloc, [x.0, 0, 0]),
            Atom::Def { .. } => (Kind::Def, [0; 3]),
        };
        Pattern {
            kind,
            positive: lit.positive,
            places,
        }
    }

    // Whether a variable stands at one of the pattern's places.
    fn has(&self, variable: u8) -> bool {
        let arity = self.kind.arity();
        let [x, y, z] = self.places;
        arity > 0 && x == variable || arity > 1 && y == variable || arity > 2 && z == variable
    }

    /// The atom of the pattern over a tuple of terms for the variables.
    pub fn parts(&self, version: u8, tuple: &[u8; 4]) -> Parts {
        let [x, y, z] = self.places;
        let term = |place: usize, variable: u8| {
            if place < self.kind.arity() {
                at(tuple.as_slice(), variable as usize, 0)
            } else {
                0
            }
        };
        Parts {
            kind: self.kind,
            version: if self.kind == Kind::Eq { 0 } else { version },
            terms: [term(0, x), term(1, y), term(2, z)],
        }
    }

    /// The number of the pattern's literal over a tuple of terms for the variables.
    pub fn code(&self, shape: &Shape, version: u8, tuple: &[u8; 4]) -> Code {
        let [x, y, z] = self.places;
        let term = |variable: u8| tuple[(variable & 3) as usize];
        let atom = match self.kind {
            Kind::Eq => shape.equality(term(x), term(y)),
            Kind::Btwn => shape.btwn(version, term(x), term(y), term(z)),
            Kind::Hop => shape.hop(version, term(x), term(y)),
            Kind::Alloc => shape.alloc(version, term(x)),
            Kind::Def => shape.defs,
        };
        Code::new(atom, self.positive)
    }

    /// Whether the pattern says that a term of the tuple equals itself.
    pub fn is_reflexive(&self, tuple: &[u8; 4]) -> bool {
        let [x, y, _] = self.places;
        let term = |variable: u8| tuple[(variable & 3) as usize];
        self.kind == Kind::Eq && self.positive && term(x) == term(y)
    }
}

/// A row: its number, how many variables it has, and its literals.
#[derive(Debug, Drop)]
pub(crate) struct Row {
    pub number: u8,
    pub arity: u8,
    pub patterns: Vec<Pattern>,
}

impl Row {
    /// The literals of an instance.
    pub fn codes(&self, shape: &Shape, version: u8, tuple: &[u8; 4]) -> Few {
        let mut few = Few::new();
        for pattern in self.patterns.as_slice() {
            few.push(pattern.code(shape, version, tuple));
        }
        few
    }

    /// The name of an instance.
    pub fn name(&self, version: u8, tuple: &[u8; 4]) -> InstanceName {
        let [x, y, u, z] = *tuple;
        let term = |place: u8, term: u8| if place < self.arity {
            Term(term)
        } else {
            Term(0)
        };
        InstanceName {
            row: self.number,
            version,
            terms: [term(0, x), term(1, y), term(2, u), term(3, z)],
            arity: self.arity,
        }
    }
}

/// A literal of a row that is read over a free variable.
#[derive(Clone, Copy, Debug)]
pub(crate) struct Read {
    pub reading: Reading,
    pub kind: Kind,
    pub positive: bool,
}

/// The literals of an instance, at most four, without repeats.
#[derive(Clone, Copy, Debug)]
pub(crate) struct Few {
    codes: [Code; 4],
    count: usize,
}

impl Few {
    /// No literal.
    pub fn new() -> Few {
        Few {
            codes: [Code(0); 4],
            count: 0,
        }
    }

    /// The literals.
    pub fn codes(&self) -> &[Code] {
        &self.codes.as_slice()[..self.count.min(4)]
    }

    /// Adds a literal, if it isn't there yet.
    pub fn push(&mut self, code: Code) {
        if self.count < 4 && !has(self.codes(), code) {
            self.codes[self.count] = code;
            self.count = self.count.wrapping_add(1);
        }
    }
}

/// What is read where a literal of a row is false: its places bind all variables but a free one, and each other literal
/// is read over that.
#[derive(Debug, Drop)]
pub(crate) struct Plan {
    pub row: usize,
    /// The place of the literal that is false among the row's.
    pub trigger: usize,
    pub free: Option<u8>,
    /// The trigger is the row's first negative literal.
    pub is_first: bool,
    pub reads: Vec<Read>,
    // By variable: a place of the trigger that has it, or 3 where none has.
    sources: [u8; 4],
    // By place of the trigger: the first that has the same variable.
    same: [u8; 3],
    // Whether two places have the same variable.
    has_same: bool,
}

impl Plan {
    /// The tuple of variables that the trigger's three terms give, with 0 after them, if equal places have equal terms.
    #[inline]
    pub fn tuple(&self, terms: &[u8; 4]) -> Option<[u8; 4]> {
        let term = |place: u8| terms[(place & 3) as usize];
        if self.has_same && (term(self.same[1]) != terms[1] || term(self.same[2]) != terms[2]) {
            return None;
        }
        let [first, second, third, fourth] = self.sources;
        Some([term(first), term(second), term(third), term(fourth)])
    }
}

/// All rows, and the plans of their literals by the kind and the sign of the literal that makes them false.
#[derive(Debug, Drop)]
pub(crate) struct Plans {
    pub rows: Vec<Row>,
    groups: Vec<Vec<Plan>>,
}

// The row of a number with so many variables, if it is there.
fn row_of(alloc: Global, number: u8, arity: u8) -> Result<Option<Row>, AllocError> {
    let terms = [Term(0), Term(1), Term(2), Term(3)];
    let mut name = InstanceName {
        row: number,
        version: 0,
        terms: [Term(0); 4],
        arity,
    };
    for place in 0..(arity.min(4) as usize) {
        name.terms[place] = terms[place];
    }
    let Some(clause) = instance(alloc, name, 4, 1) else {
        return Ok(None);
    };
    Ok(Some(Row {
        number,
        arity,
        patterns: patterns_of(alloc, clause.lits())?,
    }))
}

// The patterns of literals at terms that are the numbers of a row's variables.
fn patterns_of(alloc: Global, lits: &[Lit]) -> Result<Vec<Pattern>, AllocError> {
    let mut patterns = Vec::new(alloc);
    for lit in lits {
        patterns.push(Pattern::of(*lit))?;
    }
    Ok(patterns)
}

// The literals of a row with a free variable, but for the one at a place, as they are read over it: negative ones
// first, since few atoms are true.
fn reads_of(
    alloc: Global,
    layout: &Layout,
    row: &Row,
    place: usize,
    free: Option<u8>,
) -> Result<Vec<Read>, AllocError> {
    let mut reads = Vec::new(alloc);
    let Some(free) = free else {
        return Ok(reads);
    };
    for positive in [false, true] {
        for other in 0..row.patterns.len() {
            let pattern = row.patterns[other];
            if other != place && pattern.has(free) && pattern.positive == positive {
                reads.push(Read {
                    reading: layout.reading(pattern.kind, pattern.places, free),
                    kind: pattern.kind,
                    positive,
                })?;
            }
        }
    }
    Ok(reads)
}

// Whether a literal of a row before a place is negative.
fn has_negative_before(row: &Row, place: usize) -> bool {
    for other in 0..row.patterns.len() {
        if other < place && !row.patterns[other].positive {
            return true;
        }
    }
    false
}

// The plan of a row's literal.
fn plan_of(
    alloc: Global,
    layout: &Layout,
    row: &Row,
    index: usize,
    place: usize,
    trigger: Pattern,
) -> Result<Plan, AllocError> {
    let free = (0..row.arity).find(|variable| !trigger.has(*variable));
    let mut sources = [3; 4];
    let mut same = [0, 1, 2];
    for spot in 0..trigger.kind.arity().min(3) {
        let variable = (trigger.places[spot] & 3) as usize;
        if sources[variable] == 3 {
            sources[variable] = byte(spot);
        }
        same[spot] = sources[variable];
    }
    Ok(Plan {
        row: index,
        trigger: place,
        free,
        is_first: !trigger.positive && !has_negative_before(row, place),
        reads: reads_of(alloc, layout, row, place, free)?,
        sources,
        same,
        has_same: same[1] != 1 || same[2] != 2,
    })
}

// The group of plans for a true literal of a kind.
fn group(kind: Kind, positive: bool) -> usize {
    let sign = if positive { 1 } else { 0 };
    (kind as usize).wrapping_mul(2).wrapping_add(sign)
}

impl Plans {
    /// All rows, read in words of a layout.
    pub fn new(alloc: Global, layout: &Layout) -> Result<Plans, AllocError> {
        let mut plans = Plans {
            rows: Vec::new(alloc),
            groups: Vec::new(alloc),
        };
        plans.fill(alloc, layout).and(Ok(plans))
    }

    // Adds all rows.
    fn fill(&mut self, alloc: Global, layout: &Layout) -> Result<(), AllocError> {
        for _ in 0..10 {
            self.groups.push(Vec::new(alloc))?;
        }
        for number in 0..64 {
            let row = row_of(alloc, byte(number / 4), byte(number % 4 + 1))?;
            self.add_row(alloc, layout, row)?;
        }
        Ok(())
    }

    // Adds a row, if it is there.
    fn add_row(
        &mut self,
        alloc: Global,
        layout: &Layout,
        row: Option<Row>,
    ) -> Result<(), AllocError> {
        let Some(row) = row else {
            return Ok(());
        };
        let index = self.rows.len();
        for place in 0..row.patterns.len() {
            let trigger = row.patterns[place];
            let plan = plan_of(alloc, layout, &row, index, place, trigger)?;
            let group = group(trigger.kind, !trigger.positive);
            if group < self.groups.len() {
                self.groups[group].push(plan)?;
            }
        }
        self.rows.push(row)?;
        Ok(())
    }

    /// The plans for a literal that became true.
    pub fn of(&self, kind: Kind, positive: bool) -> &[Plan] {
        match self.groups.get(group(kind, positive)) {
            Some(plans) => plans.as_slice(),
            None => &[],
        }
    }
}
