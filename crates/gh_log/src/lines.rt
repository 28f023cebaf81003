//! Logs, their sections and lines.

ghost use Rattle.std.specs.Prelude.{◌≡◌, ◌<◌, ◌+◌, ◌^◌, ◌∷◌, ◌++◌, [], length, slice_get, Some, IfOk, OnOk, OnErr};
ghost use Rattle.gh_log.specs.Lines.{Hinted};
ghost use Rattle.gh_log.specs.Tables.{line_of, part_of, hinted_at, line_at};
ghost use Rattle.gh_log.specs.Tables.{LiesWithin, HasClause, HasParts, IsAdded, Extends, MakesRoom};
ghost use Rattle.gh_log.specs.Tables.{HoldsLiterals, HoldsNumbers, HaveFewParts};

use gh_base::atom::Lit;
use gh_inst::naming::InstanceName;
use std::alloc::{AllocError, Global};
use std::marker::Model;

/// One line of a section. Lines have positions, from 1 in each section.
#[derive(Clone, Copy, Debug)]
pub enum LogLine<'l> {
    /// An instance of an axiom row.
    Axiom(InstanceName),
    /// A ground clause, by its number from 0.
    Clause { number: u32 },
    /// A clause that follows from equality and congruence alone.
    Lemma(&'l [Lit]),
    /// A clause that unit propagation over all earlier lines shows. Version 1 alone has it.
    Learnt(&'l [Lit]),
    /// A clause that unit propagation along the hints shows: positions of earlier lines, in order. Version 2 alone has
    /// it.
    Hinted { clause: &'l [Lit], hints: &'l [u32] },
    /// Lines, by their positions, that later lines don't name. Version 2 alone has it.
    Delete { positions: &'l [u32] },
}

/// What stands in a table from one place to another.
#[derive(Clone, Copy, Debug)]
struct Part {
    from: u32,
    to: u32,
}

/// A line whose literals and numbers stand in tables.
#[derive(Clone, Copy, Debug)]
enum Entry {
    Axiom(InstanceName),
    Clause { number: u32 },
    Lemma(Part),
    Learnt(Part),
    /// The part of the numbers that has the places where the literals begin and end, and then the hints.
    Hinted(Part),
    Delete { positions: Part },
}

/// The lines of a section. The literals of all of them stand in one table, and their hints and positions in another, so
/// that a line takes 12 bytes besides these. Contracts see the list of the plain lines.
#[derive(Debug, Drop)]
pub struct Lines {
    entries: Vec<Entry>,
    literals: Vec<Lit>,
    numbers: Vec<u32>,
}

impl Model for Lines {
    ghost use Rattle.std.specs.Prelude.{List, map};
    ghost use Rattle.gh_log.specs.Lines.{LogLine};

    ghost Value = { List LogLine };

    ghost use Rattle.gh_log.specs.Tables.{line_at, AreEntries};

    ghost view = { λ l. map (line_at l.literals.items l.numbers.items) l.entries.items };

    ghost invariant = { λ l. AreEntries l.literals.items l.numbers.items l.entries.items };
}

// A place as tables write it: places past 32 bits are out of memory.
fn place_at(length: usize) -> Result<u32, AllocError>
    ensures place { IfOk result (λ place. place ≡ length) }
    ensures few { OnOk result (length < 2 ^ 32) }
{
    if length > u32::MAX as usize {
        return Err(AllocError);
    }
    Ok(length as u32)
}

// Adds to a table, and says where.
fn append<T: Copy>(table: &mut Vec<T>, items: &[T]) -> Result<Part, AllocError>
    ensures extended { Extends table.new.items table.old.items }
    ensures added { IfOk result (IsAdded table.old.items table.new.items items.now) }
{
    let from = place_at(table.len())?;
    table.extend_from_slice(items)?;
    let to = place_at(table.len())?;
    Ok(Part { from, to })
}

// Adds a clause that hints show.
fn enter_hinted(
    literals: &mut Vec<Lit>,
    numbers: &mut Vec<u32>,
    clause: &[Lit],
    hints: &[u32],
) -> Result<Entry, AllocError>
    ensures literals { Extends literals.new.items literals.old.items }
    ensures numbers { Extends numbers.new.items numbers.old.items }
    ensures parts { IfOk result (HasParts literals.new.items numbers.new.items) }
    ensures line { IfOk result (λ e. line_at literals.new.items numbers.new.items e ≡ Hinted clause.now hints.now) }
    ensures literals_room { OnOk result (MakesRoom literals.old.items literals.new.items (length clause.now)) }
    ensures numbers_room { OnOk result (MakesRoom numbers.old.items numbers.new.items (2 + length hints.now)) }
{
    let clause = append(literals, clause)?;
    let first = append(numbers, &[clause.from, clause.to])?;
    let last = append(numbers, hints)?;
    Ok(Entry::Hinted(Part {
        from: first.from,
        to: last.to,
    }))
}

// Adds a line's literals and numbers to their tables.
fn enter(
    literals: &mut Vec<Lit>,
    numbers: &mut Vec<u32>,
    line: LogLine<'_>,
) -> Result<Entry, AllocError>
    ensures literals { Extends literals.new.items literals.old.items }
    ensures numbers { Extends numbers.new.items numbers.old.items }
    ensures parts { IfOk result (HasParts literals.new.items numbers.new.items) }
    ensures line { IfOk result (λ e. line_at literals.new.items numbers.new.items e ≡ line_of line.entry) }
    ensures literals_room { OnOk result (HoldsLiterals literals.old.items literals.new.items (line_of line.entry)) }
    ensures numbers_room { OnOk result (HoldsNumbers numbers.old.items numbers.new.items (line_of line.entry)) }
{
    match line {
        LogLine::Axiom(name) => Ok(Entry::Axiom(name)),
        LogLine::Clause { number } => Ok(Entry::Clause { number }),
        LogLine::Lemma(clause) => Ok(Entry::Lemma(append(literals, clause)?)),
        LogLine::Learnt(clause) => Ok(Entry::Learnt(append(literals, clause)?)),
        LogLine::Hinted { clause, hints } => enter_hinted(literals, numbers, clause, hints),
        LogLine::Delete { positions } => Ok(Entry::Delete {
            positions: append(numbers, positions)?,
        }),
    }
}

// A part of a table.
fn shown<T: Copy>(table: &[T], part: Part) -> &[T]
    requires { LiesWithin (length table.now) part }
    ensures { result.now ≡ part_of table.now part }
{
    &table[part.from as usize..part.to as usize]
}

// The line of a clause that hints show.
fn hinted_in<'l>(literals: &'l [Lit], numbers: &'l [u32]) -> LogLine<'l>
    requires { HasClause (length literals.now) numbers.now }
    ensures { line_of result ≡ hinted_at literals.now numbers.now }
{
    match numbers {
        [from, to, hints @ ..] => {
            let clause = shown(
                literals,
                Part {
                    from: *from,
                    to: *to,
                },
            );
            LogLine::Hinted { clause, hints }
        }
        _ => LogLine::Hinted {
            clause: &literals[..0],
            hints: numbers,
        },
    }
}

// The line of an entry.
fn line_in<'l>(literals: &'l [Lit], numbers: &'l [u32], entry: Entry) -> LogLine<'l>
    requires { HasParts literals.now numbers.now entry }
    ensures { line_of result ≡ line_at literals.now numbers.now entry }
{
    match entry {
        Entry::Axiom(name) => LogLine::Axiom(name),
        Entry::Clause { number } => LogLine::Clause { number },
        Entry::Lemma(clause) => LogLine::Lemma(shown(literals, clause)),
        Entry::Learnt(clause) => LogLine::Learnt(shown(literals, clause)),
        Entry::Hinted(part) => hinted_in(literals, shown(numbers, part)),
        Entry::Delete { positions } => LogLine::Delete {
            positions: shown(numbers, positions),
        },
    }
}

impl Lines {
    /// No lines.
    pub fn new(alloc: Global) -> Lines
        ensures { result ≡ [] }
    {
        Lines {
            entries: Vec::new(alloc),
            literals: Vec::new(alloc),
            numbers: Vec::new(alloc),
        }
    }

    /// How many lines there are.
    pub fn len(&self) -> usize
        ensures { result ≡ length self.now }
    {
        self.entries.len()
    }

    /// The line at a place, from 0.
    pub fn line(&self, place: usize) -> LogLine<'_>
        requires { place < length self.now }
        ensures { slice_get self.now place ≡ Some (line_of result) }
    {
        line_in(&self.literals, &self.numbers, self.entries[place])
    }

    /// Adds a line last. It is out of memory also where a table would be longer than 32 bits count: where it answers Ok
    /// the literals of all lines are at most 4,294,967,295, and so are their numbers, which are positions, hints, and
    /// two for each clause that has hints. What a call that failed left in a table counts too.
    pub fn push(&mut self, line: LogLine<'_>) -> Result<(), AllocError>
        ensures ok { OnOk result (self.new ≡ self.old ++ line_of line.entry ∷ []) }
        ensures few { OnOk result (HaveFewParts self.new) }
        ensures err { OnErr result (self.new ≡ self.old) }
    {
        let entry = enter(&mut self.literals, &mut self.numbers, line)?;
        self.entries.push(entry)?;
        Ok(())
    }
}

/// The lines that refute one list of ground clauses. `first` is the number, from 1, of its first line in the file.
#[derive(Debug, Drop)]
pub struct Section {
    pub first: u32,
    pub lines: Lines,
}

/// A section for each condition, in order. The version, 1 or 2, is that of its text.
#[derive(Debug, Drop)]
pub struct Log {
    pub version: u8,
    pub sections: Vec<Section>,
}
