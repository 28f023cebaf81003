//! Lines by their positions.

ghost use Rattle.std.specs.Prelude.{◌≡◌, ◌↔◌, ◌-◌, ◌≤◌, ◌∷◌, [], false, Some, None, All, IfOk, IsTrue, MatchOption};
ghost use Rattle.std.specs.Prelude.{is_some, length, slice_index_or};
ghost use Rattle.gh_log.specs.Lines.{LogLine as Line};
ghost use Rattle.gh_log.specs.Sections.{line_clause};
ghost use Rattle.gh_check.specs.Clauses.{lits_in, IsLineAt};
ghost use Rattle.gh_check.specs.Kept.{IsBeforeAll, HasNext, next_line, with_line, stands_in, clause_at, AreDeleted};
ghost use Rattle.gh_check.specs.Kept.{MayBeDeleted, TellsStanding};

use crate::clauses::{LineClause, clause_of, has_clause};
use gh_base::ground::Ground;
use gh_log::lines::{Lines, LogLine};
use std::alloc::{AllocError, Global};
use std::marker::Model;

/// The lines of a section that were taken, by their positions from 1, and which of these a line deletes. The clause of
/// a line is that of its instance, its ground clause, or its own; a deletion has none.
#[derive(Drop)]
pub struct Positions<'s> {
    alloc: Global,
    ground: &'s Ground,
    lines: &'s Lines,
    taken: usize,
    deleted: Vec<bool>,
}

impl<'s> Model for Positions<'s> {
    ghost use Rattle.std.specs.Prelude.{◌∷◌, None, map, take};
    ghost use Rattle.gh_log.specs.Sections.{line_clause};
    ghost use Rattle.gh_check.specs.Kept.{Kept, AreMarked};

    ghost Value = { Kept };

    ghost view = { λ k. record {
      problem = k.ground.now;
      lines = k.lines.now;
      clauses = None ∷ map (line_clause k.ground.now) (take k.taken k.lines.now);
      deleted = k.deleted.items;
    } };

    ghost invariant = { λ k. AreMarked k.ground.now k.lines.now k.taken k.deleted.items };
}

impl<'s> Positions<'s> {
    /// No line is taken.
    pub fn new(
        alloc: Global,
        ground: &'s Ground,
        lines: &'s Lines,
    ) -> Result<Positions<'s>, AllocError>
        requires { length lines.now ≤ 4294967295 }
        ensures { IfOk result (IsBeforeAll ground.now lines.now) }
    {
        let deleted = vec![in alloc; false; lines.len() + 1]?;
        Ok(Positions {
            alloc,
            ground,
            lines,
            taken: 0,
            deleted,
        })
    }

    /// Takes one more line.
    pub fn advance(&mut self)
        requires { HasNext self.old }
        ensures { (l : Line) → next_line self.old ≡ Some l
            → self.new ≡ with_line self.old (line_clause self.old.problem l) }
    {
        self.taken += 1;
    }

    /// How many positions there are: that of no line, and those of the lines that were taken.
    pub fn count(&self) -> usize
        ensures { result ≡ length self.now.clauses }
    {
        self.taken + 1
    }

    // The line at a position, if there is one.
    fn line(&self, position: usize) -> Option<LogLine<'s>>
        ensures { MatchOption result (slice_index_or self.now.clauses position None ≡ None)
            (IsLineAt self.now position) }
    {
        let (lines, taken) = (self.lines, self.taken);
        if position == 0 {
            return None;
        }
        if position > taken {
            return None;
        }
        Some(lines.line(position - 1))
    }

    /// Whether the line at a position has a clause.
    pub fn has_clause(&self, position: usize) -> bool
        ensures { result ≡ is_some (slice_index_or self.now.clauses position None) }
    {
        match self.line(position) {
            None => false,
            Some(line) => has_clause(line),
        }
    }

    /// The clause at a position, the empty one where there is none.
    pub fn clause(&self, position: usize) -> LineClause<'s>
        ensures { lits_in result ≡ clause_at self.now position }
    {
        match self.line(position) {
            None => LineClause::Borrowed(&[]),
            Some(line) => clause_of(self.alloc, self.ground, line),
        }
    }

    /// The lines of the section, those too that weren't taken.
    pub fn lines(&self) -> &'s Lines
        ensures { result.now ≡ self.now.lines }
    {
        self.lines
    }

    /// Whether the last line that was taken has a clause, and that is empty.
    pub fn ends_empty(&self) -> bool
        ensures { IsTrue result ↔ (slice_index_or self.now.clauses (length self.now.clauses - 1) None ≡ Some []) }
    {
        if !self.has_clause(self.taken) {
            return false;
        }
        let clause = self.clause(self.taken);
        clause.is_empty()
    }

    // Whether a line deletes the position.
    fn is_deleted(&self, position: u32) -> bool
        ensures { result ≡ slice_index_or self.now.deleted position false }
    {
        match self.deleted.get(position as usize) {
            None => false,
            Some(mark) => *mark,
        }
    }

    /// Whether a position stands: that of a line with a clause, which no line deletes.
    pub fn stands(&self, position: u32) -> bool
        ensures { result ≡ stands_in self.now position }
    {
        self.has_clause(position as usize) && !self.is_deleted(position)
    }

    /// Whether all positions stand.
    pub fn are_standing(&self, positions: &[u32]) -> bool
        ensures { IsTrue result ↔ All (λ position. IsTrue (stands_in self.now position)) positions.now }
    {
        positions.iter().all(|position| self.stands(*position))
    }

    /// Whether all positions stand after the lines of which this is kept.
    pub fn all_stand(&self, positions: &[u32]) -> bool
        ensures { TellsStanding self.now positions.now result }
    {
        self.are_standing(positions)
    }

    // Deletes a position that stands.
    fn mark(&mut self, position: u32)
        requires { IsTrue (stands_in self.old position) }
        ensures { AreDeleted self.old self.new (position ∷ []) }
    {
        self.deleted[position as usize] = true;
    }

    /// Deletes positions. Answers whether all of them stood and were distinct; else some of them may be deleted.
    pub fn delete(&mut self, positions: &[u32]) -> bool
        ensures problem { self.new.problem ≡ self.old.problem }
        ensures lines { self.new.lines ≡ self.old.lines }
        ensures clauses { self.new.clauses ≡ self.old.clauses }
        ensures exact { IsTrue result ↔ MayBeDeleted self.old positions.now }
        ensures deleted { IsTrue result → AreDeleted self.old self.new positions.now }
    {
        for position in positions {
            if !self.stands(*position) {
                return false;
            }
            self.mark(*position);
        }
        true
    }
}
