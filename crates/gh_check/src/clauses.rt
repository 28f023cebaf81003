//! The clauses of lines, none of which is copied.

ghost use Rattle.std.specs.Prelude.{◌≡◌, ◌↔◌, [], IsTrue, is_some, unwrap_or};
ghost use Rattle.gh_base.specs.Grounds.{Problem};
ghost use Rattle.gh_log.specs.Sections.{line_clause};
ghost use Rattle.gh_log.specs.Tables.{line_of};
ghost use Rattle.gh_check.specs.Kept.{IsNamed};
ghost use Rattle.gh_check.specs.Clauses.{lits_in};

use gh_base::atom::Lit;
use gh_base::clause::Clause;
use gh_base::ground::Ground;
use gh_inst::naming::instance;
use gh_log::lines::LogLine;
use std::alloc::Global;

/// The clause of a line: that of an instance is made each time, and takes no memory.
#[derive(Drop)]
pub enum LineClause<'s> {
    /// A ground clause, or the line's own.
    Borrowed(&'s [Lit]),
    /// An instance.
    Instance(Clause),
}

impl<'s> LineClause<'s> {
    /// The literals.
    pub fn lits(&self) -> &[Lit]
        ensures { result.now ≡ lits_in self.now }
    {
        match self {
            LineClause::Borrowed(lits) => lits,
            LineClause::Instance(clause) => clause.lits(),
        }
    }

    /// Whether there is no literal.
    pub fn is_empty(&self) -> bool
        ensures { IsTrue result ↔ (lits_in self.now ≡ []) }
    {
        self.lits().is_empty()
    }
}

/// Whether a line has a clause: a deletion has none.
pub fn has_clause(line: LogLine<'_>) -> bool
    ensures { (p : Problem) → result ≡ is_some (line_clause p (line_of line.entry)) }
{
    match line {
        LogLine::Delete { .. } => false,
        _ => true,
    }
}

/// The clause of a line, the empty one where it has none.
pub fn clause_of<'s>(alloc: Global, ground: &'s Ground, line: LogLine<'s>) -> LineClause<'s>
    requires { IsNamed ground.now (line_of line) }
    ensures { lits_in result ≡ unwrap_or (line_clause ground.now (line_of line.entry)) [] }
{
    match line {
        LogLine::Axiom(name) => match instance(alloc, name, ground.terms(), ground.versions()) {
            None => LineClause::Borrowed(&[]),
            Some(clause) => LineClause::Instance(clause),
        },
        LogLine::Clause { number } => match ground.clause(number) {
            None => LineClause::Borrowed(&[]),
            Some(clause) => LineClause::Borrowed(clause.lits()),
        },
        LogLine::Lemma(clause) => LineClause::Borrowed(clause),
        LogLine::Learnt(clause) => LineClause::Borrowed(clause),
        LogLine::Hinted { clause, .. } => LineClause::Borrowed(clause),
        LogLine::Delete { .. } => LineClause::Borrowed(&[]),
    }
}
