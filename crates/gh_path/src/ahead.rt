//! How many conditions lie ahead of a place in a body, and how long their paths are, without a
//! walk over the paths.

ghost use Rattle.std.specs.Prelude.{◌≡◌};
ghost use Rattle.gh_ast.specs.Plain.{cond_of, conds_view, statement_of, statements_view};
ghost use Rattle.gh_path.specs.Counting.{nothing, one_end, stepped, checked, either, before_read, before_reads};
ghost use Rattle.gh_path.specs.Counting.{before_cond, before_all, before_some, before, before_block};

use gh_ast::{Cond, Expr, Stmt};

/// The most conditions of a procedure.
pub const MOST_CONDITIONS: u32 = 1_024;

/// The most steps of a condition.
pub const MOST_STEPS: u32 = 256;

/// What lies ahead of a place.
///
/// `count` is the number of conditions, counted up to one past `MOST_CONDITIONS`. `reach` is one
/// more than the number of steps of the longest path, up to two past `MOST_STEPS`, and 0 where
/// there is no path.
#[derive(Clone, Copy, Debug, PartialEq, Eq)]
pub struct PathCounts {
    pub count: u32,
    pub reach: u32,
}

impl PathCounts {
    /// PathCounts of a dead end.
    pub fn nothing() -> PathCounts
        ensures { result ≡ nothing }
    {
        PathCounts { count: 0, reach: 0 }
    }

    /// PathCounts of an end, with its check.
    pub fn one_end() -> PathCounts
        ensures { result ≡ one_end }
    {
        PathCounts { count: 1, reach: 1 }
    }

    /// With a step before it.
    pub fn stepped(self) -> PathCounts
        ensures { result ≡ stepped self }
    {
        PathCounts {
            count: self.count,
            reach: self
                .reach
                .saturating_add(self.reach.min(1))
                .min(MOST_STEPS + 2),
        }
    }

    /// With a check before it.
    pub fn checked(self) -> PathCounts
        ensures { result ≡ checked self }
    {
        PathCounts {
            count: self.count.saturating_add(1).min(MOST_CONDITIONS + 1),
            reach: self.reach.max(1),
        }
    }

    /// This or the other.
    pub fn either(self, other: PathCounts) -> PathCounts
        ensures { result ≡ either self other }
    {
        PathCounts {
            count: self
                .count
                .saturating_add(other.count)
                .min(MOST_CONDITIONS + 1),
            reach: self.reach.max(other.reach),
        }
    }
}

/// PathCounts of an expression's read.
pub fn before_read(expr: &Expr, after: PathCounts) -> PathCounts
    ensures { result ≡ before_read expr.now after }
{
    match expr {
        Expr::Plain(_) => after,
        Expr::Read(_) => after.stepped().checked(),
    }
}

/// PathCounts of the reads of some expressions.
pub fn before_reads(exprs: &[Expr], after: PathCounts) -> PathCounts
    ensures { result ≡ before_reads exprs.now after }
{
    let mut ahead = after;
    let mut left = exprs.len();
    while left > 0 {
        left -= 1;
        ahead = before_read(&exprs[left], ahead);
    }
    ahead
}

/// PathCounts of a test that leads to one of two places.
#[cycle(test_ahead)]
pub fn before_cond(test: &Cond, yes: PathCounts, no: PathCounts) -> PathCounts
    ensures { result ≡ before_cond (cond_of test.now) yes no }
{
    match test {
        Cond::Compare { left, right, .. } => {
            before_read(left, before_read(right, yes.stepped().either(no.stepped())))
        }
        Cond::Not(inner) => before_cond(inner, no, yes),
        Cond::And(members) => before_all(members.as_slice(), yes, no),
        Cond::Or(members) => before_some(members.as_slice(), yes, no),
    }
}

/// PathCounts of tests that have all to be true.
#[cycle(test_ahead)]
pub fn before_all(tests: &[Cond], yes: PathCounts, no: PathCounts) -> PathCounts
    ensures { result ≡ before_all (conds_view tests.now) yes no }
{
    let mut ahead = yes;
    let mut left = tests.len();
    while left > 0 {
        left -= 1;
        ahead = before_cond(&tests[left], ahead, no);
    }
    ahead
}

/// PathCounts of tests of which one has to be true.
#[cycle(test_ahead)]
pub fn before_some(tests: &[Cond], yes: PathCounts, no: PathCounts) -> PathCounts
    ensures { result ≡ before_some (conds_view tests.now) yes no }
{
    let mut ahead = no;
    let mut left = tests.len();
    while left > 0 {
        left -= 1;
        ahead = before_cond(&tests[left], yes, ahead);
    }
    ahead
}

/// PathCounts of a statement.
#[cycle(block_ahead)]
fn before(statement: &Stmt, after: PathCounts) -> PathCounts
    ensures { result ≡ before (statement_of statement.now) after }
{
    match statement {
        Stmt::Set { value, .. } => before_read(value, after.stepped()),
        Stmt::New { .. } => after.stepped(),
        Stmt::Write { value, .. } => before_read(value, after.stepped().stepped().checked()),
        Stmt::Free { .. } => after.stepped().stepped().checked(),
        Stmt::Call { arguments, .. } => {
            before_reads(arguments.as_slice(), after.stepped().checked())
        }
        Stmt::If {
            test,
            taken,
            otherwise,
        } => before_cond(
            test,
            before_block(taken.statements.as_slice(), after),
            before_block(otherwise.statements.as_slice(), after),
        ),
        Stmt::While { test, .. } => before_cond(test, PathCounts::nothing(), after)
            .stepped()
            .checked(),
        Stmt::Return { values, .. } => {
            before_reads(values.as_slice(), PathCounts::one_end().stepped())
        }
    }
}

/// PathCounts of some statements.
#[cycle(block_ahead)]
pub fn before_block(statements: &[Stmt], after: PathCounts) -> PathCounts
    ensures { result ≡ before_block (statements_view statements.now) after }
{
    let mut ahead = after;
    let mut left = statements.len();
    while left > 0 {
        left -= 1;
        ahead = before(&statements[left], ahead);
    }
    ahead
}
