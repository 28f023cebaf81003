// The occurrences of variables in expressions, tests and assertions.

ghost use Rattle.gh_ast.specs.Plain.{cond_of, conds_view, assertion_of, assertions_view};
ghost use Rattle.gh_ast.specs.Occurrences.{in_operand, in_expr, in_exprs, in_cond, in_conds, in_assertion};
ghost use Rattle.gh_ast.specs.Occurrences.{in_assertions};
ghost use Rattle.gh_types.specs.Scopes.{OccurrenceErrorsIn};
ghost use Rattle.gh_types.specs.Faults.{IsFirstIn};

use crate::fault::{Fault, earlier};
use crate::scope::{Scope, Setting};
use gh_ast::{Assertion, Cond, Expr, Operand};

impl<'a, 'n> Scope<'a, 'n> {
    /// The first error in an operand.
    fn in_operand(&self, setting: Setting, operand: &Operand) -> Option<Fault>
        ensures { IsFirstIn (OccurrenceErrorsIn self.now setting) (in_operand operand.now) result }
    {
        match operand {
            Operand::Null { .. } => None,
            Operand::Var(occurrence) => self.in_occurrence(setting, occurrence),
        }
    }

    /// The first error in an expression.
    pub fn in_expr(&self, setting: Setting, expr: &Expr) -> Option<Fault>
        ensures { IsFirstIn (OccurrenceErrorsIn self.now setting) (in_expr expr.now) result }
    {
        match expr {
            Expr::Plain(operand) => self.in_operand(setting, operand),
            Expr::Read(occurrence) => self.in_occurrence(setting, occurrence),
        }
    }

    /// The first error in some expressions.
    pub fn in_exprs(&self, setting: Setting, exprs: &[Expr]) -> Option<Fault>
        ensures { IsFirstIn (OccurrenceErrorsIn self.now setting) (in_exprs exprs.now) result }
    {
        let mut first = None;
        for expr in exprs {
            first = earlier(first, self.in_expr(setting, expr));
        }
        first
    }

    /// The first error in a test.
    #[cycle(any_test)]
    pub fn in_cond(&self, setting: Setting, test: &Cond) -> Option<Fault>
        ensures { IsFirstIn (OccurrenceErrorsIn self.now setting) (in_cond (cond_of test.now)) result }
    {
        match test {
            Cond::Compare { left, right, .. } => {
                earlier(self.in_expr(setting, left), self.in_expr(setting, right))
            }
            Cond::Not(inner) => self.in_cond(setting, inner),
            Cond::And(members) => self.in_conds(setting, members.as_slice()),
            Cond::Or(members) => self.in_conds(setting, members.as_slice()),
        }
    }

    /// The first error in some tests.
    #[cycle(any_test)]
    fn in_conds(&self, setting: Setting, tests: &[Cond]) -> Option<Fault>
        ensures { IsFirstIn (OccurrenceErrorsIn self.now setting) (in_conds (conds_view tests.now)) result }
    {
        let mut first = None;
        for test in tests {
            first = earlier(first, self.in_cond(setting, test));
        }
        first
    }

    /// The first error in an assertion.
    #[cycle(assertion)]
    pub fn in_assertion(&self, setting: Setting, assertion: &Assertion) -> Option<Fault>
        ensures { IsFirstIn (OccurrenceErrorsIn self.now setting) (in_assertion (assertion_of assertion.now)) result }
    {
        match assertion {
            Assertion::Emp => None,
            Assertion::Pure { left, right, .. } => {
                earlier(
                    self.in_operand(setting, left),
                    self.in_operand(setting, right),
                )
            }
            Assertion::PointsTo { at, to } => {
                earlier(
                    self.in_occurrence(setting, at),
                    self.in_operand(setting, to),
                )
            }
            Assertion::Acc { at } => self.in_occurrence(setting, at),
            Assertion::Lseg { from, to } => {
                earlier(self.in_operand(setting, from), self.in_operand(setting, to))
            }
            Assertion::Star(members) => self.in_assertions(setting, members.as_slice()),
            Assertion::Cases { test, yes, no } => {
                let first = earlier(self.in_cond(setting, test), self.in_assertion(setting, yes));
                earlier(first, self.in_assertion(setting, no))
            }
        }
    }

    /// The first error in some assertions.
    #[cycle(assertion)]
    pub fn in_assertions(&self, setting: Setting, assertions: &[Assertion]) -> Option<Fault>
        ensures { IsFirstIn (OccurrenceErrorsIn self.now setting) (in_assertions (assertions_view assertions.now)) result }
    {
        let mut first = None;
        for assertion in assertions {
            first = earlier(first, self.in_assertion(setting, assertion));
        }
        first
    }
}
