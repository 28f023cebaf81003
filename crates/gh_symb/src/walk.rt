//! Walks over expressions, tests and assertions.

ghost use Rattle.std.specs.Prelude.{◌≡◌, ℕ, List, IfOk, OnOk, map, unwrap_or};
ghost use Rattle.gh_ast.specs.Plain.{cond_of};
ghost use Rattle.gh_ast.specs.Programs.{names};
ghost use Rattle.gh_path.specs.Terms.{Kind, all_bound, operand_used, operand_term, expr_used, expr_term};
ghost use Rattle.gh_path.specs.Terms.{exprs_used, exprs_terms, cond_walked};
ghost use Rattle.gh_symb.specs.Reads.{all_tests_of, all_walked_of, walked_of};
ghost use Rattle.gh_symb.specs.Tables.{bound_by, state, IsOperandTerm, Visits, Walks, WalksAlways};

use crate::kinds::Kinds;
use crate::scope::Scope;
use gh_ast::{Assertion, Cond, Expr, Occ, Operand};
use gh_base::name::Name;
use std::alloc::{AllocError, Global};

impl<'a> Scope<'a> {
    /// A variable is used, and the content of the cell at its term is listed.
    pub fn follow(
        &mut self,
        kinds: &mut Kinds,
        name: &'a Name,
        version: usize,
    ) -> Result<(), AllocError>
        ensures { OnOk result (Visits name.now kinds.old self.old kinds.new self.new version) }
    {
        let term = self.used_term(kinds, name)?;
        kinds.add_next(version, term)?;
        Ok(())
    }

    /// An operand is used.
    pub fn use_operand(&mut self, kinds: &mut Kinds, operand: &'a Operand) -> Result<(), AllocError>
        ensures { OnOk result (WalksAlways (operand_used operand.now) kinds.old self.old kinds.new self.new) }
    {
        match operand {
            Operand::Null { .. } => Ok(()),
            Operand::Var(occ) => self.use_name(kinds, &occ.name),
        }
    }

    /// An operand is used, and its term is given.
    fn used_operand(&mut self, kinds: &mut Kinds, operand: &'a Operand) -> Result<usize, AllocError>
        ensures used { IfOk result (λ _. WalksAlways (operand_used operand.now) kinds.old self.old kinds.new self.new) }
        ensures term { IfOk result (λ term. IsOperandTerm operand.now self.new term) }
    {
        match operand {
            Operand::Null { .. } => Ok(0),
            Operand::Var(occ) => self.used_term(kinds, &occ.name),
        }
    }

    /// An expression is used, and its term is given.
    pub fn used_expr(
        &mut self,
        kinds: &mut Kinds,
        expr: &'a Expr,
        version: usize,
    ) -> Result<usize, AllocError>
        ensures used { IfOk result (λ _. Walks (expr_used expr.now) kinds.old self.old kinds.new self.new version) }
        ensures term { IfOk result (λ term. term ≡ expr_term expr.now (state kinds.new self.new version)) }
    {
        match expr {
            Expr::Plain(operand) => self.used_operand(kinds, operand),
            Expr::Read(occ) => {
                self.follow(kinds, &occ.name, version)?;
                Ok(kinds.next(version, self.term(&occ.name)))
            }
        }
    }

    /// An expression is used.
    pub fn use_expr(
        &mut self,
        kinds: &mut Kinds,
        expr: &'a Expr,
        version: usize,
    ) -> Result<(), AllocError>
        ensures { OnOk result (Walks (expr_used expr.now) kinds.old self.old kinds.new self.new version) }
    {
        match expr {
            Expr::Plain(operand) => self.use_operand(kinds, operand),
            Expr::Read(occ) => self.follow(kinds, &occ.name, version),
        }
    }

    /// Expressions are used in their order.
    pub fn use_exprs(
        &mut self,
        kinds: &mut Kinds,
        exprs: &'a [Expr],
        version: usize,
    ) -> Result<(), AllocError>
        ensures { OnOk result (Walks (exprs_used exprs.now) kinds.old self.old kinds.new self.new version) }
    {
        for expr in exprs {
            self.use_expr(kinds, expr, version)?;
        }
        Ok(())
    }

    /// The term of an operand.
    fn operand_term(&self, operand: &Operand) -> usize
        ensures { (kinds : List Kind) (version : ℕ) →
            result ≡ operand_term operand.now (state kinds self.now version) }
    {
        match operand {
            Operand::Null { .. } => 0,
            Operand::Var(occ) => self.term(&occ.name),
        }
    }

    /// The term of an expression.
    pub fn expr_term(&self, kinds: &Kinds, expr: &Expr, version: usize) -> usize
        ensures { result ≡ expr_term expr.now (state kinds.now self.now version) }
    {
        match expr {
            Expr::Plain(operand) => self.operand_term(operand),
            Expr::Read(occ) => kinds.next(version, self.term(&occ.name)),
        }
    }

    /// The terms of expressions.
    pub fn exprs_terms(
        &self,
        alloc: Global,
        kinds: &Kinds,
        exprs: &[Expr],
        version: usize,
    ) -> Result<Vec<usize>, AllocError>
        ensures { IfOk result (λ terms. terms.items ≡ exprs_terms exprs.now (state kinds.now self.now version)) }
    {
        let mut terms = Vec::new(alloc);
        for expr in exprs {
            terms.push(self.expr_term(kinds, expr, version))?;
        }
        Ok(terms)
    }

    /// The terms of variables.
    pub fn terms(&self, alloc: Global, occs: &[Occ]) -> Result<Vec<usize>, AllocError>
        ensures { IfOk result (λ terms.
            terms.items ≡ map (λ x. unwrap_or (bound_by self.now x) 0) (names occs.now)) }
    {
        let mut terms = Vec::new(alloc);
        for occ in occs {
            terms.push(self.term(&occ.name))?;
        }
        Ok(terms)
    }

    /// Binds variables to the terms that others have in another scope.
    pub fn bind_from(
        &mut self,
        alloc: Global,
        targets: &'a [Occ],
        inside: &Scope<'a>,
        results: &[Occ],
    ) -> Result<(), AllocError>
        ensures { OnOk result (bound_by self.new ≡ all_bound (bound_by self.old) (names targets.now)
            (map (λ x. unwrap_or (bound_by inside.now x) 0) (names results.now))) }
    {
        let terms = inside.terms(alloc, results)?;
        self.bind_all(targets, terms.as_slice())?;
        Ok(())
    }

    /// Walks over a test.
    #[cycle(walk_test)]
    pub fn walk_test(
        &mut self,
        kinds: &mut Kinds,
        test: &'a Cond,
        version: usize,
    ) -> Result<(), AllocError>
        ensures { OnOk result (Walks (cond_walked (cond_of test.now)) kinds.old self.old kinds.new self.new version) }
    {
        match test {
            Cond::Compare { left, right, .. } => {
                self.use_expr(kinds, left, version)?;
                self.use_expr(kinds, right, version)
            }
            Cond::Not(inner) => self.walk_test(kinds, inner, version),
            Cond::And(members) => self.walk_tests(kinds, members.as_slice(), version),
            Cond::Or(members) => self.walk_tests(kinds, members.as_slice(), version),
        }
    }

    /// Walks over tests in their order.
    #[cycle(walk_test)]
    fn walk_tests(
        &mut self,
        kinds: &mut Kinds,
        tests: &'a [Cond],
        version: usize,
    ) -> Result<(), AllocError>
        ensures { OnOk result (Walks (all_tests_of tests.now) kinds.old self.old kinds.new self.new version) }
    {
        for test in tests {
            self.walk_test(kinds, test, version)?;
        }
        Ok(())
    }

    /// Walks over an assertion.
    #[cycle(walk)]
    pub fn walk(
        &mut self,
        kinds: &mut Kinds,
        assertion: &'a Assertion,
        version: usize,
    ) -> Result<(), AllocError>
        ensures { OnOk result (Walks (walked_of assertion.now) kinds.old self.old kinds.new self.new version) }
    {
        match assertion {
            Assertion::Emp => Ok(()),
            Assertion::Pure { left, right, .. } => {
                self.use_operand(kinds, left)?;
                self.use_operand(kinds, right)
            }
            Assertion::PointsTo { at, to } => {
                self.follow(kinds, &at.name, version)?;
                self.use_operand(kinds, to)
            }
            Assertion::Acc { at } => self.follow(kinds, &at.name, version),
            Assertion::Lseg { from, to } => {
                self.use_operand(kinds, from)?;
                self.use_operand(kinds, to)
            }
            Assertion::Star(members) => self.walk_all(kinds, members.as_slice(), version),
            Assertion::Cases { test, yes, no } => {
                self.walk_test(kinds, test, version)?;
                self.walk(kinds, yes, version)?;
                self.walk(kinds, no, version)
            }
        }
    }

    /// Walks over assertions in their order.
    #[cycle(walk)]
    fn walk_all(
        &mut self,
        kinds: &mut Kinds,
        assertions: &'a [Assertion],
        version: usize,
    ) -> Result<(), AllocError>
        ensures { OnOk result (Walks (all_walked_of assertions.now) kinds.old self.old kinds.new self.new version) }
    {
        for assertion in assertions {
            self.walk(kinds, assertion, version)?;
        }
        Ok(())
    }
}
