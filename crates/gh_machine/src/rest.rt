//! What a procedure at work has still to do.

ghost use Rattle.std.specs.Prelude.{◌≡◌, ◌≤◌, ◌<◌, ◌∷◌, ◌++◌, [], drop, length, OnOk, OnErr, MatchOption};
ghost use Rattle.std.specs.Vec.{vec_len, vec_capacity};
ghost use Rattle.gh_machine.specs.Rests.{laid_out, AreOpen};

use gh_ast::Stmt;
use std::alloc::{AllocError, Global};
use std::marker::Model;

/// Statements that are still to run, kept as the rests of blocks, so that no statement is copied.
/// Contracts see it as the list of the statements, the next one first.
#[derive(Drop)]
pub struct Rest<'p> {
    pieces: Vec<&'p [Stmt]>,
}

impl<'p> Model for Rest<'p> {
    ghost use Rattle.std.specs.Prelude.{List};
    ghost use Rattle.std.specs.Coded.{coded_list};
    ghost use Rattle.gh_ast.specs.declared.Stmt.{Stmt};
    ghost use Rattle.gh_ast.specs.contracts.Stmt as whole;
    ghost use Rattle.gh_machine.specs.Rests.{laid_out, AreOpen};

    ghost Value = { List Stmt };

    ghost coded = { coded_list whole.the_row.coded };

    ghost view = { λ r. laid_out r.pieces.items };

    ghost invariant = { λ r. AreOpen r.pieces.items };
}

// Takes the next statement off the last block.
fn drop_first(pieces: &mut Vec<&[Stmt]>)
    requires some { 0 < length pieces.old.items }
    requires open { AreOpen pieces.old.items }
    ensures left { laid_out pieces.new.items ≡ drop 1 (laid_out pieces.old.items) }
    ensures open { AreOpen pieces.new.items }
    ensures len { vec_len pieces.new ≤ vec_len pieces.old }
    ensures capacity { vec_capacity pieces.new ≡ vec_capacity pieces.old }
{
    let last = pieces.len() - 1;
    let left = &pieces[last][1..];
    if left.is_empty() {
        let _ = pieces.pop();
    } else {
        pieces[last] = left;
    }
}

impl<'p> Rest<'p> {
    /// Nothing to do.
    pub fn new(alloc: Global) -> Rest<'p>
        ensures { result ≡ [] }
    {
        Rest {
            pieces: Vec::new(alloc),
        }
    }

    /// Puts a block before the rest.
    pub fn push(&mut self, block: &'p [Stmt]) -> Result<(), AllocError>
        ensures ok { OnOk result (self.new ≡ block.now ++ self.old) }
        ensures err { OnErr result (self.new ≡ self.old) }
    {
        if !block.is_empty() {
            self.pieces.push(block)?;
        }
        Ok(())
    }

    /// The next statement.
    pub fn first(&self) -> Option<&'p Stmt>
        ensures { MatchOption result (self.now ≡ []) (λ s. self.now ≡ s.now ∷ drop 1 self.now) }
    {
        let count = self.pieces.len();
        if count == 0 {
            return None;
        }
        let block = self.pieces[count - 1];
        Some(&block[0])
    }

    /// Takes the next statement off.
    pub fn advance(&mut self)
        requires { 0 < length self.old }
        ensures { self.new ≡ drop 1 self.old }
    {
        drop_first(&mut self.pieces);
    }

    /// Puts a block in the place of the next statement.
    pub fn replace(&mut self, block: &'p [Stmt]) -> Result<(), AllocError>
        requires { 0 < length self.old }
        ensures ok { OnOk result (self.new ≡ block.now ++ drop 1 self.old) }
        ensures err { OnErr result (self.new ≡ self.old) }
    {
        self.pieces.reserve(1)?;
        drop_first(&mut self.pieces);
        if !block.is_empty() {
            self.pieces.push_reserved(block);
        }
        Ok(())
    }

    /// Leaves nothing to do.
    pub fn clear(&mut self)
        ensures { self.new ≡ [] }
    {
        self.pieces.clear();
    }
}
