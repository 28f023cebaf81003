//! What decides conditions.

ghost use Rattle.std.specs.Prelude.{◌≡◌, ℕ, ◌+◌, ◌≤◌, min, IfOk, IfNone, IfSome, OnErr};
ghost use Rattle.gh_ast.specs.Plain.{program_of};
ghost use Rattle.gh_path.specs.Admitted.{IsAdmitted};
ghost use Rattle.gh_path.specs.Kept.{IsOne, condition_of};
ghost use Rattle.gh_trace.specs.Kept.{drawn_of, HasNoCounterexample};
ghost use Rattle.gh_trace.specs.Replay.{IsDrawnCounterexample};

use crate::state::Trace;
use gh_ast::typed::Typed;
use gh_path::condition::Condition;
use std::alloc::{AllocError, Global};

/// Decides conditions of programs, and counts how often it has answered.
pub trait Decider {
    /// How often it has answered; once it has come to the last value, the count stays there.
    ghost calls: { Self → ℕ };

    ghost last: { ℕ };

    /// A counterexample of a condition of an admitted program; none where there is none.
    ///
    /// An answer raises the count of calls by one, up to its last value. Where memory runs out the count stands still.
    fn settle(
        &mut self,
        alloc: Global,
        typed: &Typed,
        condition: &Condition,
    ) -> Result<Option<Trace>, AllocError>
        requires admitted { IsAdmitted (program_of typed.now) }
        requires one { IsOne (program_of typed.now) condition.now }
        ensures none { IfOk result (λ o. IfNone o (HasNoCounterexample (program_of typed.now) condition.now)) }
        ensures some { IfOk result (λ o. IfSome o (λ t.
            IsDrawnCounterexample (program_of typed.now) (condition_of condition.now) (drawn_of t))) }
        ensures counted { IfOk result (λ _. calls self.new ≡ min last (calls self.old + 1)) }
        ensures uncounted { OnErr result (calls self.new ≡ calls self.old) }
        ensures never_falls { calls self.old ≤ calls self.new }
        ensures at_most_one { calls self.new ≤ calls self.old + 1 };
}
