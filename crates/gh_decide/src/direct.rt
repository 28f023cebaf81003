//! What settles each condition by a decision of its own.

ghost use Rattle.std.specs.Prelude.{◌≡◌};

use crate::decide::{Verdict, decide_with};
use gh_ast::typed::Typed;
use gh_path::condition::Condition;
use gh_seek::known::Known;
use gh_trace::decider::Decider;
use gh_trace::state::Trace;
use std::alloc::{AllocError, Global};

/// Decides each condition that it is asked for. It keeps how often it has answered, and what its last search found.
#[derive(Debug, Drop)]
pub struct Direct {
    calls: u64,
    known: Known,
}

impl Direct {
    /// It has answered nothing yet, and knows of no search.
    pub fn new() -> Direct
        ensures { result.calls ≡ 0 }
    {
        Direct {
            calls: 0,
            known: Known::new(),
        }
    }

    /// How often it has answered. The count stays at its type's last value.
    pub fn calls(&self) -> u64
        ensures { result ≡ self.now.calls }
    {
        self.calls
    }
}

impl Decider for Direct {
    ghost calls = { λ d. d.calls };

    ghost last = { 18446744073709551615 };

    fn settle(
        &mut self,
        alloc: Global,
        typed: &Typed,
        condition: &Condition,
    ) -> Result<Option<Trace>, AllocError> {
        let verdict = decide_with(alloc, typed, condition, &mut self.known)?;
        self.calls = self.calls.saturating_add(1);
        match verdict {
            Verdict::Valid(_) => Ok(None),
            Verdict::Refuted(trace) => Ok(Some(trace)),
        }
    }
}
