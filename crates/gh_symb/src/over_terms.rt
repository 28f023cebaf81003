//! Conditions over terms.

ghost use Rattle.std.specs.Prelude.{◌≡◌, ◌↔◌, ◌+◌, ◌<◌, length, map, slice_get, IsNone};
ghost use Rattle.std.specs.Option.{option_map};
ghost use Rattle.gh_symb.specs.Encodings.{plain_kind};
ghost use Rattle.gh_symb.specs.Inside.{check_of, step_of, under_of, IsInside};
ghost use Rattle.gh_symb.specs.Props.{IsInside-prop};

use gh_ast::Assertion;
use gh_base::atom::Term;
use gh_grass::binding::Binding;
use gh_grass::terms::TermList;

/// An assertion in a version of the heap, with the terms of its variables.
#[derive(Debug, Drop)]
pub struct BoundAssertion<'a> {
    pub assertion: &'a Assertion,
    pub binding: Binding,
    pub version: u8,
}

/// A step over terms. `Same` changes no heap and claims nothing. A `Part` of the heap that
/// meets `before` is replaced by one that meets one of `after`, in the next version.
#[derive(Debug, Drop)]
pub enum TermStep<'a> {
    Access {
        x: Term,
    },
    Assume {
        left: Term,
        equal: bool,
        right: Term,
    },
    Same,
    Write {
        x: Term,
        value: Term,
    },
    New {
        location: Term,
        content: Term,
    },
    Free {
        x: Term,
    },
    Part {
        before: BoundAssertion<'a>,
        after: Vec<BoundAssertion<'a>>,
    },
}

/// What is asked at the end: that a term is allocated, that some part of the heap meets an
/// assertion, or that the whole heap meets one of some assertions.
#[derive(Debug, Drop)]
pub enum TermCheck<'a> {
    Access { x: Term },
    Sub(BoundAssertion<'a>),
    Whole(Vec<BoundAssertion<'a>>),
}

/// A condition over terms. Its terms are those that it lists, and its versions those that it counts.
#[derive(Debug, Drop)]
pub struct Symbolic<'a> {
    pub(crate) terms: TermList,
    pub(crate) versions: u8,
    pub(crate) start: BoundAssertion<'a>,
    pub(crate) bindings: Vec<Binding>,
    pub(crate) steps: Vec<TermStep<'a>>,
    pub(crate) check: TermCheck<'a>,
    ghost states: { length bindings.items ≡ length steps.items + 1 },
    ghost inside: { IsInside (map plain_kind terms) versions (under_of start) (map step_of steps.items) (check_of check) } by { IsInside-prop (map plain_kind terms) versions (under_of start) (map step_of steps.items) (check_of check) },
}

impl<'a> Symbolic<'a> {
    /// The kinds of the terms, in order.
    pub fn terms(&self) -> &TermList
        ensures { result.now ≡ self.now.terms }
    {
        &self.terms
    }

    /// How many versions of the heap there are.
    pub fn versions(&self) -> u8
        ensures { result ≡ self.now.versions }
    {
        self.versions
    }

    /// The start assertion.
    pub fn start(&self) -> &BoundAssertion<'a>
        ensures { result.now ≡ self.now.start }
    {
        &self.start
    }

    /// The steps in order.
    pub fn steps(&self) -> &[TermStep<'a>]
        ensures { result.now ≡ self.now.steps.items }
    {
        self.steps.as_slice()
    }

    /// The check.
    pub fn check(&self) -> &TermCheck<'a>
        ensures { result.now ≡ self.now.check }
    {
        &self.check
    }

    /// The terms of the variables at each state, from the first on.
    pub fn bindings(&self) -> &[Binding]
        ensures { result.now ≡ self.now.bindings.items }
    {
        self.bindings.as_slice()
    }

    /// The terms of the variables at a state; none where the number is above that of the steps.
    pub fn binding(&self, state: u16) -> Option<&Binding>
        ensures value { option_map (λ b. b.now) result ≡ slice_get self.now.bindings.items state }
        ensures none { IsNone result ↔ (length self.now.steps.items < state) }
    {
        self.bindings.as_slice().get(state as usize)
    }
}
