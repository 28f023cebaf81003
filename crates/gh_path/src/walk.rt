//! The conditions of a program one at a time.

ghost use Rattle.std.specs.Prelude.{◌≡◌, ◌≤◌, ◌<◌, ◌∷◌, ◌++◌, [], length, map, slice_set, IfOk, OnOk};
ghost use Rattle.gh_path.specs.Shown.{KeepsHeld, HoldsAfter};
ghost use Rattle.gh_path.specs.Walks.{IsAtStart, WalksOver, WalksFrom, PassesTo};
ghost use Rattle.gh_path.specs.Walks.{Reaches, Gives, KeepsLeft, Lends, ComesNearer};

use crate::condition::{Check, CheckKind, Condition, PathStep};
use crate::node::{Asked, Nodes, Origin};
use crate::route::{Route, Taken};
use crate::starts::{Root, Sought, Starts};
use gh_base::place::Span;
use std::alloc::{AllocError, Global};
use std::mem;

/// A walk over the conditions of a program, in order. It holds one of them, and keeps of its steps
/// those that the next one has at the same places.
///
/// It gives each condition once, and then None for good. An item that is an error ends it: what
/// follows is None.
#[derive(Debug, Drop)]
pub struct Walk<'c, 't> {
    pub(crate) starts: &'c Starts<'t>,
    pub(crate) alloc: Global,
    pub(crate) given: u32,
    pub(crate) end: u32,
    pub(crate) present: Root,
    pub(crate) next: usize,
    pub(crate) route: Route,
    pub(crate) held: Vec<Origin>,
    pub(crate) condition: Condition,
}

/// A condition without steps, from a start.
pub(crate) fn without_steps(alloc: Global, root: Root) -> Condition
    ensures { result.steps.items ≡ [] }
{
    Condition {
        procedure: root.procedure,
        start: root.start,
        steps: Vec::new(alloc),
        check: Check {
            kind: CheckKind::Return,
            span: Span { line: 0, col: 0 },
        },
    }
}

/// Puts an item at a place, or last where there is no such place.
fn put<T: Drop>(items: &mut Vec<T>, place: usize, item: T) -> Result<(), AllocError>
    ensures there { OnOk result (place < length items.old.items →
        items.new.items ≡ slice_set items.old.items place item) }
    ensures last { OnOk result (length items.old.items ≤ place → items.new.items ≡ items.old.items ++ item ∷ []) }
{
    if place < items.len() {
        items[place] = item;
        return Ok(());
    }
    items.push(item)?;
    Ok(())
}

/// Holds the step of an origin at a place. It is copied unless it is held there.
fn hold_step(
    alloc: Global,
    nodes: &Nodes<'_>,
    place: usize,
    origin: Origin,
    held: &mut Vec<Origin>,
    steps: &mut Vec<PathStep>,
) -> Result<(), AllocError>
    ensures there { OnOk result (HoldsAfter place origin held.old.items held.new.items) }
    ensures held { OnOk result (KeepsHeld nodes.now held.old.items steps.old.items held.new.items steps.new.items) }
{
    if let Some(before) = held.get(place) {
        if *before == origin {
            return Ok(());
        }
    }
    let step = nodes.step(origin);
    put(held, place, origin)?;
    let kept = step.kept(alloc)?;
    put(steps, place, kept)?;
    Ok(())
}

/// Holds the steps of the present way.
fn hold(
    alloc: Global,
    nodes: &Nodes<'_>,
    taken: &[Taken],
    held: &mut Vec<Origin>,
    steps: &mut Vec<PathStep>,
) -> Result<(), AllocError>
    ensures these { OnOk result (held.new.items ≡ map (λ t. t.origin) taken.now) }
    ensures held { OnOk result (KeepsHeld nodes.now held.old.items steps.old.items held.new.items steps.new.items) }
{
    for place in 0..taken.len() {
        hold_step(alloc, nodes, place, taken[place].origin, held, steps)?;
    }
    held.truncate(taken.len());
    steps.truncate(taken.len());
    Ok(())
}

impl<'c, 't> Walk<'c, 't> {
    /// A walk that begins at a start, with `given` of `end` conditions before that.
    fn at_start(
        alloc: Global,
        starts: &'c Starts<'t>,
        sought: Sought,
        given: u32,
        end: u32,
    ) -> Walk<'c, 't>
        ensures at { IsAtStart starts.now sought given end result }
        ensures given { result.given ≡ given }
    {
        let present = sought.root;
        let mut route = Route::new(alloc);
        route.begin(present.node);
        Walk {
            starts,
            alloc,
            given,
            end,
            present,
            next: sought.next,
            route,
            held: Vec::new(alloc),
            condition: without_steps(alloc, present),
        }
    }

    /// A walk over the conditions of the starts, of which there are `end`.
    pub(crate) fn new(alloc: Global, starts: &'c Starts<'t>, end: u32) -> Walk<'c, 't>
        ensures { WalksOver starts.now end result }
    {
        let first = Sought {
            root: starts.first(),
            next: 1,
            before: 0,
        };
        Walk::at_start(alloc, starts, first, 0, end)
    }

    /// Such a walk from the condition of a place on. Places begin at 0.
    pub(crate) fn from_place(
        alloc: Global,
        starts: &'c Starts<'t>,
        end: u32,
        place: u32,
    ) -> Result<Walk<'c, 't>, AllocError>
        ensures { IfOk result (WalksFrom starts.now end place) }
    {
        let Some(sought) = starts.seek(place) else {
            let root = starts.first();
            let over = Sought {
                root,
                next: 0,
                before: 0,
            };
            return Ok(Walk::at_start(alloc, starts, over, end, end));
        };
        let mut walk = Walk::at_start(alloc, starts, sought, place - sought.before, end);
        walk.pass_to(place)?;
        Ok(walk)
    }

    /// Passes over conditions, up to that of a place.
    fn pass_to(&mut self, place: u32) -> Result<(), AllocError>
        ensures { OnOk result (PassesTo self.old place self.new) }
    {
        while self.given < place {
            self.reach()?;
            self.given += 1;
        }
        Ok(())
    }

    /// Goes on to the next condition, if there is one.
    fn reach(&mut self) -> Result<Option<Asked<'t>>, AllocError>
        ensures come { IfOk result (Reaches self.old self.new) }
        ensures given { self.new.given ≡ self.old.given }
        ensures end { self.new.end ≡ self.old.end }
    {
        loop {
            if let Some(asked) = self.route.arrive(&self.starts.nodes)? {
                return Ok(Some(asked));
            }
            let Some(root) = self.starts.root(self.next) else {
                return Ok(None);
            };
            self.present = root;
            self.next += 1;
            self.route.begin(root.node);
        }
    }

    /// Goes on to the next condition and keeps it, if there is one.
    fn give(&mut self) -> Result<bool, AllocError>
        ensures next { IfOk result (Gives self.old self.new) }
        ensures given { self.new.given ≡ self.old.given }
        ensures end { self.new.end ≡ self.old.end }
    {
        let Some(asked) = self.reach()? else {
            return Ok(false);
        };
        hold(
            self.alloc,
            &self.starts.nodes,
            self.route.taken.as_slice(),
            &mut self.held,
            &mut self.condition.steps,
        )?;
        self.condition.check = asked.kept(self.alloc)?;
        self.condition.procedure = self.present.procedure;
        self.condition.start = self.present.start;
        Ok(true)
    }

    /// Goes on to the next condition, which is lent then, and tells whether there is one. It answers
    /// as the iterator does: an error ends the walk.
    pub fn advance(&mut self) -> Result<bool, AllocError>
        ensures next { Lends self.old result self.new }
        ensures nearer { ComesNearer self.old result self.new }
    {
        if self.given >= self.end {
            return Ok(false);
        }
        match self.give() {
            Ok(true) => {
                self.given += 1;
                Ok(true)
            }
            Ok(false) => {
                self.end = self.given;
                Ok(false)
            }
            Err(error) => {
                self.end = self.given;
                Err(error)
            }
        }
    }

    /// The condition that the walk came to last. Before the first one nothing is said of it.
    pub fn condition(&self) -> &Condition
        ensures { result.now ≡ self.now.condition }
    {
        &self.condition
    }

    /// Gives the condition away.
    pub(crate) fn take_condition(&mut self) -> Condition
        ensures value { result ≡ self.old.condition }
        ensures left { KeepsLeft self.old self.new }
        ensures given { self.new.given ≡ self.old.given }
        ensures end { self.new.end ≡ self.old.end }
    {
        self.held.clear();
        mem::replace(&mut self.condition, without_steps(self.alloc, self.present))
    }
}

impl<'c, 't> Iterator for Walk<'c, 't> {
    type Item = Result<Condition, AllocError>;

    ghost use Rattle.std.specs.Prelude.{◌-◌};
    ghost use Rattle.std.specs.Iterator.{at_most};
    ghost use Rattle.gh_path.specs.Walks.{IsGiven};

    ghost next_gives = { λ s r t. IsGiven s r t };

    ghost remaining = { λ s. at_most (s.end - s.given) };

    fn next(&mut self) -> Option<Result<Condition, AllocError>> {
        match self.advance() {
            Ok(true) => Some(Ok(self.take_condition())),
            Ok(false) => None,
            Err(error) => Some(Err(error)),
        }
    }
}
