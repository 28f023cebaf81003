//! A walk over the ways of a graph, which shares the steps that two neighbouring ways begin with.

ghost use Rattle.std.specs.Prelude.{◌≡◌, ◌+◌, [], List, IfOk, OnOk};
ghost use Rattle.gh_path.specs.Routes.{AreOn, HasTaken, TurnsBack, LooksAt, GoesOn, BeginsAt, Arrives, IsLess};
ghost use Rattle.gh_path.specs.Routes.{LooksNearer};
ghost use Rattle.gh_path.specs.Routes.{weights, weight_of};

use crate::node::{Asked, Node, Nodes, Origin};
use std::alloc::{AllocError, Global};

/// A step that was taken. At a comparison that was taken to be true, `other` is the place of the
/// node on the way where it is false, which is still to be walked.
#[derive(Clone, Copy, Debug)]
pub struct Taken {
    pub origin: Origin,
    pub other: Option<usize>,
}

/// Where a walk goes on: back, at its end; past the check at a node, and then at the next one; at a
/// node.
#[derive(Clone, Copy, Debug)]
pub enum Onward {
    Back,
    Past { place: usize, next: usize },
    Node { place: usize },
}

/// What a turn of a walk comes to.
#[derive(Clone, Copy, Debug)]
pub enum Come<'t> {
    On,
    Found(Asked<'t>),
    Over,
}

/// The steps of the present way, and where the walk goes on.
#[derive(Debug, Drop)]
pub struct Route {
    pub taken: Vec<Taken>,
    pub onward: Onward,
}

impl Route {
    /// A walk that ended.
    pub fn new(alloc: Global) -> Route
        ensures { (nodes : List Node) → AreOn nodes result [] }
    {
        Route {
            taken: Vec::new(alloc),
            onward: Onward::Back,
        }
    }

    /// Takes a step, and goes on at a node.
    fn go(&mut self, origin: Origin, other: Option<usize>, place: usize) -> Result<(), AllocError>
        ensures taken { OnOk result (HasTaken self.old self.new origin other) }
        ensures onward { OnOk result (self.new.onward ≡ Onward.Node place) }
    {
        self.taken.push(Taken { origin, other })?;
        self.onward = Onward::Node { place };
        Ok(())
    }

    /// Goes back to the last comparison of which the other way is still to be walked.
    fn turn_back<'t>(&mut self) -> Result<Come<'t>, AllocError>
        ensures come { IfOk result (TurnsBack self.old self.new) }
        ensures less { IfOk result (λ come. IsLess come (weight_of self.new) (weights self.old.taken.items + 1)) }
    {
        while let Some(last) = self.taken.pop() {
            if let Some(place) = last.other {
                self.go(last.origin.other_way(), None, place)?;
                return Ok(Come::On);
            }
        }
        Ok(Come::Over)
    }

    /// Looks at the node at a place, which is come to.
    fn look<'t>(&mut self, place: usize, node: Node<'t>) -> Result<Come<'t>, AllocError>
        ensures come { IfOk result (LooksAt place node.entry self.old self.new) }
        ensures less { IfOk result (LooksNearer place node.entry self.old self.new) }
    {
        match node {
            Node::DeadEnd => {
                self.onward = Onward::Back;
                Ok(Come::On)
            }
            Node::Ends { asked } => {
                self.onward = Onward::Back;
                Ok(Come::Found(asked))
            }
            Node::Moves { next, .. } => {
                self.go(Origin::new(place), None, next)?;
                Ok(Come::On)
            }
            Node::Guarded { asked, next, .. } => {
                self.onward = Onward::Past { place, next };
                Ok(Come::Found(asked))
            }
            Node::Fork { yes, no, .. } => {
                self.go(Origin::new(place), Some(no), yes)?;
                Ok(Come::On)
            }
        }
    }

    /// One turn.
    fn turn<'t>(&mut self, nodes: &Nodes<'t>) -> Result<Come<'t>, AllocError>
        ensures come { IfOk result (GoesOn nodes.now self.old self.new) }
        ensures less { IfOk result (λ come. IsLess come (weight_of self.new) (weight_of self.old)) }
    {
        match self.onward {
            Onward::Back => self.turn_back(),
            Onward::Past { place, next } => {
                self.go(Origin::new(place), None, next)?;
                Ok(Come::On)
            }
            Onward::Node { place } => {
                let node = nodes.at(place);
                let come = self.look(place, node)?;
                Ok(come)
            }
        }
    }

    /// Begins at a node.
    pub fn begin(&mut self, place: usize)
        ensures { BeginsAt place self.new }
    {
        self.taken.clear();
        self.onward = Onward::Node { place };
    }

    /// Goes on to the next check, if there is one.
    pub fn arrive<'t>(&mut self, nodes: &Nodes<'t>) -> Result<Option<Asked<'t>>, AllocError>
        ensures { IfOk result (Arrives nodes.now self.old self.new) }
    {
        loop {
            match self.turn(nodes)? {
                Come::On => {}
                Come::Found(asked) => return Ok(Some(asked)),
                Come::Over => return Ok(None),
            }
        }
    }
}
