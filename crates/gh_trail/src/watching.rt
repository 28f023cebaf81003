//! Two watched literals for each clause: lists of the clauses that watch a literal, linked by numbers.

use crate::shape::Code;
use crate::table::{at, put};
use std::alloc::{AllocError, Global};

/// The end of a list.
pub const NO_NODE: u32 = u32::MAX >> 1;

/// What became of a clause that lost a watched literal.
#[derive(Clone, Copy, Debug, PartialEq, Eq)]
pub enum Visit {
    /// It watches the literal still.
    Kept,
    /// It watches another literal in its place.
    Moved(u32),
    /// All of its literals are false.
    Conflict,
}

/// A node of a list, in eight bytes, since each clause has two: another literal of the clause, the next node, and
/// whether that literal is the only other one.
#[derive(Clone, Copy, Debug)]
pub struct Node {
    pub other: Code,
    // Twice the number of the next node, and one more where there is no third literal.
    link: u32,
}

// What stands at the place of a node that isn't there.
const NOTHING: Node = Node {
    other: Code(u32::MAX),
    link: u32::MAX - 1,
};

impl Node {
    // A node that stands in no list, of a clause with so many literals.
    fn of_length(length: usize) -> Node {
        let mut node = NOTHING;
        if length == 2 {
            node.link |= 1;
        }
        node
    }

    /// The next node of the list.
    pub fn next(self) -> u32 {
        self.link / 2
    }

    /// Whether the clause has two literals.
    pub fn is_pair(self) -> bool {
        self.link % 2 == 1
    }

    // Has the node lead to another.
    fn set_next(&mut self, next: u32) {
        self.link = next.wrapping_mul(2) | self.link & 1;
    }
}

/// A clause has two nodes, twice its number and one more: they stand in the lists of its first and second literal.
#[derive(Debug, Drop)]
pub struct Watches {
    // By literal.
    first: Vec<u32>,
    nodes: Vec<Node>,
}

impl Watches {
    /// Nothing is watched.
    pub fn new(alloc: Global, atoms: usize) -> Result<Watches, AllocError> {
        Ok(Watches {
            first: vec![in alloc; NO_NODE; atoms.wrapping_mul(2)]?,
            nodes: Vec::new(alloc),
        })
    }

    /// Makes room for the nodes of so many more clauses.
    pub fn reserve(&mut self, clauses: usize) -> Result<(), AllocError> {
        self.nodes.reserve(clauses.wrapping_mul(2))
    }

    /// Makes the two nodes of the next clause, which has so many literals. They stand in no list.
    pub fn enter(&mut self, length: usize) -> Result<(), AllocError> {
        for _ in 0..2 {
            self.nodes.push(Node::of_length(length))?;
        }
        Ok(())
    }

    /// The first node in a literal's list.
    pub fn first(&self, code: Code) -> u32 {
        at(self.first.as_slice(), code.place(), NO_NODE)
    }

    /// The node of a number.
    pub fn node(&self, number: u32) -> Node {
        at(self.nodes.as_slice(), number as usize, NOTHING)
    }

    /// Gives a node another literal of its clause.
    pub fn set_other(&mut self, node: u32, code: Code) {
        if (node as usize) < self.nodes.len() {
            self.nodes[node as usize].other = code;
        }
    }

    // Has a node lead to another.
    fn set_next(&mut self, node: u32, next: u32) {
        if (node as usize) < self.nodes.len() {
            self.nodes[node as usize].set_next(next);
        }
    }

    /// Puts a node that stands in no list at the front of a literal's list, with another literal of its clause.
    pub fn link_with(&mut self, code: Code, node: u32, other: Code) {
        self.set_other(node, other);
        self.link(code, node);
    }

    /// Puts a node that stands in no list at the front of a literal's list.
    pub fn link(&mut self, code: Code, node: u32) {
        let next = self.first(code);
        self.set_next(node, next);
        put(self.first.as_mut_slice(), code.place(), node);
    }

    /// Takes what stands between a node, or a list's front, and a next one out of a literal's list.
    pub fn unlink(&mut self, code: Code, before: u32, next: u32) {
        if before == NO_NODE {
            put(self.first.as_mut_slice(), code.place(), next);
        } else {
            self.set_next(before, next);
        }
    }
}
