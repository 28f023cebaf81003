//! The syntax tree of the language, without meaning.
#![tactic(auto)]

ghost use Rattle.std.specs.Prelude.{◌<◌, length};

pub mod grammar_laws;
pub mod print;
pub mod question;
pub mod question_laws;
pub mod sign;
pub mod token_laws;
pub mod typed;

use gh_base::name::Name;
use gh_base::place::Span;

/// One occurrence of a name.
#[derive(Debug, Drop)]
pub struct Occ {
    pub name: Name,
    pub span: Span,
}

/// A value that is named: null, or a variable.
#[derive(Debug, Drop)]
pub enum Operand {
    Null { span: Span },
    Var(Occ),
}

/// An operand, or the read `x.next` of a variable.
#[derive(Debug, Drop)]
pub enum Expr {
    Plain(Operand),
    Read(Occ),
}

/// A test: a comparison, or a boolean combination of tests.
#[derive(Debug, Drop)]
pub enum Cond {
    Compare {
        left: Expr,
        equal: bool,
        right: Expr,
    },
    Not(Box<Cond>),
    And(Vec<Cond>),
    Or(Vec<Cond>),
}

/// A formula on heaps.
#[derive(Debug, Drop)]
pub enum Assertion {
    Emp,
    Pure {
        left: Operand,
        equal: bool,
        right: Operand,
    },
    PointsTo {
        at: Occ,
        to: Operand,
    },
    Acc {
        at: Occ,
    },
    Lseg {
        from: Operand,
        to: Operand,
    },
    Star(Vec<Assertion>),
    Cases {
        test: Cond,
        yes: Box<Assertion>,
        no: Box<Assertion>,
    },
}

/// Statements between braces. `close` is the place of the last brace.
#[derive(Debug, Drop)]
#[cycle(stmt)]
pub struct Block {
    pub statements: Vec<Stmt>,
    pub close: Span,
}

/// One statement.
#[derive(Debug, Drop)]
#[cycle(stmt)]
pub enum Stmt {
    Set {
        target: Occ,
        value: Expr,
    },
    New {
        target: Occ,
    },
    Write {
        at: Occ,
        value: Expr,
    },
    Free {
        at: Occ,
    },
    Call {
        targets: Vec<Occ>,
        callee: Occ,
        arguments: Vec<Expr>,
    },
    If {
        test: Cond,
        taken: Block,
        otherwise: Block,
    },
    While {
        span: Span,
        test: Cond,
        invariant: Assertion,
        body: Block,
    },
    Return {
        span: Span,
        values: Vec<Expr>,
    },
}

/// A field of the struct: its name, and the name of its type.
#[derive(Debug, Drop)]
pub struct Field {
    pub name: Occ,
    pub kind: Name,
}

/// The body of a procedure.
#[derive(Debug, Drop)]
pub struct Body {
    pub locals: Vec<Occ>,
    pub block: Block,
}

/// A procedure. `needs` is what it requires, and `gives` what it ensures: its alternatives, at
/// least one. `close` is the place of the body's last brace, or of the semicolon in its place.
#[derive(Debug, Drop)]
pub struct Procedure {
    pub name: Occ,
    pub parameters: Vec<Occ>,
    pub results: Vec<Occ>,
    pub needs: Assertion,
    pub gives: Vec<Assertion>,
    pub body: Option<Body>,
    pub close: Span,
    ghost some: { 0 < length gives.items },
}

/// A program: the struct's fields, the place of the struct's last brace, and the procedures.
#[derive(Debug, Drop)]
pub struct Program {
    pub fields: Vec<Field>,
    pub close: Span,
    pub procedures: Vec<Procedure>,
}
