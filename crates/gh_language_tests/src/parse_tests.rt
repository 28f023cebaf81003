// Texts that are programs, and texts that are refused.

use crate::answer::{Answer, refused};
use crate::program::program;
use Answer::{Accepted, Byte, Deep, Syntax};
use gh_ast::Program;
use gh_ast::print::print;
use gh_parse::error::ParseError;
use std::alloc::{AllocError, Global};

// A text, and how it is answered.
type Row = (&'static [u8], Answer);

// The answer to a part between two others.
fn answer_within(
    alloc: Global,
    before: &[u8],
    part: &[u8],
    after: &[u8],
) -> Result<Answer, AllocError> {
    match program(alloc, before, part, after) {
        Ok(_) => Ok(Accepted),
        Err(error) => refused(error),
    }
}

// The first row whose text is answered otherwise between two others.
fn wrong_row(
    alloc: Global,
    before: &[u8],
    rows: &[Row],
    after: &[u8],
) -> Result<Option<usize>, AllocError> {
    for (number, (text, wanted)) in rows.iter().enumerate() {
        if answer_within(alloc, before, text, after)? != *wanted {
            return Ok(Some(number));
        }
    }
    Ok(None)
}

const WHOLE: &[Row] = &[
    (b"struct Node { var next: Node; }\n", Accepted),
    (b"", Syntax(1, 1)),
    (b"struct Node { var next: Node; }\n@", Byte(32)),
    (
        b"struct Node { var next: Node; }\nprocedure p( { }",
        Syntax(2, 14),
    ),
    (b"struct Node{var next:Node;}procedure p()", Syntax(1, 41)),
    (b"struct Node{var next:Node;}procedure p();x", Syntax(1, 42)),
    (b"struct Node{}", Accepted),
    (b"struct Node{var a:b;var next:c;var d:Node;}", Accepted),
    (b"struct Node{var var:b;}", Syntax(1, 17)),
    (b"struct Node{var a:next;}", Syntax(1, 19)),
    (b"//@\nstruct//(\n\tNode\r\n{ }//", Accepted),
    (b"struct Node{}=", Syntax(1, 14)),
];

#[test]
fn whole_texts(rt: HostRuntime) -> Result<(), AllocError> {
    assert_eq!(rt; wrong_row(rt.alloc(), b"", WHOLE, b"")?, None);
    Ok(())
}

const LINE: &[u8] = b"struct Node { var next: Node; }\n";

// A sign that is no token, the ends of a text, and a word that is too long.
const PLACES: &[Row] = &[
    (b"procedure p() { x = null; }", Syntax(2, 19)),
    (b"procedure p()\n", Syntax(3, 1)),
    (b"procedure p()", Syntax(2, 14)),
    (
        b"procedure aaaaaaaaaaaaaaaaaaaaaaaaaaaaaaaaaaaaaaaaaaaaaaaaaaaaaaaaaaaaaaaaa",
        Syntax(2, 11),
    ),
    (b"procedure p()&*{}", Syntax(2, 14)),
    (b"procedure p(){x:=:=:=|-", Syntax(2, 18)),
    (b"procedure //a\n/", Syntax(3, 1)),
    (b"procedure 1a", Syntax(2, 11)),
];

#[test]
fn places(rt: HostRuntime) -> Result<(), AllocError> {
    assert_eq!(rt; wrong_row(rt.alloc(), LINE, PLACES, b"")?, None);
    Ok(())
}

// What comes after the word on the line before.
const PROCEDURES: &[Row] = &[
    (b"f();", Accepted),
    (b"f()ensures emp||x==y&*&emp||acc(x){}", Accepted),
    (b"f()requires emp||emp;", Syntax(2, 16)),
    (b"f()ensures emp||;", Syntax(2, 17)),
    (b"f()ensures (emp||emp);", Syntax(2, 16)),
    (
        b"f(x:Node,y:Node)returns(z:Node,w:Node)requires emp ensures x==y{}",
        Accepted,
    ),
    (b"f()ensures emp;", Accepted),
    (b"f()returns(){var x:Node;var y,z:Node;return;}", Accepted),
    (b"f()ensures emp requires emp;", Syntax(2, 16)),
    (b"f(x){}", Syntax(2, 4)),
    (b"f(x:Node,){}", Syntax(2, 10)),
    (b"f(){x:=y;var x:Node;}", Syntax(2, 10)),
    (b"f(){var x;}", Syntax(2, 10)),
    (b"f(){}}", Syntax(2, 6)),
    (b"f(x:y){}", Syntax(2, 5)),
    (b"f()requires x.next==y{}", Syntax(2, 19)),
];

#[test]
fn procedures(rt: HostRuntime) -> Result<(), AllocError> {
    let before = b"struct Node{}procedure\n";
    assert_eq!(rt; wrong_row(rt.alloc(), before, PROCEDURES, b"")?, None);
    Ok(())
}

const STATEMENTS: &[Row] = &[
    (b"x:=y;", Accepted),
    (b"x:=null;", Accepted),
    (b"x:=y.next;", Accepted),
    (b"x:=new Node;", Accepted),
    (b"x:=f();", Accepted),
    (b"x:=f(y.next,null);", Accepted),
    (b"x,y,z:=f(x);", Accepted),
    (b"f();", Accepted),
    (b"f(x,y);", Accepted),
    (b"x.next:=y.next;", Accepted),
    (b"free x;", Accepted),
    (b"if(x==y.next){}", Accepted),
    (b"if(!(x==y)||x!=y&&x==null){}else{x:=y;}", Accepted),
    (
        b"while(x!=null)invariant lseg(x,null)&*&acc(y){x:=x.next;}",
        Accepted,
    ),
    (b"while((x!=null)){}", Accepted),
    (b"return;return x,y.next;", Accepted),
    (b"x;", Syntax(2, 2)),
    (b"x:=;", Syntax(2, 4)),
    (b"x:=y", Syntax(2, 5)),
    (b"x:=new;", Syntax(2, 7)),
    (b"x:=new Node", Syntax(2, 12)),
    (b"x:=null();", Syntax(2, 8)),
    (b"x:=y.next();", Syntax(2, 10)),
    (b"x,y:=z;", Syntax(2, 7)),
    (b"x,:=f();", Syntax(2, 3)),
    (b"x,y:=new Node;", Syntax(2, 6)),
    (b"f(x,);", Syntax(2, 5)),
    (b"f(x", Syntax(2, 4)),
    (b"x.foo:=y;", Syntax(2, 3)),
    (b"x.next==y;", Syntax(2, 7)),
    (b"free null;", Syntax(2, 6)),
    (b"if(x==y)x:=y;", Syntax(2, 9)),
    (b"if(x==y){}else x:=y;", Syntax(2, 16)),
    (b"while(x==y)invariant{}", Syntax(2, 21)),
    (b"while x==y{}", Syntax(2, 7)),
    (b"return x y;", Syntax(2, 10)),
];

#[test]
fn statements(rt: HostRuntime) -> Result<(), AllocError> {
    let before = b"struct Node{}procedure p(){\n";
    assert_eq!(rt; wrong_row(rt.alloc(), before, STATEMENTS, b"}")?, None);
    Ok(())
}

const RESERVED: &[&[u8]] = &[
    b"struct",
    b"Node",
    b"var",
    b"next",
    b"procedure",
    b"returns",
    b"requires",
    b"ensures",
    b"invariant",
    b"if",
    b"else",
    b"while",
    b"return",
    b"new",
    b"free",
    b"null",
    b"emp",
    b"acc",
    b"lseg",
];

// The first word that may name a procedure.
fn wrong_word(alloc: Global, words: &[&[u8]]) -> Result<Option<usize>, AllocError> {
    for (number, word) in words.iter().enumerate() {
        if answer_within(alloc, b"struct Node{}procedure ", word, b"();")? != Syntax(1, 24) {
            return Ok(Some(number));
        }
    }
    Ok(None)
}

#[test]
fn reserved_words(rt: HostRuntime) -> Result<(), AllocError> {
    assert_eq!(rt; wrong_word(rt.alloc(), RESERVED)?, None);
    Ok(())
}

// The answer where a procedure's name has so many letters.
fn answer_to_name(alloc: Global, count: usize) -> Result<Answer, AllocError> {
    let name = vec![in alloc; b'_'; count]?;
    answer_within(alloc, b"struct Node{}procedure ", name.as_slice(), b"();")
}

#[test]
fn long_names(rt: HostRuntime) -> Result<(), AllocError> {
    assert!(rt; answer_to_name(rt.alloc(), 64)? == Accepted);
    assert!(rt; answer_to_name(rt.alloc(), 65)? == Syntax(1, 24));
    Ok(())
}

// A text with brackets: how many are opened after what, what is inside, and how many are closed before what.
#[derive(Clone, Copy)]
struct Nested {
    before: &'static [u8],
    opened: usize,
    inside: &'static [u8],
    closed: usize,
    after: &'static [u8],
    wanted: Answer,
}

const DEPTHS: &[Nested] = &[
    Nested {
        before: b"struct Node{}procedure p(){if",
        opened: 63,
        inside: b"x==x",
        closed: 63,
        after: b"{}}",
        wanted: Accepted,
    },
    Nested {
        before: b"struct Node{}procedure p(){if",
        opened: 64,
        inside: b"",
        closed: 0,
        after: b"{}}",
        wanted: Deep(1, 93),
    },
    Nested {
        before: LINE,
        opened: 65,
        inside: b"",
        closed: 0,
        after: b"",
        wanted: Deep(2, 65),
    },
    Nested {
        before: b"",
        opened: 70,
        inside: b"@",
        closed: 0,
        after: b"",
        wanted: Byte(70),
    },
    Nested {
        before: b"))))",
        opened: 68,
        inside: b"",
        closed: 0,
        after: b"",
        wanted: Syntax(1, 1),
    },
];

// The brackets and what is inside.
fn inner(alloc: Global, nested: &Nested) -> Result<Vec<u8>, AllocError> {
    let mut text = vec![in alloc; b'('; nested.opened]?;
    text.extend_from_slice(nested.inside)?;
    for _bracket in 0..nested.closed {
        text.push(b')')?;
    }
    Ok(text)
}

// The first text that is answered otherwise.
fn wrong_depth(alloc: Global, all: &[Nested]) -> Result<Option<usize>, AllocError> {
    for (number, nested) in all.iter().enumerate() {
        let part = inner(alloc, nested)?;
        let found = answer_within(alloc, nested.before, part.as_slice(), nested.after)?;
        if found != nested.wanted {
            return Ok(Some(number));
        }
    }
    Ok(None)
}

#[test]
fn depth(rt: HostRuntime) -> Result<(), AllocError> {
    assert_eq!(rt; wrong_depth(rt.alloc(), DEPTHS)?, None);
    Ok(())
}

// What comes after the first word of a procedure, and how it is printed; None where it is refused.
type Tree = (&'static [u8], Option<&'static [u8]>);

const TREES: &[Tree] = &[
    (b"f ( ) { }", Some(b"f ( ) requires emp ensures emp { }")),
    (
        b"f()ensures x==y||emp&*&acc(x)||lseg(x,y);",
        Some(b"f ( ) requires emp ensures x == y || emp &*& acc ( x ) || lseg ( x , y ) ;"),
    ),
    (
        b"f(x:Node)returns(y:Node){var z:Node;if((x==z)){y:=x;}else{}return(x==z);}",
        None,
    ),
    (
        b"f()requires(x==y&*&emp)&*&lseg(x,y){x,y:=f(x.next);while(!(x==y)||(x==y&&y!=x))invariant emp{}}",
        Some(
            b"f ( ) requires ( x == y &*& emp ) &*& lseg ( x , y ) ensures emp { x , y := f ( x . next ) ; while ( ! ( x == y ) || ( x == y && y != x ) ) invariant emp { } }",
        ),
    ),
    (
        b"f();//)\nprocedure g(){if(x==null){free x;}else{x.next:=y;}}",
        Some(
            b"f ( ) requires emp ensures emp ; procedure g ( ) requires emp ensures emp { if ( x == null ) { free x ; } else { x . next := y ; } }",
        ),
    ),
];

const HEAD: &[u8] = b"struct Node{var next:Node;}procedure ";

// Whether a program is printed with these words after the first word of a procedure.
fn is_printed(alloc: Global, program: &Program, wanted: &[u8]) -> Result<bool, AllocError> {
    let mut line = Vec::from_slice(alloc, b"struct Node { var next : Node ; } procedure ")?;
    line.extend_from_slice(wanted)?;
    line.push(b'\n')?;
    let text = print(alloc, program)?;
    Ok(text.bytes() == line.as_slice())
}

fn is_tree(alloc: Global, tree: &Tree) -> Result<bool, AllocError> {
    match program(alloc, HEAD, tree.0, b"") {
        Ok(program) => match tree.1 {
            Some(wanted) => is_printed(alloc, &program, wanted),
            None => Ok(false),
        },
        Err(ParseError::OutOfMemory) => Err(AllocError),
        Err(_) => Ok(tree.1.is_none()),
    }
}

// The first tree that is answered otherwise.
fn wrong_tree(alloc: Global, trees: &[Tree]) -> Result<Option<usize>, AllocError> {
    for (number, tree) in trees.iter().enumerate() {
        if !is_tree(alloc, tree)? {
            return Ok(Some(number));
        }
    }
    Ok(None)
}

#[test]
fn trees(rt: HostRuntime) -> Result<(), AllocError> {
    assert_eq!(rt; wrong_tree(rt.alloc(), TREES)?, None);
    Ok(())
}
