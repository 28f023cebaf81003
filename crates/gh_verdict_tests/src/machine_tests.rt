// Runs of worked programs on the machine.

ghost use Rattle.std.specs.Prelude.{IfOk, IfSome};
ghost use Rattle.gh_ast.specs.Plain.{program_of};
ghost use Rattle.gh_machine.specs.Configs.{IsMadeFor};

use gh_assert::heap::Heap;
use gh_ast::typed::Typed;
use gh_machine::config::Config;
use gh_machine::step::{Choice, Next, step};
use gh_parse::parse::parse;
use gh_texts::{REUSE, SECOND};
use gh_types::check::check;
use gh_types::counts::MOST_BYTES;
use std::alloc::{AllocError, Global};

// A location, a content, and the values with which a called procedure's results and locals begin.
type Chosen<'a> = (u32, u32, &'a [u32]);

// A run of a program's first procedure: the values and the cells with which it starts, the choices of its steps, what
// the last step answers, and the values and the cells that then stand there.
#[derive(Clone, Copy)]
struct Run<'a> {
    text: &'a [u8],
    arguments: &'a [u32],
    starts: &'a [u32],
    cells: &'a [(u32, u32)],
    choices: &'a [Chosen<'a>],
    next: Next,
    values: &'a [u32],
    after: &'a [(u32, u32)],
}

// A heap of some cells.
fn heap_of(alloc: Global, cells: &[(u32, u32)]) -> Result<Heap, AllocError> {
    let mut heap = Heap::new(alloc);
    for cell in cells {
        if cell.0 != 0 {
            heap.put(cell.0, cell.1)?;
        }
    }
    Ok(heap)
}

// The first procedure at its start, if there are as many values as it wants.
fn started<'p>(alloc: Global, typed: &'p Typed, run: &Run) -> Result<Option<Config<'p>>, AllocError>
    ensures { IfOk result (λ o. IfSome o (λ c. IsMadeFor (program_of typed.now) c)) }
{
    let [first, ..] = typed.program().procedures.as_slice() else {
        return Ok(None);
    };
    let locals = match &first.body {
        Some(body) => body.locals.len(),
        None => 0,
    };
    if first.parameters.len() != run.arguments.len() {
        return Ok(None);
    }
    if first.results.len() + locals != run.starts.len() {
        return Ok(None);
    }
    let heap = heap_of(alloc, run.cells)?;
    let config = Config::start(alloc, typed, 0, run.arguments, run.starts, heap)?;
    Ok(Some(config))
}

// The last answer of some steps.
fn stepped<'p>(
    alloc: Global,
    typed: &'p Typed,
    config: &mut Config<'p>,
    choices: &[Chosen<'_>],
) -> Result<Next, AllocError>
    requires { IsMadeFor (program_of typed.now) config.old }
{
    let mut next = Next::Moved;
    for choice in choices {
        let choice = Choice {
            location: choice.0,
            content: choice.1,
            starts: Vec::from_slice(alloc, choice.2)?,
        };
        next = step(alloc, typed, config, &choice)?;
    }
    Ok(next)
}

// Whether the configuration has these values and cells.
fn stands(config: &Config, values: &[u32], cells: &[(u32, u32)]) -> bool {
    let entries = config.store().entries();
    let heap = config.heap().cells();
    entries.len() == values.len()
        && entries
            .iter()
            .zip(values)
            .all(|(entry, value)| entry.value == *value)
        && heap.len() == cells.len()
        && heap
            .iter()
            .zip(cells)
            .all(|(cell, other)| (cell.at, cell.to) == *other)
}

// Whether a run comes to what is said of it.
fn comes(alloc: Global, run: &Run) -> Result<bool, AllocError> {
    if run.text.len() > MOST_BYTES {
        return Ok(false);
    }
    let Ok(program) = parse(alloc, run.text) else {
        return Ok(false);
    };
    let Ok(typed) = check(alloc, program) else {
        return Ok(false);
    };
    match started(alloc, &typed, run)? {
        Some(mut config) => {
            let next = stepped(alloc, &typed, &mut config, run.choices)?;
            Ok(next == run.next && stands(&config, run.values, run.after))
        }
        None => Ok(false),
    }
}

// The first run that comes to something else.
fn wrong_run(alloc: Global, runs: &[Run<'_>]) -> Result<Option<usize>, AllocError> {
    for (number, run) in runs.iter().enumerate() {
        if !comes(alloc, run)? {
            return Ok(Some(number));
        }
    }
    Ok(None)
}

const ANY: Chosen<'static> = (9, 0, &[]);

const READ: Run<'static> = Run {
    text: SECOND,
    arguments: &[1],
    starts: &[7],
    cells: &[(1, 0)],
    choices: &[ANY],
    next: Next::Moved,
    values: &[1, 0],
    after: &[(1, 0)],
};

const ENDED: Run<'static> = Run {
    choices: &[ANY, ANY],
    next: Next::Ended,
    ..READ
};

const FREED: Run<'static> = Run {
    text: REUSE,
    arguments: &[1],
    starts: &[9],
    cells: &[(1, 0), (2, 3)],
    choices: &[ANY],
    next: Next::Moved,
    values: &[1, 9],
    after: &[(2, 3)],
};

const READS: &[Run<'static>] = &[
    READ,
    ENDED,
    // a further step changes nothing
    Run {
        choices: &[ANY, ANY, ANY],
        ..ENDED
    },
    Run {
        arguments: &[0],
        cells: &[],
        next: Next::Fault,
        values: &[0, 7],
        after: &[],
        ..READ
    },
    FREED,
    // null and an allocated place are no choices
    Run {
        choices: &[ANY, (0, 5, &[])],
        next: Next::NotAChoice,
        ..FREED
    },
    Run {
        choices: &[ANY, (2, 5, &[])],
        next: Next::NotAChoice,
        ..FREED
    },
    // the freed place comes back, after choices that were none
    Run {
        choices: &[ANY, (0, 5, &[]), (2, 5, &[]), (1, 5, &[])],
        values: &[1, 1],
        after: &[(1, 5), (2, 3)],
        ..FREED
    },
    // nothing is there to be freed
    Run {
        cells: &[(2, 3)],
        next: Next::Fault,
        ..FREED
    },
];

#[test]
fn a_read_and_a_freed_place(rt: HostRuntime) -> Result<(), AllocError> {
    assert!(rt; wrong_run(rt.alloc(), READS)? == None);
    Ok(())
}

const EACH: &[u8] = b"struct Node { var next: Node; }
procedure each(x: Node) returns (y: Node)
{
  var z: Node;
  y := new Node;
  y.next := x;
  z := y.next;
  if (z == null) { z := y; } else { free z; }
  while (z != null) { z := z.next; }
  return z;
}
";

const FRESH: Run<'static> = Run {
    text: EACH,
    arguments: &[0],
    starts: &[7, 8],
    cells: &[],
    choices: &[(4, 9, &[])],
    next: Next::Moved,
    values: &[0, 4, 8],
    after: &[(4, 9)],
};

const LIST: Run<'static> = Run {
    arguments: &[2],
    cells: &[(2, 3)],
    choices: &[(4, 9, &[]), ANY, ANY],
    values: &[2, 4, 2],
    after: &[(2, 3), (4, 2)],
    ..FRESH
};

const STATEMENTS: &[Run<'static>] = &[
    FRESH,
    // the write and the read
    Run {
        choices: &[(4, 9, &[]), ANY],
        after: &[(4, 0)],
        ..FRESH
    },
    Run {
        choices: &[(4, 9, &[]), ANY, ANY],
        values: &[0, 4, 0],
        after: &[(4, 0)],
        ..FRESH
    },
    // the first block
    Run {
        choices: &[(4, 9, &[]), ANY, ANY, ANY, ANY],
        values: &[0, 4, 4],
        after: &[(4, 0)],
        ..FRESH
    },
    // one turn of the loop
    Run {
        choices: &[(4, 9, &[]), ANY, ANY, ANY, ANY, ANY, ANY],
        values: &[0, 4, 0],
        after: &[(4, 0)],
        ..FRESH
    },
    // out of the loop, and the return
    Run {
        choices: &[(4, 9, &[]), ANY, ANY, ANY, ANY, ANY, ANY, ANY],
        values: &[0, 4, 0],
        after: &[(4, 0)],
        ..FRESH
    },
    Run {
        choices: &[(4, 9, &[]), ANY, ANY, ANY, ANY, ANY, ANY, ANY, ANY],
        next: Next::Ended,
        values: &[0, 0, 0],
        after: &[(4, 0)],
        ..FRESH
    },
    LIST,
    // the second block, into the loop, and a read of what was freed
    Run {
        choices: &[(4, 9, &[]), ANY, ANY, ANY],
        ..LIST
    },
    Run {
        choices: &[(4, 9, &[]), ANY, ANY, ANY, ANY],
        after: &[(4, 2)],
        ..LIST
    },
    Run {
        choices: &[(4, 9, &[]), ANY, ANY, ANY, ANY, ANY],
        after: &[(4, 2)],
        ..LIST
    },
    Run {
        choices: &[(4, 9, &[]), ANY, ANY, ANY, ANY, ANY, ANY],
        next: Next::Fault,
        after: &[(4, 2)],
        ..LIST
    },
];

#[test]
fn each_statement(rt: HostRuntime) -> Result<(), AllocError> {
    assert!(rt; wrong_run(rt.alloc(), STATEMENTS)? == None);
    Ok(())
}

const WRITE: &[u8] = b"struct Node { var next: Node; }
procedure write(x: Node, y: Node)
{ x.next := y.next; }
";

const BOTH: Run<'static> = Run {
    text: WRITE,
    arguments: &[1, 2],
    starts: &[],
    cells: &[(1, 5), (2, 6)],
    choices: &[ANY],
    next: Next::Moved,
    values: &[1, 2],
    after: &[(1, 6), (2, 6)],
};

const WRITES: &[Run<'static>] = &[
    BOTH,
    Run {
        cells: &[(1, 5)],
        next: Next::Fault,
        after: &[(1, 5)],
        ..BOTH
    },
    Run {
        cells: &[(2, 6)],
        next: Next::Fault,
        after: &[(2, 6)],
        ..BOTH
    },
    // both are the same place
    Run {
        arguments: &[1, 1],
        values: &[1, 1],
        after: &[(1, 5), (2, 6)],
        ..BOTH
    },
];

#[test]
fn a_write_with_a_read(rt: HostRuntime) -> Result<(), AllocError> {
    assert!(rt; wrong_run(rt.alloc(), WRITES)? == None);
    Ok(())
}

const AND: &[u8] = b"struct Node { var next: Node; }
procedure and(x: Node) returns (y: Node)
{ if (x != null && x.next == null) { y := x; } else { y := null; } }
";

const OR: &[u8] = b"struct Node { var next: Node; }
procedure or(x: Node) returns (y: Node)
{ if (x == null || x.next == null) { y := x; } else { y := x.next; } }
";

const NULL: Run<'static> = Run {
    text: AND,
    arguments: &[0],
    starts: &[7],
    cells: &[],
    choices: &[ANY, ANY],
    next: Next::Moved,
    values: &[0, 0],
    after: &[],
};

const ONE: Run<'static> = Run {
    arguments: &[1],
    cells: &[(1, 0)],
    values: &[1, 1],
    after: &[(1, 0)],
    ..NULL
};

const TWO: Run<'static> = Run {
    arguments: &[1],
    cells: &[(1, 2)],
    values: &[1, 0],
    after: &[(1, 2)],
    ..NULL
};

// the second test is read, and isn't allocated
const GONE: Run<'static> = Run {
    arguments: &[3],
    choices: &[ANY],
    next: Next::Fault,
    values: &[3, 7],
    ..NULL
};

const STOPS: &[Run<'static>] = &[
    NULL,
    ONE,
    TWO,
    GONE,
    Run { text: OR, ..NULL },
    Run { text: OR, ..ONE },
    Run {
        text: OR,
        values: &[1, 2],
        ..TWO
    },
    Run { text: OR, ..GONE },
];

#[test]
fn early_stops(rt: HostRuntime) -> Result<(), AllocError> {
    assert!(rt; wrong_run(rt.alloc(), STOPS)? == None);
    Ok(())
}

const OUTER: &[u8] = b"struct Node { var next: Node; }
procedure outer(x: Node) returns (r: Node)
{ r := middle(x.next); }
procedure middle(a: Node) returns (b: Node)
{ var z: Node; b := inner(a); b := b.next; }
procedure inner(c: Node) returns (d: Node)
{ d := c; }
";

const CALLED: Run<'static> = Run {
    text: OUTER,
    arguments: &[1],
    starts: &[7],
    cells: &[(1, 2), (2, 3)],
    choices: &[(0, 0, &[8, 9])],
    next: Next::Moved,
    values: &[2, 8, 9],
    after: &[(1, 2), (2, 3)],
};

const CALLS: &[Run<'static>] = &[
    CALLED,
    // not as many values as the results and locals
    Run {
        choices: &[(0, 0, &[8])],
        next: Next::NotAChoice,
        values: &[1, 7],
        ..CALLED
    },
    // an argument is read before that
    Run {
        arguments: &[4],
        choices: &[(0, 0, &[8])],
        next: Next::Fault,
        values: &[4, 7],
        ..CALLED
    },
    Run {
        choices: &[(0, 0, &[8, 9]), (0, 0, &[6])],
        values: &[2, 6],
        ..CALLED
    },
    // out of the inner call
    Run {
        choices: &[(0, 0, &[8, 9]), (0, 0, &[6]), ANY, ANY],
        values: &[2, 2, 9],
        ..CALLED
    },
    Run {
        choices: &[(0, 0, &[8, 9]), (0, 0, &[6]), ANY, ANY, ANY],
        values: &[2, 3, 9],
        ..CALLED
    },
    // out of the middle call, and the end
    Run {
        choices: &[(0, 0, &[8, 9]), (0, 0, &[6]), ANY, ANY, ANY, ANY],
        values: &[1, 3],
        ..CALLED
    },
    Run {
        choices: &[(0, 0, &[8, 9]), (0, 0, &[6]), ANY, ANY, ANY, ANY, ANY],
        next: Next::Ended,
        values: &[1, 3],
        ..CALLED
    },
];

#[test]
fn nested_calls(rt: HostRuntime) -> Result<(), AllocError> {
    assert!(rt; wrong_run(rt.alloc(), CALLS)? == None);
    Ok(())
}

const KEEP: &[u8] = b"struct Node { var next: Node; }
procedure outer(x: Node) returns (r: Node)
{ r := keep(x); }
procedure keep(x: Node) returns (y: Node)
{ }
";

const LAST: &[u8] = b"struct Node { var next: Node; }
procedure last(a: Node) returns (r: Node)
{ if (a.next == null) { return a; } else { r := last(a.next); } }
";

const KEPT: Run<'static> = Run {
    text: KEEP,
    arguments: &[1],
    starts: &[7],
    cells: &[],
    choices: &[(0, 0, &[42])],
    next: Next::Moved,
    values: &[1, 42],
    after: &[],
};

const FOUND: Run<'static> = Run {
    text: LAST,
    cells: &[(1, 2), (2, 3), (3, 0)],
    choices: &[ANY, (0, 0, &[8]), ANY, (0, 0, &[9]), ANY],
    values: &[3, 9],
    after: &[(1, 2), (2, 3), (3, 0)],
    ..KEPT
};

const RECURSIONS: &[Run<'static>] = &[
    // the callee begins with its result at any value, and falls off its end
    KEPT,
    Run {
        choices: &[(0, 0, &[42]), ANY],
        ..KEPT
    },
    Run {
        choices: &[(0, 0, &[42]), ANY, ANY],
        next: Next::Ended,
        ..KEPT
    },
    Run {
        choices: &[(0, 0, &[0]), ANY],
        values: &[1, 0],
        ..KEPT
    },
    // the third activation, its return, and the end of the second
    FOUND,
    Run {
        choices: &[ANY, (0, 0, &[8]), ANY, (0, 0, &[9]), ANY, ANY],
        values: &[2, 3],
        ..FOUND
    },
    Run {
        choices: &[ANY, (0, 0, &[8]), ANY, (0, 0, &[9]), ANY, ANY, ANY],
        values: &[1, 3],
        ..FOUND
    },
    Run {
        choices: &[ANY, (0, 0, &[8]), ANY, (0, 0, &[9]), ANY, ANY, ANY, ANY],
        next: Next::Ended,
        values: &[1, 3],
        ..FOUND
    },
];

#[test]
fn kept_values_and_recursion(rt: HostRuntime) -> Result<(), AllocError> {
    assert!(rt; wrong_run(rt.alloc(), RECURSIONS)? == None);
    Ok(())
}

const GIVE: &[u8] = b"struct Node { var next: Node; }
procedure give(x: Node, y: Node) returns (a: Node, b: Node)
{ return x.next, y.next; free x; }
";

const TURN: &[u8] = b"struct Node { var next: Node; }
procedure turn(x: Node, y: Node) returns (a: Node, b: Node)
{ a := x; b := y; return b, a; }
";

const SWAP: &[u8] = b"struct Node { var next: Node; }
procedure swap(x: Node, y: Node) returns (a: Node, b: Node)
{ b, a := pair(x, y); }
procedure pair(p: Node, q: Node) returns (m: Node, n: Node)
{ return p.next, q; }
";

const GIVEN: Run<'static> = Run {
    text: GIVE,
    arguments: &[1, 2],
    starts: &[5, 7],
    cells: &[(1, 3), (2, 4)],
    choices: &[ANY],
    next: Next::Ended,
    values: &[1, 2, 3, 4],
    after: &[(1, 3), (2, 4)],
};

const SWAPPED: Run<'static> = Run {
    text: SWAP,
    choices: &[(0, 0, &[8, 9])],
    next: Next::Moved,
    values: &[1, 2, 8, 9],
    ..GIVEN
};

const RETURNS: &[Run<'static>] = &[
    // what stands after a return isn't run
    GIVEN,
    Run {
        choices: &[ANY, ANY],
        ..GIVEN
    },
    // a read that isn't allocated, and no result is set
    Run {
        cells: &[(1, 3)],
        next: Next::Fault,
        values: &[1, 2, 5, 7],
        after: &[(1, 3)],
        ..GIVEN
    },
    // the results get their values all at once
    Run {
        text: TURN,
        choices: &[ANY, ANY, ANY],
        values: &[1, 2, 2, 1],
        ..GIVEN
    },
    SWAPPED,
    // a return above another activation sets the targets in the same step
    Run {
        choices: &[(0, 0, &[8, 9]), ANY],
        values: &[1, 2, 2, 3],
        ..SWAPPED
    },
    Run {
        choices: &[(0, 0, &[8, 9]), ANY, ANY],
        next: Next::Ended,
        values: &[1, 2, 2, 3],
        ..SWAPPED
    },
    // a fault of a return above another activation
    Run {
        cells: &[],
        choices: &[(0, 0, &[8, 9]), ANY],
        next: Next::Fault,
        after: &[],
        ..SWAPPED
    },
];

#[test]
fn returns(rt: HostRuntime) -> Result<(), AllocError> {
    assert!(rt; wrong_run(rt.alloc(), RETURNS)? == None);
    Ok(())
}
