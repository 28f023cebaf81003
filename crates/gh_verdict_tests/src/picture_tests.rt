// Pictures whose texts are written by hand.

ghost use Rattle.std.specs.Prelude.{◌<◌, length};

use gh_assert::heap::Heap;
use gh_assert::store::Store;
use gh_base::name::Name;
use gh_base::text::Text;
use gh_picture::picture::{STYLE, picture};
use gh_picture::scene::{Change, Role, Row, Scene};
use gh_trace::state::State;
use std::alloc::{AllocError, Global};

// A row with these variables and cells.
#[derive(Clone, Copy)]
struct Drawn {
    statement: &'static str,
    variables: &'static [(&'static str, u32)],
    cells: &'static [(u32, u32)],
    roles: &'static [Role],
    changes: &'static [Change],
}

fn text(alloc: Global, words: &str) -> Result<Text, AllocError> {
    let mut text = Text::new(alloc);
    text.push(words.as_bytes())?;
    Ok(text)
}

fn heap(alloc: Global, cells: &[(u32, u32)]) -> Result<Heap, AllocError> {
    let mut heap = Heap::new(alloc);
    for (at, to) in cells {
        if *at != 0 {
            heap.put(*at, *to)?;
        }
    }
    Ok(heap)
}

fn add(alloc: Global, store: &mut Store, name: &str, value: u32) -> Result<(), AllocError> {
    if let Some(name) = Name::new(alloc, name)? {
        if store.get(&name).is_none() {
            store.add(alloc, &name, value)?;
        }
    }
    Ok(())
}

fn store(alloc: Global, variables: &[(&'static str, u32)]) -> Result<Store, AllocError> {
    let mut store = Store::new(alloc);
    for (name, value) in variables {
        add(alloc, &mut store, name, *value)?;
    }
    Ok(store)
}

fn state(alloc: Global, drawn: Drawn) -> Result<State, AllocError> {
    Ok(State {
        store: store(alloc, drawn.variables)?,
        heap: heap(alloc, drawn.cells)?,
    })
}

fn row(alloc: Global, drawn: Drawn) -> Result<Row, AllocError> {
    Ok(Row {
        statement: text(alloc, drawn.statement)?,
        note: Text::new(alloc),
        state: state(alloc, drawn)?,
        roles: Vec::from_slice(alloc, drawn.roles)?,
        changes: Vec::from_slice(alloc, drawn.changes)?,
    })
}

// The picture of the rows under the title `T`.
fn pictured(alloc: Global, drawn: &[Drawn]) -> Result<Text, AllocError> {
    let mut rows = Vec::new(alloc);
    for each in drawn {
        rows.push(row(alloc, *each)?)?;
    }
    let title = text(alloc, "T")?;
    picture(alloc, &Scene { title, rows })
}

// How often the words stand in the picture of one row.
fn count(alloc: Global, drawn: Drawn, words: &str) -> Result<usize, AllocError>
    requires { 0 < length words.now }
{
    let text = pictured(alloc, &[drawn])?;
    let words = words.as_bytes();
    Ok(
        text.bytes()
            .windows(words.len())
            .filter(|here| **here == *words)
            .count(),
    )
}

// One cell that ends in null, and the variable that points to it.
const ONE: Drawn = Drawn {
    statement: "x = new",
    variables: &[("x", 3)],
    cells: &[(3, 0)],
    roles: &[Role::Changed],
    changes: &[Change::Changed],
};

const BEFORE_STYLE: &str =
    r#"<svg xmlns="http://www.w3.org/2000/svg" width="200" height="300" viewBox="0 0 200 300"><g><g class="style"><style>"#;

const AFTER_STYLE: &str =
    r#"</style></g><marker id="arrow" refX="6" refY="4" markerWidth="8" markerHeight="8" orient="auto"><path class="point" d="M1 1L7 4L1 7"></path></marker><g class="head"><text class="title" transform="translate(14 30)">T</text></g></g><g class="row" transform="translate(10 050)"><g class="caption"><path class="rule" d="M4 2h380"></path><text class="statement" transform="translate(14 20)">x = new</text><text class="note" transform="translate(14 38)"></text></g><g class="cell changed"><path class="box" d="M014 134h56v32h-56z"></path><text class="place" transform="translate(042 155)">3</text><text class="role" transform="translate(044 178)">changed</text><path class="null" d="M070 150h16v8m-8 0h16m-13 4h10m-7 4h4"></path><text class="end" transform="translate(096 154)"></text></g><g class="variable changed"><text class="name" transform="translate(042 130)">x</text></g></g></svg>"#;

fn whole_text(alloc: Global) -> Result<Text, AllocError> {
    let mut whole = text(alloc, BEFORE_STYLE)?;
    whole.push(STYLE)?;
    whole.push(AFTER_STYLE.as_bytes())?;
    Ok(whole)
}

#[test]
fn whole_picture(rt: HostRuntime) -> Result<(), AllocError> {
    let alloc = rt.alloc();
    let drawn = pictured(alloc, &[ONE])?;
    let whole = whole_text(alloc)?;
    assert!(rt; drawn.bytes() == whole.bytes());
    Ok(())
}

const MARKUP: Drawn = Drawn {
    statement: "a<b & \"c\" > \t~",
    variables: &[],
    cells: &[],
    roles: &[],
    changes: &[],
};

#[test]
fn escaped_text(rt: HostRuntime) -> Result<(), AllocError> {
    let alloc = rt.alloc();
    let escaped = ">a&lt;b &amp; &quot;c&quot; &gt; ?~</text>";
    assert!(rt; count(alloc, MARKUP, escaped)? == 1);
    assert!(rt; count(alloc, MARKUP, "class=\"cell")? == 0);
    Ok(())
}

// 8 leads to the cycle of 5, 6 and 7; 4 leads to a place without a cell, and 9 into the middle.
const CYCLE: Drawn = Drawn {
    statement: "free(y)",
    variables: &[("x", 8), ("y", 0), ("z", 2), ("u", 8)],
    cells: &[(4, 2), (5, 6), (6, 7), (7, 5), (8, 5), (9, 6)],
    roles: &[Role::Leaked, Role::Framed],
    changes: &[],
};

// Lines begin at 4, 8 and 9; 7 stands at the end of the second line, and 5 is second in it.
#[test]
fn cycle(rt: HostRuntime) -> Result<(), AllocError> {
    let alloc = rt.alloc();
    assert!(rt; count(alloc, CYCLE, "class=\"cell ")? == 6);
    assert!(rt; count(alloc, CYCLE, "class=\"cell owned")? == 4);
    assert!(rt; count(alloc, CYCLE, "d=\"M363 266C363 299 119 299 119 271\"")? == 1);
    assert!(rt; count(alloc, CYCLE, "d=\"M070 350C099 350 265 299 265 271\"")? == 1);
    assert!(rt;
        count(
            alloc,
            CYCLE,
            "d=\"M070 150h16\"></path><text class=\"end\" transform=\"translate(096 154)\">2<"
        )? == 1
    );
    Ok(())
}

// Two names stand above 8, and two variables point to no cell.
#[test]
fn names(rt: HostRuntime) -> Result<(), AllocError> {
    let alloc = rt.alloc();
    assert!(rt; count(alloc, CYCLE, "translate(042 230)\">x<")? == 1);
    assert!(rt; count(alloc, CYCLE, "translate(042 218)\">u<")? == 1);
    assert!(rt; count(alloc, CYCLE, "translate(014 066)\">y = null<")? == 1);
    assert!(rt; count(alloc, CYCLE, "translate(114 066)\">z = 2<")? == 1);
    Ok(())
}

const EMPTY: Drawn = Drawn {
    statement: "skip",
    variables: &[("x", 0)],
    cells: &[],
    roles: &[],
    changes: &[],
};

// A row without cells is one line high: the second row begins below it.
#[test]
fn empty_heap(rt: HostRuntime) -> Result<(), AllocError> {
    let alloc = rt.alloc();
    let text = pictured(alloc, &[EMPTY, EMPTY])?;
    assert!(rt; text.bytes().ends_with(b"</g></g></svg>"));
    assert!(rt; count(alloc, EMPTY, "height=\"200\"")? == 1);
    assert!(rt; count(alloc, EMPTY, "class=\"cell")? == 0);
    assert!(rt; count(alloc, EMPTY, "translate(014 066)\">x = null<")? == 1);
    Ok(())
}
