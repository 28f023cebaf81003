//! Drawings that are read and written.

ghost use Rattle.std.specs.Prelude.{◌<◌, ◌^◌, ◌-◌, length};

use gh_draw::drawing::draw;
use gh_draw::reading::read_drawing;
use gh_parse::parse::parse;
use gh_path::listing::conditions;
use gh_texts::{DROP, DROPPED};
use gh_types::check::check;
use std::alloc::{AllocError, Global};

// Cells and values of ten digits, after lines that are skipped.
const WIDE: &[u8] = b"drawing of a list

drawing
condition 1
state 0
store x=4294967295 y=10
heap 7->0 4294967295->7
end
";

const WIDE_DRAWN: &[u8] = b"drawing
condition 1
state 0
store x=4294967295 y=10
heap 7->0 4294967295->7
end
";

// Whether the drawing that a file has is written as this text.
fn reads_back(alloc: Global, text: &[u8], file: &[u8], written: &[u8]) -> Result<bool, AllocError>
    requires { length text.now < 2 ^ 32 - 1 }
{
    let Ok(program) = parse(alloc, text) else {
        return Ok(false);
    };
    let Ok(typed) = check(alloc, program) else {
        return Ok(false);
    };
    let Ok(conditions) = conditions(alloc, &typed) else {
        return Ok(false);
    };
    let Some(drawing) = read_drawing(alloc, &typed, &conditions, file)? else {
        return Ok(false);
    };
    Ok(draw(alloc, &drawing)?.bytes() == written)
}

#[test]
fn drawings_read_back(rt: HostRuntime) -> Result<(), AllocError> {
    assert!(rt; reads_back(rt.alloc(), DROP, DROPPED, DROPPED)?);
    assert!(rt; reads_back(rt.alloc(), DROP, WIDE, WIDE_DRAWN)?);
    Ok(())
}
