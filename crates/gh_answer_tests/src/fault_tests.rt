//! Calls that fail, and inputs and sinks that never fail.

use gh_base::memory::MemoryInputs;
use gh_base::sink::MemorySink;
use gh_base::steady_inputs::SteadyInputs;
use gh_base::steady_sink::SteadySink;
use gh_texts::{LOG, NOP};
use gh_top::run::run;
use gh_top::status::Status;
use gh_top::words::Words;
use std::alloc::{AllocError, Global};

const REPORT: &[u8] = b"verified: 1 of 1 valid\n";

// What `f` holds, how many bytes a read and a write move at most, which call of the inputs and of the sink fails, where
// call 0 is none, and the room of the sink.
#[derive(Clone, Copy)]
struct Outside {
    text: &'static [u8],
    read: usize,
    written: usize,
    input_call: u64,
    sink_call: u64,
    room: usize,
}

// The smallest program, moved byte by byte with no fault.
const NONE: Outside = Outside {
    text: NOP,
    read: 1,
    written: 1,
    input_call: 0,
    sink_call: 0,
    room: 23,
};

// How a run ended, and what it wrote.
#[derive(Drop)]
struct Ended {
    status: Status,
    written: Vec<u8>,
}

fn listed(alloc: Global, words: &[&str]) -> Result<Words, AllocError> {
    let mut all = Words::new(alloc);
    for word in words {
        all.push(alloc, word)?;
    }
    Ok(all)
}

// The program in `f`, and a log of the smallest one in `g`.
fn inputs_of(alloc: Global, outside: Outside) -> Result<MemoryInputs, AllocError> {
    if outside.read == 0 {
        return Err(AllocError);
    }
    let mut inputs = MemoryInputs::new(alloc, outside.read);
    inputs.add(alloc, "f", outside.text)?;
    inputs.add(alloc, "g", LOG)?;
    if outside.input_call > 0 {
        inputs.fail_at(outside.input_call)?;
    }
    Ok(inputs)
}

fn sink_of(alloc: Global, outside: Outside) -> Result<MemorySink, AllocError> {
    if outside.written == 0 {
        return Err(AllocError);
    }
    let mut out = MemorySink::new(alloc, outside.room, outside.written)?;
    if outside.sink_call > 0 {
        out.fail_at(outside.sink_call)?;
    }
    Ok(out)
}

fn answer(alloc: Global, words: &[&str], outside: Outside) -> Result<Ended, AllocError> {
    let words = listed(alloc, words)?;
    let mut inputs = inputs_of(alloc, outside)?;
    let mut out = sink_of(alloc, outside)?;
    let status = run(alloc, &words, &mut inputs, &mut out);
    let written = Vec::from_slice(alloc, out.bytes())?;
    Ok(Ended { status, written })
}

// Whether some words end like this, with so many bytes of the report written.
fn ends(
    alloc: Global,
    words: &[&str],
    outside: Outside,
    status: Status,
    count: usize,
) -> Result<bool, AllocError> {
    let found = answer(alloc, words, outside)?;
    Ok(found.status == status && REPORT.get(..count) == Some(found.written.as_slice()))
}

// The first call of the inputs, up to the last one, that fails with another answer.
fn wrong_input_call(alloc: Global, last: u64) -> Result<Option<u64>, AllocError> {
    for call in 1..=last {
        let outside = Outside {
            input_call: call,
            ..NONE
        };
        if !ends(alloc, &["check", "f"], outside, Status::ReadFault, 0)? {
            return Ok(Some(call));
        }
    }
    Ok(None)
}

// The first call of the sink, up to the last one, that fails with another answer.
fn wrong_sink_call(alloc: Global, last: usize) -> Result<Option<usize>, AllocError> {
    for call in 1..=last {
        let outside = Outside {
            sink_call: call as u64,
            ..NONE
        };
        if !ends(
            alloc,
            &["check", "f"],
            outside,
            Status::WriteFault,
            call - 1,
        )? {
            return Ok(Some(call));
        }
    }
    Ok(None)
}

// The first room below this one that gives another answer.
fn wrong_room(alloc: Global, end: usize) -> Result<Option<usize>, AllocError> {
    for room in 0..end {
        let outside = Outside { room, ..NONE };
        if !ends(alloc, &["check", "f"], outside, Status::WriteFault, room)? {
            return Ok(Some(room));
        }
    }
    Ok(None)
}

#[test]
fn each_call_fails_once(rt: HostRuntime) -> Result<(), AllocError> {
    let alloc = rt.alloc();
    assert!(rt; wrong_input_call(alloc, 83)? == None);
    assert!(rt; wrong_sink_call(alloc, 23)? == None);
    assert!(rt; wrong_room(alloc, 23)? == None);
    Ok(())
}

// What some words come to: how the run ends, and how many bytes of the report are written.
#[derive(Clone, Copy)]
struct Row {
    words: &'static [&'static str],
    outside: Outside,
    status: Status,
    count: usize,
}

const WHOLE: Row = Row {
    words: &["check", "f"],
    outside: NONE,
    status: Status::Verified,
    count: 23,
};

// Six reads of at most 16 bytes and three writes of at most 8.
const PIECES: Outside = Outside {
    read: 16,
    written: 8,
    room: 64,
    ..NONE
};

const ROWS: &[Row] = &[
    WHOLE,
    Row {
        outside: Outside {
            input_call: 1,
            ..PIECES
        },
        status: Status::ReadFault,
        count: 0,
        ..WHOLE
    },
    Row {
        outside: Outside {
            input_call: 8,
            ..PIECES
        },
        status: Status::ReadFault,
        count: 0,
        ..WHOLE
    },
    // the ninth call isn't made
    Row {
        outside: Outside {
            input_call: 9,
            ..PIECES
        },
        ..WHOLE
    },
    Row {
        outside: Outside {
            sink_call: 1,
            ..PIECES
        },
        status: Status::WriteFault,
        count: 0,
        ..WHOLE
    },
    Row {
        outside: Outside {
            sink_call: 2,
            ..PIECES
        },
        status: Status::WriteFault,
        count: 8,
        ..WHOLE
    },
    Row {
        outside: Outside { room: 8, ..PIECES },
        status: Status::WriteFault,
        count: 8,
        ..WHOLE
    },
    Row {
        outside: Outside { room: 23, ..PIECES },
        ..WHOLE
    },
    // a second file comes after the first, and its first call fails
    Row {
        words: &["recheck", "f", "g"],
        outside: Outside {
            input_call: 84,
            ..NONE
        },
        status: Status::ReadFault,
        count: 0,
    },
    // other words are answered too
    Row {
        words: &["check", "-f"],
        outside: Outside {
            sink_call: 1,
            ..NONE
        },
        status: Status::WriteFault,
        count: 0,
    },
];

// The first row that ends otherwise.
fn wrong_row(alloc: Global, rows: &[Row]) -> Result<Option<usize>, AllocError> {
    for (number, row) in rows.iter().enumerate() {
        if !ends(alloc, row.words, row.outside, row.status, row.count)? {
            return Ok(Some(number));
        }
    }
    Ok(None)
}

#[test]
fn pieces_second_files_and_other_words(rt: HostRuntime) -> Result<(), AllocError> {
    assert!(rt; wrong_row(rt.alloc(), ROWS)? == None);
    Ok(())
}

// A refused program of 16 bytes, after which the call that would begin a second file fails.
const REFUSED: Outside = Outside {
    text: b"struct Node { }\n",
    input_call: 19,
    room: 64,
    ..NONE
};

// Whether a mode refuses the program, and never begins the second file.
fn is_left(alloc: Global, mode: &str) -> Result<bool, AllocError> {
    Ok(answer(alloc, &[mode, "f", "g"], REFUSED)?.status == Status::TextRefused)
}

#[test]
fn second_files_come_last(rt: HostRuntime) -> Result<(), AllocError> {
    assert!(rt; is_left(rt.alloc(), "recheck")?);
    assert!(rt; is_left(rt.alloc(), "replay")?);
    Ok(())
}

// How `check` ends over inputs that hold the smallest program and never fail, and how much is written.
fn steadily(alloc: Global, name: &str) -> Result<(Status, u64), AllocError> {
    let words = listed(alloc, &["check", name])?;
    let mut inputs = SteadyInputs::new(alloc);
    inputs.add(alloc, "f", NOP)?;
    let mut out = SteadySink::new();
    let status = run(alloc, &words, &mut inputs, &mut out);
    Ok((status, out.taken()))
}

#[test]
fn nothing_fails(rt: HostRuntime) -> Result<(), AllocError> {
    let alloc = rt.alloc();
    assert!(rt; steadily(alloc, "f")? == (Status::Verified, 23));
    assert!(rt; steadily(alloc, "g")? == (Status::TextRefused, 16));
    Ok(())
}
