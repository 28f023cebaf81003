//! Drawing files that are replayed.

use crate::answers::{Case, Table, wrong_case, wrong_table};
use gh_texts::{DROP, DROPPED, OUTER, REUSE};
use gh_top::status::Status;
use std::alloc::AllocError;

const NO_CELL: &[u8] = b"drawing
condition 2
state 0
store x=1 y=0
heap 1->0
state 1
store x=1 y=0
heap 1->0
state 2
store x=1 y=0
heap
end
";

const NO_STATE: &[u8] = b"drawing
condition 2
state 0
store x=1 y=0
heap 1->0
state 1
store x=1 y=0
heap 1->0
end
";

const OUTER_DRAWING: &[u8] = b"drawing
condition 3
state 0
store x=1 n=2 r=0
heap 1->2 2->0
state 1
store x=1 n=2 r=0
heap 1->2
end
";

const REUSE_DRAWING: &[u8] = b"drawing
condition 2
state 0
store x=1 y=0
heap 1->0
state 1
store x=1 y=0
heap 1->0
state 2
store x=1 y=0
heap
state 3
store x=1 y=1
heap 1->0
end
";

const OF_DROP: Case<'static> = Case {
    words: &["replay", "text", "row"],
    text: DROP,
    row: DROPPED,
    status: Status::Refuted,
    written: b"replayed: condition 2 of 2 is refuted\n",
};

const REPLAYED: &[Case<'static>] = &[
    OF_DROP,
    Case {
        text: OUTER,
        row: OUTER_DRAWING,
        written: b"replayed: condition 3 of 3 is refuted\n",
        ..OF_DROP
    },
    Case {
        text: REUSE,
        row: REUSE_DRAWING,
        ..OF_DROP
    },
];

#[test]
fn replayed_drawings(rt: HostRuntime) -> Result<(), AllocError> {
    assert!(rt; wrong_case(rt.alloc(), REPLAYED)? == None);
    Ok(())
}

// What comes after the first line of files that have no drawing: one thing is wrong in each.
const DAMAGED: Table<'static> = Table {
    words: &["replay", "text", "row"],
    text: DROP,
    head: b"drawing\n",
    status: Status::LogRefused,
    before: b"refused: drawing",
    after: b"\n",
    rows: &[
        (b"", b""),
        (b"condition 0\nstate 0\nstore x=1 y=0\nheap\nend\n", b""),
        (b"condition 3\nstate 0\nstore x=1 y=0\nheap\nend\n", b""),
        (b"condition 01\nstate 0\nstore x=1 y=0\nheap\nend\n", b""),
        (b"condition 1\nend\n", b""),
        (b"condition 1\nstate 1\nstore x=1 y=0\nheap\nend\n", b""),
        (b"condition 1\nstate 0\nstore y=0 x=1\nheap\nend\n", b""),
        (b"condition 1\nstate 0\nstore x=1\nheap\nend\n", b""),
        (
            b"condition 1\nstate 0\nstore x=1 y=4294967296\nheap\nend\n",
            b"",
        ),
        (
            b"condition 1\nstate 0\nstore x=1 y=0\nheap 2->0 1->0\nend\n",
            b"",
        ),
        (
            b"condition 1\nstate 0\nstore x=1 y=0\nheap 1->0 1->0\nend\n",
            b"",
        ),
        (
            b"condition 1\nstate 0\nstore x=1 y=0\nheap 0->1\nend\n",
            b"",
        ),
        (b"condition 1\nstate 0\nstore x=1 y=0\nheap\nend", b""),
        (b"condition 1\nstate 0\nstore x=1 y=0\nheap\nend\n\n", b""),
    ],
};

const HEAD_DAMAGED: &[u8] = b"drawing \ncondition 1\nstate 0\nstore x=1 y=0\nheap\nend\n";

// Files without a drawing, and with one that fails at a step.
const OTHERS: Table<'static> = Table {
    head: b"",
    rows: &[
        (b"", b""),
        (HEAD_DAMAGED, b""),
        (NO_CELL, b" step 2"),
        (NO_STATE, b" step 2"),
    ],
    ..DAMAGED
};

const TABLES: &[Table] = &[DAMAGED, OTHERS];

#[test]
fn damaged_drawings(rt: HostRuntime) -> Result<(), AllocError> {
    assert!(rt; wrong_table(rt.alloc(), TABLES)? == None);
    Ok(())
}
