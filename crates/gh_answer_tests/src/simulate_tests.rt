//! What `run` answers for worked programs and state files.

use crate::answers::{Case, wrong_case};
use gh_texts::{DROP, REVERSE, SECOND};
use gh_top::status::Status;
use std::alloc::AllocError;

const ALLOCATED: &[u8] = b"procedure second\nstore x=1 y=7\nheap 1->0 5->5\nend\n";

const CASES: &[Case<'static>] = &[
    Case {
        words: &["run", "row", "text", "5"],
        text: ALLOCATED,
        row: SECOND,
        status: Status::Ran,
        written: b"ended after 1 steps: postcondition holds\nstore x=1 y=0\nheap 1->0 5->5\n",
    },
    Case {
        words: &["run", "row", "text", "5"],
        text: b"procedure second\nstore x=0 y=0\nheap\nend\n",
        row: SECOND,
        status: Status::Refuted,
        written: b"fault after 0 steps\nstore x=0 y=0\nheap\n",
    },
    Case {
        words: &["run", "row", "text", "5"],
        text: b"procedure second\nstore x=1 y=0\nheap\nend\n",
        row: SECOND,
        status: Status::Unmet,
        written: b"precondition fails\n",
    },
    Case {
        words: &["run", "row", "text", "1"],
        text: ALLOCATED,
        row: SECOND,
        status: Status::Stopped,
        written: b"stopped after 1 steps\nstore x=1 y=0\nheap 1->0 5->5\n",
    },
    Case {
        words: &["run", "row", "text", "5"],
        text: b"procedure drop\nstore x=1 y=0\nheap 1->2 2->0\nend\n",
        row: DROP,
        status: Status::Refuted,
        written: b"ended after 1 steps: postcondition fails\nstore x=1 y=2\nheap 1->2 2->0\n",
    },
    Case {
        words: &["run", "row", "text", "1"],
        text: b"procedure reverse\nstore x=0 y=0 c=9 t=9\nheap\nend\n",
        row: REVERSE,
        status: Status::Stopped,
        written: b"stopped after 1 steps\nstore x=0 y=0 c=0 t=9\nheap\n",
    },
    Case {
        words: &["run", "row", "text", "5"],
        text: b"procedure second\nstore x=1\nheap 1->0\nend\n",
        row: SECOND,
        status: Status::LogRefused,
        written: b"refused: state line 2\n",
    },
    Case {
        words: &["run", "row", "text", "1000001"],
        text: ALLOCATED,
        row: SECOND,
        status: Status::Usage,
        written: b"refused: usage\n",
    },
];

#[test]
fn runs_from_states(rt: HostRuntime) -> Result<(), AllocError> {
    assert!(rt; wrong_case(rt.alloc(), CASES)? == None);
    Ok(())
}
