// Texts that are questions, and texts that are refused.
use crate::answer::{Answer, refused};
use Answer::{Accepted, Byte, Syntax};
use gh_parse::parse::parse_question;
use std::alloc::{AllocError, Global};

fn answer_to(alloc: Global, text: &[u8]) -> Result<Answer, AllocError> {
    if text.len() >= 2_000 {
        return Err(AllocError);
    }
    match parse_question(alloc, text) {
        Ok(_) => Ok(Accepted),
        Err(error) => refused(error),
    }
}

const QUESTIONS: &[(&[u8], Answer)] = &[
    (b"requires{emp}ensures{emp}", Accepted),
    (
        b"var x,y:Node;requires{lseg(x,y)}||!({x==y}&&{emp})ensures!{acc(x)}",
        Accepted,
    ),
    (b"requires(({emp}))ensures{emp&*&emp}", Accepted),
    (b"", Syntax(1, 1)),
    (b"requires{emp}", Syntax(1, 14)),
    (b"var x:Node;ensures{emp}", Syntax(1, 12)),
    (b"requires{emp}ensures{emp};", Syntax(1, 26)),
    (b"requires!!{emp}ensures{emp}", Syntax(1, 10)),
    (b"requires({emp}ensures{emp}", Syntax(1, 15)),
    (b"requires emp ensures emp", Syntax(1, 10)),
    (b"requires{emp}&&ensures{emp}", Syntax(1, 16)),
    (b"@", Byte(0)),
];

// The first text that is answered otherwise.
fn wrong_row(alloc: Global, rows: &[(&[u8], Answer)]) -> Result<Option<usize>, AllocError> {
    for (number, (text, wanted)) in rows.iter().enumerate() {
        if answer_to(alloc, text)? != *wanted {
            return Ok(Some(number));
        }
    }
    Ok(None)
}

#[test]
fn questions(rt: HostRuntime) -> Result<(), AllocError> {
    assert_eq!(rt; wrong_row(rt.alloc(), QUESTIONS)?, None);
    Ok(())
}
