//! Where the text that a request is about comes from, and which other file it names.

ghost use Rattle.std.specs.Prelude.{◌≡◌, MatchOption, Some, None};
ghost use Rattle.gh_ast.specs.Limits.{most_bytes};
ghost use Rattle.gh_top.specs.Sources.{IsSource, from_file, source_of, second_file};
ghost use Rattle.gh_top.specs.declared.words.Request.{Request};

use crate::recheck::MOST_LOGGED;
use crate::session::MOST_EDITED;
use crate::simulate::MOST_STATED;
use crate::words::{FileName, Request};
use gh_draw::reading::MOST_DRAWN;
use gh_types::counts::MOST_BYTES;

/// Where the text that a request is about comes from.
#[derive(Clone, Copy)]
pub enum Source<'r> {
    /// The file of a name, of which so many bytes are taken at most.
    File { name: &'r str, most: usize },

    /// The text that a number makes.
    Number { n: u8 },
}

// A file of the length of a program text.
fn text_file(file: &FileName) -> Source<'_>
    ensures { (r : Request) → source_of r ≡ from_file file.now most_bytes → IsSource result r }
{
    Source::File {
        name: file.as_str(),
        most: MOST_BYTES,
    }
}

impl Request {
    /// The first file of the request, or the number that makes its text.
    pub fn source(&self) -> Source<'_>
        ensures { IsSource result self.now }
    {
        match self {
            Request::Check { file } => text_file(file),
            Request::Log { file } => text_file(file),
            Request::Recheck { file, .. } => text_file(file),
            Request::Paths { file } => text_file(file),
            Request::Replay { file, .. } => text_file(file),
            Request::Smallest { file } => text_file(file),
            Request::Smt { file, .. } => text_file(file),
            Request::Run { file, .. } => text_file(file),
            Request::Entail { file } => text_file(file),
            Request::Stress { n } => Source::Number { n: *n },
            Request::Session { file } => Source::File {
                name: file.as_str(),
                most: MOST_EDITED,
            },
        }
    }

    /// The second file of the request, and how many bytes are taken of it at most.
    pub fn second_file(&self) -> Option<(&str, usize)>
        ensures { MatchOption result (second_file self.now ≡ None) (λ f. second_file self.now ≡ Some (f.0.now, f.1)) }
    {
        match self {
            Request::Recheck { log, .. } => Some((log.as_str(), MOST_LOGGED)),
            Request::Replay { drawing, .. } => Some((drawing.as_str(), MOST_DRAWN)),
            Request::Run { state, .. } => Some((state.as_str(), MOST_STATED)),
            _ => None,
        }
    }
}
