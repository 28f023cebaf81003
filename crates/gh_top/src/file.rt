//! Reading a file that the words name.

ghost use Rattle.std.specs.Prelude.{IfOk, ⊤};
ghost use Rattle.gh_base.specs.Reading.{told};
ghost use Rattle.gh_top.specs.Causes.{HasReadCause};
ghost use Rattle.gh_top.specs.Files.{IsFileRead};
ghost use Rattle.gh_top.specs.Reads.{ReadsFile};
ghost use Rattle.gh_top.specs.Seen.{reading};

use crate::report::Stop;
use gh_base::outside::Inputs;
use gh_base::reading::{InputError, read_input};
use gh_base::text::Text;
use std::alloc::Global;

/// What is known of a file, once it is read.
#[derive(Drop)]
pub enum FileText {
    Absent,
    TooLong,
    Whole(Text),
}

/// Reads a file, which may have at most `limit` bytes.
pub fn read_file<I: Inputs>(
    alloc: Global,
    inputs: &mut I,
    name: &str,
    limit: usize,
) -> Result<FileText, Stop>
    ensures read { IfOk result (IsFileRead (told (I.table inputs.old) name.now) limit) }
    ensures cause { HasReadCause ⊤ (reading I.Inputs inputs.old inputs.new) result }
    ensures file { ReadsFile name.now limit (reading I.Inputs inputs.old inputs.new) }
{
    match read_input(alloc, inputs, name, limit) {
        Ok(text) => Ok(FileText::Whole(text)),
        Err(InputError::TooLong) => Ok(FileText::TooLong),
        Err(InputError::Absent) => Ok(FileText::Absent),
        Err(InputError::ReadFault) => Err(Stop::ReadFault),
        Err(InputError::OutOfMemory) => Err(Stop::OutOfMemory),
    }
}
