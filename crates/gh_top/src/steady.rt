//! Runs over an outside that never fails.

ghost use Rattle.std.specs.Prelude.{Some};
ghost use Rattle.gh_base.specs.Files.{table_in};
ghost use Rattle.gh_top.specs.Headline.{IsWrittenWholeOrOutOfMemory};
ghost use Rattle.gh_top.specs.Seen.{silent};

use crate::run::run;
use crate::status::Status;
use crate::words::Words;
use gh_base::steady_inputs::SteadyInputs;
use gh_base::steady_sink::SteadySink;
use std::alloc::Global;

/// `run` where no fault comes: the status is that of an answer, or memory runs out. What the sink took isn't told.
pub fn steady_run(
    alloc: Global,
    words: &Words,
    inputs: &mut SteadyInputs,
    out: &mut SteadySink,
) -> Status
    ensures { IsWrittenWholeOrOutOfMemory (Some (table_in inputs.old.files)) words.now silent result }
{
    run(alloc, words, inputs, out)
}
