//! Steps under the rule of choice, and how far they lead.

ghost use Rattle.std.specs.Prelude.{◌+◌, ◌≤◌, ◌<◌, IfOk};
ghost use Rattle.std.specs.FinMap.{len};
ghost use Rattle.gh_ast.specs.Plain.{program_of};
ghost use Rattle.gh_machine.specs.Configs.{config_of, IsMadeFor};
ghost use Rattle.gh_run.specs.Halts.{LeadsRuled, HaltsRuled};

use crate::free::least_free;
use gh_ast::typed::Typed;
use gh_machine::config::Config;
use gh_machine::step::{Choice, Next, step};
use std::alloc::{AllocError, Global};

/// Why no more steps are made.
#[derive(Clone, Copy, Debug, PartialEq, Eq)]
pub enum Halt {
    /// As many were made as were asked for.
    Stopped,
    /// A place that isn't allocated would be read, written or freed.
    Faulted,
    /// The run has ended.
    Ended,
}

/// Makes one step under the rule: a new cell stands at the least free place and contains 0, and a
/// callee's results and locals begin with 0.
fn ruled_step<'p>(
    alloc: Global,
    typed: &'p Typed,
    config: &mut Config<'p>,
) -> Result<Next, AllocError>
    requires made { IsMadeFor (program_of typed.now) config.old }
    requires room { len (config_of config.old).heap < 4294967295 }
    ensures next { IfOk result (LeadsRuled (program_of typed.now) config.old config.new) }
    ensures made { IsMadeFor (program_of typed.now) config.new }
    ensures room { IfOk result (λ next. len (config_of config.new).heap ≤ len (config_of config.old).heap + 1) }
{
    let wanted = config.starts_wanted(typed) as usize;
    let choice = Choice {
        location: least_free(config.heap()),
        content: 0,
        starts: vec![in alloc; 0; wanted]?,
    };
    step(alloc, typed, config, &choice)
}

/// Makes steps under the rule, at most `limit` besides a last return, and answers how many and why no
/// more.
pub fn run_ruled<'p>(
    alloc: Global,
    typed: &'p Typed,
    config: &mut Config<'p>,
    limit: u32,
) -> Result<(u32, Halt), AllocError>
    requires made { IsMadeFor (program_of typed.now) config.old }
    requires room { len (config_of config.old).heap + limit ≤ 4294967295 }
    ensures halted { IfOk result (HaltsRuled (program_of typed.now) config.old limit config.new) }
    ensures made { IsMadeFor (program_of typed.now) config.new }
{
    for steps in 0..limit {
        match ruled_step(alloc, typed, config)? {
            Next::Moved => {}
            Next::Fault => return Ok((steps, Halt::Faulted)),
            Next::Ended => return Ok((steps, Halt::Ended)),
            Next::NotAChoice => unreachable!(),
        }
    }
    Ok((limit, Halt::Stopped))
}
