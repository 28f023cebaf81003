// Reading a whole input.

ghost use Rattle.std.specs.Prelude.{◌≡◌, ◌≤◌, length, IfOk};
ghost use Rattle.gh_base.specs.Outside.{MakesAtMost, AddsName};
ghost use Rattle.gh_base.specs.Reading.{told, IsWhole, IsRefused, IsCalm, HasBegun, ReadsTo, calls_of};
ghost use Rattle.gh_base.specs.declared.reading.InputError.TheVariants.{ReadFault, OutOfMemory};

use crate::outside::{Failed, Inputs};
use crate::text::Text;
use std::alloc::{AllocError, Global};
use thiserror::Error;

/// Why an input wasn't read.
#[derive(Debug, Drop, Error)]
pub enum InputError {
    #[error("the input failed")]
    ReadFault,
    #[error("the input is too long")]
    TooLong,
    #[error("there is no such input")]
    Absent,
    #[error("out of memory")]
    OutOfMemory,
}

impl From<Failed> for InputError {
    ghost from_gives = { λ _ e. e ≡ ReadFault };

    fn from(_: Failed) -> Self {
        InputError::ReadFault
    }
}

impl From<AllocError> for InputError {
    ghost from_gives = { λ _ e. e ≡ OutOfMemory };

    fn from(_: AllocError) -> Self {
        InputError::OutOfMemory
    }
}

/// Reads all bytes of the input of a name. An input of more than `limit` bytes is refused.
pub fn read_input<I: Inputs>(
    alloc: Global,
    inputs: &mut I,
    name: &str,
    limit: usize,
) -> Result<Text, InputError>
    ensures ok { IfOk result (λ text. (length text ≤ limit) × IsWhole (told (I.table inputs.old) name.now) text) }
    ensures refused { IsRefused (I.table inputs.old) name.now limit (I.faults inputs.old) (I.faults inputs.new) result }
    ensures calm { IsCalm (I.faults inputs.old) (I.faults inputs.new) result }
    ensures begun { HasBegun result (I.begun inputs.new) }
    ensures reads { ReadsTo (told (I.table inputs.old) name.now) limit result (I.left inputs.new) }
    ensures table { I.table inputs.new ≡ I.table inputs.old }
    ensures later { I.faults inputs.old ≤ I.faults inputs.new }
    ensures few { MakesAtMost (calls_of (I.table inputs.old) name.now limit) (I.calls inputs.old) (I.calls inputs.new) }
    ensures named { AddsName (I.names inputs.old) (I.names inputs.new) name.now }
{
    if !inputs.begin(name)? {
        return Err(InputError::Absent);
    }
    let mut text = Text::new(alloc);
    let mut buffer = [0u8; 4096];
    loop {
        let wanted = (limit - text.bytes().len()).min(4095) + 1;
        let count = inputs.read(&mut buffer[..wanted])?;
        if count == 0 {
            return Ok(text);
        }
        text.push(&buffer[..count])?;
        if text.bytes().len() > limit {
            return Err(InputError::TooLong);
        }
    }
}
