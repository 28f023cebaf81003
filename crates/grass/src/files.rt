//! Files as inputs.

ghost use Rattle.std.specs.Prelude.{◌≡◌, None, is_some};

use gh_base::outside::{Failed, Inputs};
use std::fs;
use std::io::{ErrorKind, Read};
use std::rt::Files;

/// Files by their names, of which one at a time is read. Nothing is told of what they hold.
#[derive(Drop)]
pub struct FileInputs<'r, R: Files> {
    rt: &'r R,
    file: Option<R::File>,
    faults: u64,
}

impl<'r, R: Files> FileInputs<'r, R> {
    /// No file is begun.
    pub fn new(rt: &'r R) -> Self
        ensures begun { result.file ≡ None }
        ensures faults { result.faults ≡ 0 }
    {
        FileInputs {
            rt,
            file: None,
            faults: 0,
        }
    }
}

impl<R: Files> Inputs for FileInputs<'_, R> {
    ghost table = { λ _. None };

    ghost left = { λ _. None };

    ghost begun = { λ f. is_some f.file };

    ghost faults = { λ f. f.faults };

    ghost calls = { λ _. None };

    ghost names = { λ _. None };

    fn begin(&mut self, name: &str) -> Result<bool, Failed> {
        self.file = None;
        match fs::open(self.rt, name) {
            Ok(file) => {
                self.file = Some(file);
                Ok(true)
            }
            Err(error) if error.kind() == ErrorKind::NotFound => Ok(false),
            Err(_) => {
                self.faults = self.faults.saturating_add(1);
                Err(Failed)
            }
        }
    }

    fn read(&mut self, into: &mut [u8]) -> Result<usize, Failed> {
        let Some(file) = &mut self.file else {
            return Ok(0);
        };
        match file.read(into) {
            Ok(count) => Ok(count),
            Err(_) => {
                self.faults = self.faults.saturating_add(1);
                Err(Failed)
            }
        }
    }
}
