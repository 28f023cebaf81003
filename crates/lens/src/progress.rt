// Progress on standard error.

use gh_lens::progress::Progress;

/// Writes a line on the standard error of a runtime for each condition that is settled. A line that can't
/// be written is left out.
#[derive(Drop)]
pub(crate) struct Counter<'r, R: Eprint> {
    pub(crate) rt: &'r R,
}

impl<R: Eprint> Progress for Counter<'_, R> {
    fn settled(&mut self, done: u32, count: u32) {
        let rt = self.rt;
        let _ = eprintln!(rt; "{done} of {count} conditions are settled");
    }
}
