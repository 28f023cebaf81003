//! Replies, and how they are handed out.

ghost use Rattle.std.specs.Prelude.{◌≡◌, length};
ghost use Rattle.gh_page.specs.Replies.{IsHandedOn, IsHandedOut};
ghost use Rattle.gh_top.specs.Statuses.{number_of};

use gh_base::text::Text;
use gh_top::status::Status;
use std::alloc::AllocError;

/// What is replied: a status of the program `grass`, how many conditions the program has where they are listed, and a
/// text.
#[derive(Debug, Drop)]
pub struct Reply {
    pub(crate) status: Status,
    pub(crate) count: u32,
    pub(crate) text: Text,
}

/// How a call ended: the number of a status, how many conditions the program has where they are listed, and the length
/// of the reply. The status is 6 where the reply doesn't fit, and 7 where memory runs out.
#[repr(C)]
#[derive(Drop)]
pub struct Ended {
    pub status: u32,
    pub count: u32,
    pub length: usize,
}

impl Reply {
    /// A status with a text, and no count.
    pub(crate) fn about(status: Status, text: Text) -> Reply
        ensures status { result.status ≡ status }
        ensures text { result.text ≡ text }
    {
        Reply {
            status,
            count: 0,
            text,
        }
    }

    // How a call ended whose reply was written.
    fn ended(&self, status: Status) -> Ended
        ensures status { result.status ≡ number_of status }
        ensures count { result.count ≡ self.now.count }
        ensures length { result.length ≡ length self.now.text }
    {
        Ended {
            status: status.number() as u32,
            count: self.count,
            length: self.text.bytes().len(),
        }
    }
}

// Writes a reply at the front of a slice, if it fits.
fn hand_on(reply: &Reply, into: &mut [u8]) -> Ended
    ensures { IsHandedOn reply.now result into.new }
{
    let text = reply.text.bytes();
    if into.len() < text.len() {
        return reply.ended(Status::WriteFault);
    }
    into[..text.len()].copy_from_slice(text);
    reply.ended(reply.status)
}

/// Writes what is replied at the front of a slice, if there is a reply and it fits.
pub(crate) fn hand_out(reply: &Result<Reply, AllocError>, into: &mut [u8]) -> Ended
    ensures { IsHandedOut reply.now result into.new }
{
    match reply {
        Ok(reply) => hand_on(reply, into),
        Err(_) => Ended {
            status: Status::OutOfMemory.number() as u32,
            count: 0,
            length: 0,
        },
    }
}
