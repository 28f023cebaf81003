// Texts that give no program with conditions.

ghost use Rattle.std.specs.Prelude.{◌≡◌, IfOk};
ghost use Rattle.gh_page.specs.Fronts.{IsRefusalReply};

use crate::reply::Reply;
use gh_base::text::Text;
use gh_lens::front::{FrontError, refusal};
use gh_top::status::Status;
use std::alloc::{AllocError, Global};

/// Why a text is refused, in the words of `lens`.
pub(crate) fn refused(alloc: Global, error: &FrontError) -> Result<Reply, AllocError>
    ensures { IfOk result (IsRefusalReply error.now) }
{
    let cause = refusal(alloc, error)?;
    let mut text = Text::new(alloc);
    text.push(cause.as_bytes())?;
    Ok(Reply::about(Status::TextRefused, text))
}
