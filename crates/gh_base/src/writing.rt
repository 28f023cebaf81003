// Writing a whole text.

ghost use Rattle.std.specs.Prelude.{◌≡◌, true, length, OnOk, OnErr};
ghost use Rattle.std.specs.Io.KnownBytes.{Appends};
ghost use Rattle.gh_base.specs.Outside.{HasCause, AppendsFront, MakesAtMost, CutsShort};

use crate::outside::{Failed, Sink};

/// Writes all of a text. Where the sink fails, a front of the text was written.
pub fn write_all<S: Sink>(out: &mut S, text: &[u8]) -> Result<(), Failed>
    ensures ok { OnOk result (Appends (S.written out.old) (S.written out.new) text.now) }
    ensures few { OnOk result (MakesAtMost (length text.now) (S.calls out.old) (S.calls out.new)) }
    ensures failed { OnErr result (AppendsFront (S.written out.old) (S.written out.new) text.now) }
    ensures turns { CutsShort result (S.written out.old) (S.written out.new) (S.calls out.old) (S.calls out.new) text.now }
    ensures last { OnErr result (S.failed out.new ≡ true) }
    ensures cause { HasCause (S.faults out.old) (S.faults out.new) result }
{
    let mut done = 0;
    while done < text.len() {
        done += out.write(&text[done..])?;
    }
    Ok(())
}
