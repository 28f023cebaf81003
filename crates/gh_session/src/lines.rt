//! The lines of a session file.

ghost use Rattle.std.specs.Prelude.{◌≡◌, ◌∷◌, ◌-◌, ◌<◌, ◌≤◌, ◌^◌, length, take, drop};
ghost use Rattle.gh_session.specs.Lines.{lines};
ghost use Rattle.gh_session.specs.Parts.{IsFirstPart};

/// The first lines of a text, none of which begins with `%`, what comes after them, and how many they
/// are.
#[derive(Clone, Copy)]
pub struct Part<'t> {
    pub text: &'t [u8],
    pub rest: &'t [u8],
    pub lines: u32,
}

/// Where the first line of a text ends, its line feed included.
pub fn line_end(text: &[u8]) -> usize
    requires { 1 ≤ length text.now }
    ensures some { 1 ≤ result }
    ensures within { result ≤ length text.now }
    ensures first { lines text.now ≡ take result text.now ∷ lines (drop result text.now) }
{
    for (i, byte) in text.iter().enumerate() {
        if *byte == b'\n' {
            return i + 1;
        }
    }
    text.len()
}

/// The lines of a text before the first that begins with `%`.
pub fn first_part(text: &[u8]) -> Part<'_>
    requires { length text.now < 2 ^ 32 - 1 }
    ensures { IsFirstPart text.now result }
{
    let mut end = 0;
    let mut lines = 0;
    while end < text.len() && text[end] != b'%' {
        end += line_end(&text[end..]);
        lines += 1;
    }
    Part {
        text: &text[..end],
        rest: &text[end..],
        lines,
    }
}
