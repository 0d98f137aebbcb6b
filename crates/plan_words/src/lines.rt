//! The lines of a plan.

ghost use Rattle.std.specs.Prelude.{◌≡◌, ◌≤◌, ◌+◌, length};
ghost use Rattle.plan_words.specs.Lines.{lines_of, without_return, is_skipped};

use crate::pieces::Pieces;

/// The lines of a plan's bytes: each ends with byte 0A, and the last may lack it.
///
/// What stands behind the last 0A is given too.
pub fn split_lines(bytes: &[u8]) -> Pieces<'_>
    ensures lines { result ≡ lines_of bytes.now }
    ensures few { length result ≤ length bytes.now + 1 }
{
    Pieces::new(b'\n', bytes)
}

/// A line without one byte 0D at its end.
pub fn trim_return(line: &[u8]) -> &[u8]
    ensures { result.now ≡ without_return line.now }
{
    let Some((&last, front)) = line.split_last() else {
        return line;
    };
    if last == b'\r' {
        return front;
    }
    line
}

/// Whether a line is skipped: it is empty, or its first byte is `#`.
pub fn is_comment(line: &[u8]) -> bool
    ensures { result ≡ is_skipped line.now }
{
    match line.split_first() {
        Some((&byte, _)) => byte == b'#',
        None => true,
    }
}
