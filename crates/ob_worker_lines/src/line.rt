//! The first line of what is left of a script.

ghost use Rattle.std.specs.Prelude.{◌≡◌, ◌≢◌, ◌<◌, ◌∷◌, [], List, length, IfSome, IfNone};
ghost use Rattle.ob_lines.specs.Lines.{lines_of};
ghost use Rattle.ob_worker_lines.specs.Parts.{IsSeatLineBefore};
ghost use Rattle.ob_worker_lines.specs.Cuts.{Lines, IsStopped};

use crate::form::seat_form_of;
use ob_lines::first_line;

// The bytes after the first line, where this is a line of a seat.
pub fn behind_seat_line(bytes: &[u8]) -> Option<&[u8]>
    ensures found { IfSome result (λ rest. IsSeatLineBefore bytes.now rest.now) }
    ensures shorter { IfSome result (λ rest. length rest.now < length bytes.now) }
    ensures none { IfNone result (IsStopped (lines_of bytes.now)) }
{
    let (line, rest) = first_line(bytes)?;
    match seat_form_of(line) {
        Some(_) => Some(rest),
        None => None,
    }
}

// The bytes after the first line, where this is the line that is wanted.
pub fn behind_line<'a>(bytes: &'a [u8], wanted: &[u8]) -> Option<&'a [u8]>
    ensures found { IfSome result (λ rest. lines_of bytes.now ≡ wanted.now ∷ lines_of rest.now) }
    ensures shorter { IfSome result (λ rest. length rest.now < length bytes.now) }
    ensures none { IfNone result ((more : Lines) → lines_of bytes.now ≢ wanted.now ∷ more) }
{
    let (line, rest) = first_line(bytes)?;
    if line == wanted { Some(rest) } else { None }
}
